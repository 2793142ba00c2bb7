// Rules drawn one after another, each from the state that the one before it left.
use samples::build::Draft;

// So many rules, each of them put by `draw`.
pub fn rules<F: Fn(Draft) -> Draft>(d: Draft, number: u8, draw: F) -> Draft
    requires { F.IsAlwaysCallable draw }
{
    let mut made = d;
    for _ in 0..number {
        made = draw(made);
    }
    made
}
