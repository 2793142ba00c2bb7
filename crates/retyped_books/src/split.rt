// Long rules written as two, with a helper that stands for some of their literals.
use crate::rules;
use crate::rules::{Rules, Unfit};
use brute_force::fillings;
use brute_force::fillings::Literals;
use samples::random;

// A rule is long from so many literals on.
const LONG: u32 = 4;

// A long rule and its place, looked for from a drawn place on and round again.
fn long_rule(r: &Rules) -> Option<(usize, Literals)> {
    let list = r.as_slice();
    let start = random::place_below(r.seed, list.len());
    let round = list.iter().copied().enumerate().cycle();
    round
        .skip(start)
        .take(list.len())
        .find(|(_, rule)| LONG <= rules::size(*rule))
}

// A long rule written as two: the helper, or one of its other literals; and where the helper is true, one of these.
// Its definition may be written in both directions: where one of these is true, the helper is.
pub fn split(r: &mut Rules, both: bool) -> Result<(), Unfit> {
    let Some((place, rule)) = long_rule(r) else {
        return Ok(());
    };
    let part = fillings::within(rule, random::next(r.seed));
    let helper = rules::literal(r.variables, true);
    let rest = fillings::joined(fillings::less(rule, part), helper);
    rules::add_variable(r)?;
    rules::change(r, place, rest)?;
    rules::add_both(r, part, fillings::opposite(helper))?;
    if both {
        rules::add_each(r, fillings::opposite(part), helper)?;
    }
    Ok(())
}
