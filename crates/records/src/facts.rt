// FA: a given fact.
ghost use Rattle.std.specs.Prelude.{◌≡◌, ◌≤◌, length};
ghost use Rattle.records.specs.Format.{fact_at, fact_values};
ghost use Rattle.records.specs.Promises.{record_answer, what};

use crate::mark;
use crate::refusal::RefusalKind;

// The FA record at the beginning of a part, in a book of `u` choices, after a fact over the variable `last`.
#[tactic(auto, using(crate::proofs::CheckLaws::opened_ok, crate::proofs::CheckLaws::opened_within), unfolding(crate::specs::Format::fact_at))]
pub fn read_fact(s: &[u8], u: usize, last: usize) -> Result<i8, RefusalKind>
    ensures { result ≡ record_answer what (fact_at u last s.now) }
{
    mark::opened(s, mark::FA, 3)?;
    fact_values(s, u, last)
}

// The literal of an FA record that is all there.
#[tactic(auto, using(crate::proofs::LiteralLaws::handed_byte, crate::proofs::LiteralLaws::rising_low, crate::proofs::LiteralLaws::rising_high, crate::proofs::LiteralLaws::rising_more, crate::proofs::LiteralLaws::rising_none), unfolding(crate::specs::Format::fact_values, crate::specs::Promises::record_answer))]
fn fact_values(s: &[u8], u: usize, last: usize) -> Result<i8, RefusalKind>
    requires { 3 ≤ length s.now }
    ensures { result ≡ record_answer what (fact_values u last s.now) }
{
    let l = literals::of_byte(s[2]);
    let v = literals::variable(l) as usize;
    if v <= last || u < v {
        return Err(RefusalKind::Literals);
    }
    Ok(l)
}
