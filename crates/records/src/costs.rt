// CS: the costs of a choice.
ghost use Rattle.std.specs.Prelude.{◌≡◌, ◌+◌, ◌<◌, ◌≤◌, length};
ghost use Rattle.records.specs.Format.{pair, is_cost, cost_at, cost_values};
ghost use Rattle.records.specs.Promises.{record_answer, row};

use crate::refusal::RefusalKind;
use crate::{Book, mark};

// A two-byte number, the high byte first.
#[tactic(auto, unfolding(crate::specs::Format::pair))]
pub fn pair_at(s: &[u8], i: usize) -> u16
    requires { i + 1 < length s.now }
    ensures { result ≡ pair s.now i }
{
    u16::from_be_bytes([s[i], s[i + 1]])
}

// Whether a number is a cost.
#[tactic(auto, unfolding(crate::specs::Format::is_cost))]
fn is_cost(n: u16) -> bool
    ensures { result ≡ is_cost n }
{
    1 <= n && n <= Book::MAX_COST
}

// The CS record at the beginning of a part, for the choice that is due: the cost of its yes and of its no.
#[tactic(auto, using(crate::proofs::CheckLaws::opened_ok, crate::proofs::CheckLaws::opened_within), unfolding(crate::specs::Format::cost_at))]
pub fn read_cost(s: &[u8], due: usize) -> Result<[u16; 2], RefusalKind>
    ensures { result ≡ record_answer (λ c len. row c) (cost_at due s.now) }
{
    mark::opened(s, mark::CS, 7)?;
    cost_values(s, due)
}

// The values of a CS record whose fields are all there.
#[tactic(auto, using(dates::proofs::Tests::found_false, dates::proofs::Tests::found_true), unfolding(crate::specs::Format::cost_values, crate::specs::Promises::record_answer))]
fn cost_values(s: &[u8], due: usize) -> Result<[u16; 2], RefusalKind>
    requires { 7 ≤ length s.now }
    ensures { result ≡ record_answer (λ c len. row c) (cost_values due s.now) }
{
    let of_yes = pair_at(s, 3);
    let of_no = pair_at(s, 5);
    if s[2] as usize != due || !is_cost(of_yes) || !is_cost(of_no) {
        return Err(RefusalKind::Cost);
    }
    Ok([of_yes, of_no])
}
