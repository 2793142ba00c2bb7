// RL: a rule, as two masks.
ghost use Rattle.std.specs.Prelude.{◌≡◌, cond, map, ◌≤◌, length, Some, None};
ghost use Rattle.sets.specs.Sets.{width};
ghost use Rattle.literals.specs.Literal.{of_byte};
ghost use Rattle.records.specs.Format.{rising, rule_at, rule_values};
ghost use Rattle.records.specs.Promises.{record_answer, masks, masks_and_length};

use crate::refusal::RefusalKind;
use crate::{Book, mark};
use literals::LiteralSet;

// The literals of a rule, and how many bytes its record has.
#[derive(Clone, Copy, Debug, PartialEq, Eq)]
pub struct RuleRead {
    pub set: LiteralSet,
    pub len: usize,
}

#[tactic(auto, using(crate::proofs::LiteralLaws::handed_byte, crate::proofs::LiteralLaws::gathered_none, crate::proofs::LiteralLaws::gathered_more, crate::proofs::LiteralLaws::not_rising, crate::proofs::LiteralLaws::too_high, crate::proofs::LiteralLaws::gathered_all))]
// The literals that the bytes of a part are, over variables up to `n`, where they rise strictly.
fn read_literals(s: &[u8], n: usize) -> Option<LiteralSet>
    requires { n ≤ width }
    ensures { result ≡ cond (rising n 0 (map of_byte s.now)) (Some (masks (map of_byte s.now))) None }
{
    let mut set = LiteralSet { yes: 0, no: 0 };
    let mut last: usize = 0;
    for &b in s {
        let l = literals::of_byte(b);
        let v = literals::variable(l) as usize;
        if v <= last || n < v {
            return None;
        }
        set = set.with(l);
        last = v;
    }
    Some(set)
}

// The RL record at the beginning of a part, in a book of `n` variables.
#[tactic(auto, using(crate::proofs::CheckLaws::opened_ok, crate::proofs::CheckLaws::opened_within), unfolding(crate::specs::Format::rule_at))]
pub fn read_rule(s: &[u8], n: usize) -> Result<RuleRead, RefusalKind>
    requires { n ≤ width }
    ensures { result ≡ record_answer masks_and_length (rule_at n s.now) }
{
    mark::opened(s, mark::RL, 3)?;
    rule_values(s, n)
}

// The RL record whose count is there. A count of 0 is read: no filling obeys such a rule.
#[tactic(auto, unfolding(crate::specs::Format::rule_values, crate::specs::Promises::record_answer))]
fn rule_values(s: &[u8], n: usize) -> Result<RuleRead, RefusalKind>
    requires n_le_width { n ≤ width }
    requires in_bounds { 3 ≤ length s.now }
    ensures { result ≡ record_answer masks_and_length (rule_values n s.now) }
{
    let count = s[2] as usize;
    if count > Book::MAX_LITERALS {
        return Err(RefusalKind::LiteralCount);
    }
    let len = 3 + count;
    if s.len() < len {
        return Err(RefusalKind::CutShort);
    }
    let set = read_literals(&s[3..len], n).ok_or(RefusalKind::Literals)?;
    Ok(RuleRead { set, len })
}
