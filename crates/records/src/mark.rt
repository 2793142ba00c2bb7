// How a record begins: its mark, two ASCII letters, and enough bytes.
ghost use Rattle.std.specs.Prelude.{◌≡◌, ◌≤◌, length};
ghost use Rattle.records.specs.Format.{marked, begins, opened};
ghost use Rattle.records.specs.Promises.{record_answer, nothing};

use crate::refusal::RefusalKind;

pub const HD: [u8; 2] = *b"HD";

pub const CS: [u8; 2] = *b"CS";

pub const RL: [u8; 2] = *b"RL";

pub const WN: [u8; 2] = *b"WN";

pub const FA: [u8; 2] = *b"FA";

pub const EN: [u8; 2] = *b"EN";

// Whether a part of two bytes or more begins with a mark.
#[tactic(auto, unfolding(crate::specs::Format::marked))]
fn has_mark(s: &[u8], mark: [u8; 2]) -> bool
    requires { 2 ≤ length s.now }
    ensures { result ≡ marked mark s.now }
{
    s[0] == mark[0] && s[1] == mark[1]
}

// Whether a part begins with a mark, where it may be short.
#[tactic(auto, unfolding(crate::specs::Format::begins))]
pub fn begins(s: &[u8], mark: [u8; 2]) -> bool
    ensures { result ≡ begins mark s.now }
{
    2 <= s.len() && has_mark(s, mark)
}

// The beginning of a record: its mark, and then `size` bytes in all.
#[tactic(auto, using(dates::proofs::Tests::found_false, dates::proofs::Tests::found_true), unfolding(crate::specs::Format::opened, crate::specs::Promises::record_answer))]
pub fn opened(s: &[u8], mark: [u8; 2], size: usize) -> Result<(), RefusalKind>
    ensures { result ≡ record_answer nothing (opened mark size s.now) }
{
    if s.len() < 2 {
        return Err(RefusalKind::CutShort);
    }
    if !has_mark(s, mark) {
        return Err(RefusalKind::Mark);
    }
    if s.len() < size {
        return Err(RefusalKind::CutShort);
    }
    Ok(())
}
