// HD: the counts V, U and R.
ghost use Rattle.std.specs.Prelude.{◌≡◌, ◌≤◌, length};
ghost use Rattle.records.specs.Format.{header_at, header_values};
ghost use Rattle.records.specs.Promises.{record_answer, counts};

use crate::refusal::RefusalKind;
use crate::{Book, mark};

// The counts of a book: V, U and R.
#[derive(Clone, Copy, Debug, PartialEq, Eq)]
pub struct Header {
    pub variables: usize,
    pub choices: usize,
    pub rules: usize,
}

// The header at the beginning of a part.
#[tactic(auto, using(crate::proofs::CheckLaws::opened_ok, crate::proofs::CheckLaws::opened_within), unfolding(crate::specs::Format::header_at))]
pub fn read_header(s: &[u8]) -> Result<Header, RefusalKind>
    ensures { result ≡ record_answer counts (header_at s.now) }
{
    mark::opened(s, mark::HD, 5)?;
    header_values(s)
}

// The counts of a header whose fields are all there.
#[tactic(auto, unfolding(crate::specs::Format::header_values, crate::specs::Promises::record_answer))]
fn header_values(s: &[u8]) -> Result<Header, RefusalKind>
    requires { 5 ≤ length s.now }
    ensures { result ≡ record_answer counts (header_values s.now) }
{
    let variables = s[2] as usize;
    let choices = s[3] as usize;
    let rules = s[4] as usize;
    if variables > Book::MAX_VARIABLES
        || choices > Book::MAX_CHOICES
        || choices > variables
        || rules > Book::MAX_RULES
    {
        return Err(RefusalKind::Counts);
    }
    Ok(Header {
        variables,
        choices,
        rules,
    })
}
