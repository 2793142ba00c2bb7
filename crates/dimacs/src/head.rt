// All that stands before the clauses: comment lines, and `p cnf V R`.
ghost use Rattle.std.specs.Prelude.{◌≡◌, suc, length};
ghost use Rattle.records.specs.Promises.{read_answer, place_after};
ghost use Rattle.dimacs.specs.Text.{line, comments, word_and_blanks, counts_from, head_of};
ghost use Rattle.dimacs.specs.Promises.{head_read};

use crate::bytes::Class;
use crate::{bytes, numbers};
use records::Book;
use records::refusal::{Refusal, RefusalKind};

// V and R, and the place after them.
#[derive(Clone, Copy, Debug, PartialEq, Eq)]
pub struct Head {
    pub variables: usize,
    pub clauses: usize,
    pub next: usize,
}

// The line from a place on: the place after its line end.
#[tactic(auto, using(crate::proofs::HeadLaws::line_ends, crate::proofs::HeadLaws::line_open), unfolding(records::specs::Promises::read_answer))]
fn skip_line(s: &[u8], from: usize) -> Result<usize, Refusal>
    ensures { result ≡ read_answer place_after (line s.now from) }
{
    let end = bytes::run_end(s, from, Class::InLine);
    if end < s.len() {
        Ok(end + 1)
    } else {
        Err(RefusalKind::Text.at(end))
    }
}

// The lines that begin with c.
fn skip_comments(s: &[u8]) -> Result<usize, Refusal>
    ensures { result ≡ read_answer place_after (comments s.now (suc (length s.now)) 0) }
{
    let mut at = 0;
    while bytes::stands(s, at, Class::Is(b'c')) {
        at = skip_line(s, at)?;
    }
    Ok(at)
}

// A word, and one or more blanks.
fn word_and_blanks(s: &[u8], w: &[u8], from: usize) -> Result<usize, Refusal>
    ensures { result ≡ read_answer place_after (word_and_blanks s.now w.now from) }
{
    let place = bytes::read_word(s, w, from)?;
    bytes::one_or_more(s, place, Class::Blank)
}

// V, blanks, R.
fn read_counts(s: &[u8], from: usize) -> Result<Head, Refusal>
    ensures { result ≡ read_answer head_read (counts_from s.now from) }
{
    let over = RefusalKind::TextLimits;
    let variables = numbers::read_up_to(s, from, Book::MAX_VARIABLES, over, from)?;
    let place = bytes::one_or_more(s, variables.next, Class::Blank)?;
    let clauses = numbers::read_up_to(s, place, Book::MAX_RULES, over, place)?;
    Ok(Head {
        variables: variables.value,
        clauses: clauses.value,
        next: clauses.next,
    })
}

// The beginning of a text, up to R.
pub fn read_head(s: &[u8]) -> Result<Head, Refusal>
    ensures { result ≡ read_answer head_read (head_of s.now) }
{
    let skipped = skip_comments(s)?;
    let marked = word_and_blanks(s, b"p", skipped)?;
    let named = word_and_blanks(s, b"cnf", marked)?;
    read_counts(s, named)
}
