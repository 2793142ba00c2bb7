// Rules from a DIMACS CNF text: the text is read whole, and then the book is put into the lent buffer.
#![tactic(auto)]

ghost use Rattle.std.specs.Prelude.{◌≡◌, ◌≤◌, length};
ghost use Rattle.records.specs.Limits.{max_variables, max_rules};
ghost use Rattle.records.specs.Promises.{read_answer};
ghost use Rattle.dimacs.specs.Text.{formula_of, body_from};
ghost use Rattle.dimacs.specs.Import.{imported, ImportedAs};
ghost use Rattle.dimacs.specs.Promises.{formula_read, counts_of};

mod bytes;
mod clauses;
mod head;
mod numbers;
mod writing;

use arrayvec::ArrayVec;
use bytes::Class;
use clauses::MAX_RULES;
use head::Head;
use literals::LiteralSet;
use records::Book;
use records::refusal::{Refusal, RefusalKind};

// V and the kept clauses of a text.
#[derive(Drop)]
struct Formula {
    variables: usize,
    clauses: ArrayVec<LiteralSet, MAX_RULES>,
}

// The clauses and the end of a text, after V and R.
fn read_body(s: &[u8], head: Head) -> Result<Formula, Refusal>
    requires variables_le_max_variables { head.variables ≤ max_variables }
    requires count_le_max_rules { head.clauses ≤ max_rules }
    ensures { result ≡ read_answer formula_read (body_from s.now (counts_of head) head.next) }
{
    let read = clauses::read_clauses(s, head.variables, head.clauses, head.next)?;
    let end = bytes::run_end(s, read.next, Class::Gap);
    if end < s.len() {
        return Err(RefusalKind::Text.at(end));
    }
    Ok(Formula {
        variables: head.variables,
        clauses: read.kept,
    })
}

// The whole text.
fn read_text(s: &[u8]) -> Result<Formula, Refusal>
    ensures { result ≡ read_answer formula_read (formula_of s.now) }
{
    let head = head::read_head(s)?;
    read_body(s, head)
}

// Reads a DIMACS CNF text and puts the book that is made of it at the front of a lent buffer: the book's length, or the refusal.
pub fn import(s: &[u8], out: &mut [u8]) -> Result<usize, Refusal>
    ensures { ImportedAs (imported (length out.old) s.now) out.old out.new result }
{
    if out.len() < Book::MAX_WITHOUT_FACTS {
        return Err(RefusalKind::ShortBuffer.at(0));
    }
    let formula = read_text(s)?;
    Ok(writing::put_book(out, formula.variables, &formula.clauses))
}
