// The reader of a whole book: its records in a row, and what is kept of them.
#![tactic(auto)]

ghost use Rattle.std.specs.Prelude.{◌≡◌, ◌≤◌, length, []};
ghost use Rattle.records.specs.Format.{read_book};
ghost use Rattle.book.specs.Answer.{book_answer, table_answer};

mod costs;
mod facts;
mod rules;

pub use records::Book;
use records::header;
use records::refusal::{Refusal, RefusalKind};

// Reads a book: the accepted book, or the refusal with its check and place.
// Ruled out: a reader that accepts a book with a byte after EN; one that names the place of the first rule for a later one.
pub fn read(s: &[u8]) -> Result<Book, Refusal>
    ensures { result ≡ book_answer (read_book s.now) }
{
    let counts = header::read_header(s).map_err(|kind| kind.at(0))?;
    let (costs, at_rules) = costs::read_costs_from(s, counts.choices, 5)?;
    let (rules, at_facts) = rules::read_rules(s, counts.variables, counts.rules, at_rules)?;
    let (facts, end) = facts::read_facts(s, counts.choices, at_facts)?;
    if end < s.len() {
        return Err(RefusalKind::AfterEnd.at(end));
    }
    Ok(Book {
        variables: counts.variables,
        choices: counts.choices,
        costs,
        rules,
        facts,
    })
}

// The costs of a book, a row of two for each choice and zeros after the last.
// Ruled out: a table with yes and no swapped; costs other than 0 beside a refusal.
pub fn read_costs(s: &[u8]) -> [[u16; 2]; Book::MAX_CHOICES]
    ensures { result ≡ table_answer (λ b. b.costs) (read_book s.now) }
{
    match read(s) {
        Ok(book) => book.costs,
        Err(_) => [[0u16; 2]; Book::MAX_CHOICES],
    }
}
