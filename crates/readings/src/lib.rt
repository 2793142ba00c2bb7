// What a reader says of a book, held against the reckoning, and how often two answers agree.
#![tactic(auto)]

pub mod counts;

use dates::{Applies, Date, Moment};
use literals::LiteralSet;
use records::Book;
use records::refusal::{Refusal, RefusalKind};
use samples::reckon::{Literals, Reckoned, Refused, Rule};
use samples::windows::Window;
use samples::{calendar, limits, windows};

// The number of a check that fails, as document 01 has it. It stands here again, and is not asked of the engine's crates.
fn check_number(kind: RefusalKind) -> u8 {
    match kind {
        RefusalKind::CutShort => 1,
        RefusalKind::Mark => 2,
        RefusalKind::Counts => 3,
        RefusalKind::Cost => 4,
        RefusalKind::LiteralCount => 5,
        RefusalKind::Literals => 6,
        RefusalKind::AfterEnd => 7,
        RefusalKind::ShortBuffer => 8,
        RefusalKind::NoFilling => 9,
        RefusalKind::KnownSet => 10,
        RefusalKind::Text => 12,
        RefusalKind::TextLimits => 13,
        RefusalKind::Times => 14,
        RefusalKind::Beginning => 15,
    }
}

// A refusal, as the documents number it. It is a function, and so are the others below, and no `From`: both types are of other crates.
pub fn refused(refusal: Refusal) -> Refused {
    Refused {
        number: check_number(refusal.kind),
        place: refusal.place,
    }
}

// A set of literals, as the tests have it.
pub fn masks(set: LiteralSet) -> Literals {
    Literals {
        yes: set.yes,
        no: set.no,
    }
}

// A moment as the engine has it.
pub fn moment_of(m: windows::Moment) -> Moment {
    let date = Date {
        year: calendar::year_of(m.date),
        month: calendar::month_of(m.date),
        day: calendar::day_of(m.date),
    };
    Moment {
        date,
        minute: m.minute,
    }
}

// A date as one number.
fn number_of(d: Date) -> u32 {
    calendar::date(d.year, d.month, d.day)
}

// When a rule applies, as the tests have it: in a window, or else always.
fn window_of(applies: Applies) -> Option<Window> {
    match applies {
        Applies::Always => None,
        Applies::During(w) => Some(Window {
            first: number_of(w.first_day),
            end: number_of(w.end_day),
            weekdays: w.weekdays,
            first_minute: w.first_minute,
            end_minute: w.end_minute,
        }),
    }
}

// A rule, as the tests have it.
fn rule_of(rule: &records::Rule) -> Rule {
    Rule {
        literals: masks(rule.literals),
        window: window_of(rule.applies),
    }
}

// The engine's limits are those of the tests: where they differ, this is not proved.
const _: () = prove!(Book::MAX_RULES == limits::MASKS);

const _: () = prove!(Book::MAX_CHOICES == limits::COSTS);

// Whether the engine's rules are those that are reckoned. One index goes through both.
fn same_rules(rules: &[records::Rule], due: &[Rule]) -> bool {
    rules.len() == due.len() && (0..rules.len()).all(|i| rule_of(&rules[i]) == due[i])
}

// Whether the engine's table of costs is the row that is reckoned. One index goes through both.
fn same_costs(table: &[[u16; 2]; Book::MAX_CHOICES], row: &[[u16; 2]; limits::COSTS]) -> bool {
    (0..limits::COSTS).all(|choice| table[choice] == row[choice])
}

// Whether a book is the one that is reckoned.
fn same_book(book: &Book, due: &Reckoned) -> bool {
    book.variables == due.variables
        && book.choices == due.choices
        && masks(book.facts) == due.facts
        && same_rules(book.rules.as_slice(), due.rules.as_slice())
}

// Whether a reading and a table of costs are what is reckoned, the costs beside a refusal included.
pub fn agree(
    read: &Result<Book, Refusal>,
    costs: &[[u16; 2]; Book::MAX_CHOICES],
    due: &Result<Reckoned, Refused>,
) -> bool {
    match (read, due) {
        (Ok(book), Ok(due)) => same_book(book, due) && same_costs(costs, &due.costs),
        (Err(refusal), Err(due)) => {
            refused(*refusal) == *due && *costs == [[0; 2]; Book::MAX_CHOICES]
        }
        _ => false,
    }
}
