// Files that are longer than a draft.
use crate::numbers;
use samples::build;
pub use samples::build::bytes;
use samples::build::{Draft, Text};

// A text with room for the longest of these files.
pub type Long = Text<6144>;

pub fn empty() -> Long {
    build::no_bytes()
}

// All bytes of a draft.
pub fn draft(l: Long, d: Draft) -> Long {
    build::bytes(l, d.as_slice())
}

// A line of `count` literals, all no, from variable `last` down, and the closing 0.
pub fn falling_clause(last: u8, count: u8) -> Draft {
    let mut made = build::empty();
    for i in 0..count {
        let literal = build::negated(last.wrapping_sub(i));
        made = build::put(numbers::literal(made, literal), b' ');
    }
    build::bytes(made, b"0\n")
}

// A clause so many times.
pub fn times(l: Long, clause: Draft, count: u8) -> Long {
    let mut made = l;
    for _ in 0..count {
        made = draft(made, clause);
    }
    made
}

// A file of so many variables that says so many clauses.
pub fn head(variables: u8, clauses: u8) -> Long {
    let line = numbers::head(build::empty(), variables, clauses);
    draft(empty(), build::put(line, b'\n'))
}
