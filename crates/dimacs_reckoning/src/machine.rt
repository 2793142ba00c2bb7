// The state of the pass over a text's bytes.
use crate::reckon::{Numbers, Refused};

#[derive(Clone, Copy, Debug, PartialEq, Eq)]
pub enum State {
    // Where a line that may be a comment begins, and inside a comment.
    Line,
    Comment,
    // After `p`, after blanks behind it, after `c`, `cn` and `cnf`, and after blanks behind that.
    AfterP,
    BeforeCnf,
    AfterC,
    AfterN,
    AfterF,
    BeforeV,
    // After a digit of V, after blanks behind it, and after a digit of R.
    InV,
    BeforeR,
    InR,
    // After a blank or a line end behind R, after a minus, after a digit of a literal, and after the 0 that closes a clause.
    Gap,
    Minus,
    InLiteral,
    Closed,
}

// What is remembered from one byte to the next.
#[derive(Clone, Copy)]
pub struct Machine {
    pub state: State,
    pub at: usize,
    // Of the number in hand: where it begins, its value so far, and whether a minus stands before it.
    pub begin: usize,
    pub value: u64,
    pub minus: bool,
    pub variables: u64,
    // How many clauses are to come, the one in hand included.
    pub left: u64,
    // The numbers of clauses that are begun, the last of them so far as it was read; and how many there were where the
    // clause in hand began.
    pub numbers: Numbers,
    pub first: usize,
    // Where the first byte of the clause in hand is, once it was met.
    pub clause_begin: Option<usize>,
}

impl Machine {
    pub fn start() -> Machine {
        Machine {
            state: State::Line,
            at: 0,
            begin: 0,
            value: 0,
            minus: false,
            variables: 0,
            left: 0,
            numbers: Numbers::new(),
            first: 0,
            clause_begin: None,
        }
    }

    // The refusal of a text at a place.
    pub fn refused(&self, number: u8, place: usize) -> Refused {
        Refused {
            number,
            place,
            begun: self.numbers.len(),
        }
    }
}
