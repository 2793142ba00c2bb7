// The form of a text reckoned a byte at a time: one pass that looks neither ahead nor back, so that it shares no way of
// reading with the reader that it is held against.
use crate::clause::Clause;
use crate::machine::{Machine, State};
use crate::steps;
use samples::build;

// The numbers of clauses, one after another. Their count stands beside their room, and not in an `ArrayVec`, since a reckoned
// text is `Copy`; numbers behind the room are counted and not kept.
#[derive(Clone, Copy)]
pub struct Numbers {
    room: [u8; Reckoned::ROOM],
    count: usize,
}

impl Numbers {
    pub fn new() -> Numbers {
        Numbers {
            room: [0; Reckoned::ROOM],
            count: 0,
        }
    }

    pub fn len(&self) -> usize {
        self.count
    }

    pub fn is_empty(&self) -> bool {
        self.count == 0
    }

    // The number at a place, or 0.
    pub fn at(&self, i: usize) -> u8 {
        build::byte_at(&self.room, i)
    }

    // The numbers that are kept.
    pub fn as_slice(&self) -> &[u8] {
        build::part(&self.room, self.count)
    }

    // One number more is begun. It is 0 until it is set.
    pub fn begin(&mut self) {
        self.count = self.count.wrapping_add(1);
    }

    // Sets the number that was begun last.
    pub fn set_last(&mut self, n: u8) {
        let last = self.count.wrapping_sub(1);
        if last < Reckoned::ROOM {
            self.room[last] = n;
        }
    }
}

// A text as reckoned. The numbers of its clauses stand one after another as in the text, each clause with its closing 0; a
// literal is a byte, and those from 128 on say no.
#[derive(Clone, Copy)]
pub struct Reckoned {
    pub variables: u8,
    pub numbers: Numbers,
}

impl Reckoned {
    // Of the texts that are tried, none has more numbers.
    pub const ROOM: usize = 2048;
}

// Why a text is not of the form: the place, how many numbers of clauses were begun, and the number that the documents give,
// which is no type of the engine's, since this pass is held against it.
#[derive(Clone, Copy, Debug, PartialEq, Eq)]
pub struct Refused {
    pub number: u8,
    pub place: usize,
    pub begun: usize,
}

// The clause of the numbers from one place to another.
fn clause_of(numbers: &Numbers, from: usize, to: usize) -> Clause {
    let mut clause = Clause::empty();
    for i in from..to {
        clause.add(numbers.at(i));
    }
    clause
}

// The clause that was just closed is judged.
fn judge(m: &mut Machine) -> Result<(), Refused> {
    let clause = clause_of(&m.numbers, m.first, m.numbers.len().wrapping_sub(1));
    if clause.len() > 8 && !clause.opposed {
        return Err(m.refused(13, m.clause_begin.unwrap_or(m.at)));
    }
    m.first = m.numbers.len();
    m.clause_begin = None;
    Ok(())
}

// The text is at its end: it may be after R or behind a clause, once no clause is to come.
fn end_text(m: &Machine) -> Result<(), Refused> {
    match m.state {
        State::InR | State::Gap | State::Closed if m.left == 0 => Ok(()),
        _ => Err(m.refused(12, m.at)),
    }
}

// What a text says, or why it is not of the form.
pub fn reckon(s: &[u8]) -> Result<Reckoned, Refused> {
    let mut m = Machine::start();
    for &b in s {
        steps::step(&mut m, b)?;
        if m.state == State::Closed {
            judge(&mut m)?;
        }
    }
    end_text(&m)?;
    Ok(Reckoned {
        variables: (m.variables % 256) as u8,
        numbers: m.numbers,
    })
}
