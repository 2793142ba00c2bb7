// The format of a book reckoned a byte at a time: one pass that looks neither ahead nor back, so that it shares no way
// of reading with the reader that it is held against.
use crate::machine::{Awaited, Header, Machine};
use crate::windows::Window;
use crate::{fields, limits};

// Literals as masks: the variables said yes of and those said no of. Bit v - 1 stands for variable v.
#[derive(Clone, Copy, Debug, Default, PartialEq, Eq)]
pub struct Literals {
    pub yes: u64,
    pub no: u64,
}

// The mask of one variable, or 0.
pub fn bit(variable: u8) -> u64 {
    match variable {
        1..=64 => 1 << (variable - 1),
        _ => 0,
    }
}

// A rule: its literals, and its window where it has one.
#[derive(Clone, Copy, Debug, Default, PartialEq, Eq)]
pub struct Rule {
    pub literals: Literals,
    pub window: Option<Window>,
}

// The rules of a book, one after another. Their number stands beside their room, and not in an `ArrayVec`, since a reckoned
// book is `Copy`.
#[derive(Clone, Copy)]
pub struct Rules {
    room: [Rule; limits::MASKS],
    count: usize,
}

impl Rules {
    pub fn new() -> Rules {
        Rules {
            room: [Rule::default(); limits::MASKS],
            count: 0,
        }
    }

    pub fn as_slice(&self) -> &[Rule] {
        &self.room[..self.count.min(limits::MASKS)]
    }

    pub fn as_mut_slice(&mut self) -> &mut [Rule] {
        let count = self.count.min(limits::MASKS);
        &mut self.room[..count]
    }

    pub fn len(&self) -> usize {
        self.count
    }

    pub fn is_empty(&self) -> bool {
        self.count == 0
    }

    pub fn is_full(&self) -> bool {
        self.count >= limits::MASKS
    }

    // One rule more. A full room stays as it is.
    pub fn push(&mut self, rule: Rule) {
        let n = self.count;
        if n < limits::MASKS {
            self.room[n] = rule;
            self.count = n + 1;
        }
    }
}

// A book as reckoned. The costs are those of yes and of no, choice by choice.
#[derive(Clone, Copy)]
pub struct Reckoned {
    pub variables: usize,
    pub choices: usize,
    pub rules: Rules,
    pub facts: Literals,
    pub costs: [[u16; 2]; limits::COSTS],
}

// Why bytes are no book. The number is the one that the documents give, and no type of the engine's, which this pass is
// held against.
#[derive(Clone, Copy, Debug, PartialEq, Eq)]
pub struct Refused {
    pub number: u8,
    pub place: usize,
}

// The first letter of the mark that is due; after the rules E will do for F.
fn due(m: &Machine) -> u8 {
    let Some(header) = m.header else {
        return b'H';
    };
    if m.costs_begun < header.choices {
        b'C'
    } else if m.rules.len() < usize::from(header.rules) {
        b'R'
    } else {
        b'F'
    }
}

// The letter that makes a mark of a first letter.
fn second_of(first: u8) -> Option<u8> {
    match first {
        b'H' => Some(b'D'),
        b'C' => Some(b'S'),
        b'R' => Some(b'L'),
        b'W' => Some(b'N'),
        b'F' => Some(b'A'),
        b'E' => Some(b'N'),
        _ => None,
    }
}

// Whether a window may stand here: one after each rule, and none after a fact.
fn may_have_window(m: &Machine) -> bool {
    let last = m.rules.as_slice().last();
    m.last_fact == 0 && last.is_some_and(|rule| rule.window.is_none())
}

// Whether the mark of these two letters may stand here.
fn may_stand(m: &Machine, first: u8, second: u8) -> bool {
    if second_of(first) != Some(second) {
        return false;
    }
    match first {
        b'W' => may_have_window(m),
        b'E' => due(m) == b'F',
        _ => due(m) == first,
    }
}

// The mark is whole: refused, or its record is open.
fn mark_ends(m: &mut Machine, second: u8) -> Result<(), Refused> {
    if !may_stand(m, m.letter, second) {
        return Err(m.refused(2));
    }
    m.bad = None;
    m.awaited = Awaited::Field;
    match m.letter {
        b'H' => {
            m.header = Some(Header::default());
            m.left = 3;
        }
        b'C' => {
            m.costs_begun = m.costs_begun.wrapping_add(1);
            m.left = 5;
        }
        b'R' => m.awaited = Awaited::Count,
        b'W' => m.left = 13,
        b'F' => m.left = 1,
        _ => m.awaited = Awaited::Nothing,
    }
    Ok(())
}

// One byte.
fn step(m: &mut Machine, b: u8) -> Result<(), Refused> {
    match m.awaited {
        Awaited::FirstLetter => {
            m.begin = m.at;
            m.letter = b;
            m.awaited = Awaited::SecondLetter;
        }
        Awaited::SecondLetter => mark_ends(m, b)?,
        Awaited::Count => fields::count(m, b)?,
        Awaited::Field => fields::field(m, b)?,
        Awaited::Nothing => {
            m.begin = m.at;
            return Err(m.refused(7));
        }
    }
    m.at = m.at.wrapping_add(1);
    Ok(())
}

// The bytes are at their end: only after EN may they be.
fn bytes_end(m: &mut Machine) -> Result<(), Refused> {
    if m.awaited == Awaited::Nothing {
        return Ok(());
    }
    if m.awaited == Awaited::FirstLetter {
        m.begin = m.at;
    }
    Err(m.refused(1))
}

// The book that the bytes are, or why they are none.
pub fn reckon(s: &[u8]) -> Result<Reckoned, Refused> {
    let mut m = Machine::start();
    for &b in s {
        step(&mut m, b)?;
    }
    bytes_end(&mut m)?;
    let header = m.counts();
    Ok(Reckoned {
        variables: usize::from(header.variables),
        choices: usize::from(header.choices),
        rules: m.rules,
        facts: m.facts,
        costs: m.costs,
    })
}

// Whether a book holds a rule of no literals.
pub fn has_empty_rule(b: &Reckoned) -> bool {
    b.rules
        .as_slice()
        .iter()
        .any(|rule| rule.literals == Literals::default())
}

// Whether a book holds a window.
pub fn has_window(b: &Reckoned) -> bool {
    b.rules.as_slice().iter().any(|rule| rule.window.is_some())
}
