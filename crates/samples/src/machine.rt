// The state of the pass over a book's bytes.
use crate::limits;
use crate::reckon::{Literals, Refused, Rules};

// What the next byte is taken for.
#[derive(Clone, Copy, Debug, PartialEq, Eq)]
pub enum Awaited {
    FirstLetter,
    SecondLetter,
    Count,
    Field,
    Nothing,
}

// The counts of the header, as far as they are read.
#[derive(Clone, Copy, Debug, Default, PartialEq, Eq)]
pub struct Header {
    pub variables: u8,
    pub choices: u8,
    pub rules: u8,
}

// What is remembered from one byte to the next.
#[derive(Clone, Copy)]
pub struct Machine {
    pub awaited: Awaited,
    pub at: usize,
    // Of the record in hand: where it begins, its first letter, the fields to come, what the others are refused for.
    pub begin: usize,
    pub letter: u8,
    pub left: u8,
    pub bad: Option<u8>,
    // The header, once its mark was met.
    pub header: Option<Header>,
    // How many CS records are begun, and the high byte of the cost in hand.
    pub costs_begun: u8,
    pub high: u8,
    // The variables that the next literal of the rule in hand, and the next fact, have to be above.
    pub last: u8,
    pub last_fact: u8,
    // What has been read: the costs, the rules begun, each with its window, and the facts.
    pub costs: [[u16; 2]; limits::COSTS],
    pub rules: Rules,
    pub facts: Literals,
}

impl Machine {
    pub fn start() -> Machine {
        Machine {
            awaited: Awaited::FirstLetter,
            at: 0,
            begin: 0,
            letter: 0,
            left: 0,
            bad: None,
            header: None,
            costs_begun: 0,
            high: 0,
            last: 0,
            last_fact: 0,
            costs: [[0; 2]; limits::COSTS],
            rules: Rules::new(),
            facts: Literals::default(),
        }
    }

    // The counts of the header, or 0 as long as they are not read.
    pub fn counts(&self) -> Header {
        self.header.unwrap_or_default()
    }

    // The refusal of the record in hand.
    pub fn refused(&self, number: u8) -> Refused {
        Refused {
            number,
            place: self.begin,
        }
    }
}
