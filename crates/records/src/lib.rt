// The order book's type with its limits, and the readers of its records, one record at a time.
#![tactic(auto)]

pub mod costs;
pub mod facts;
pub mod header;
pub mod mark;
pub mod refusal;
pub mod rule_list;
pub mod rules;
pub mod windows;

use dates::Applies;
use literals::LiteralSet;
use rule_list::RuleList;

// A rule as it is kept: its literals as two masks, and when it applies.
#[derive(Clone, Copy, Debug, Default, PartialEq, Eq)]
pub struct Rule {
    pub literals: LiteralSet,
    pub applies: Applies,
}

// A book as it is kept: the counts V and U, the costs of the choices, the rules, and the given facts.
// Bit v - 1 of a mask stands for variable v. A row of the costs is a choice's, its yes first; the rows after the last choice are 0.
#[derive(Clone, Copy)]
pub struct Book {
    pub variables: usize,
    pub choices: usize,
    pub costs: [[u16; 2]; Book::MAX_CHOICES],
    pub rules: RuleList,
    pub facts: LiteralSet,
}

// The limits of a book, and of the log that is written for it.
impl Book {
    pub const MAX_VARIABLES: usize = 48;

    pub const MAX_CHOICES: usize = 32;

    pub const MAX_RULES: usize = 128;

    pub const MAX_COST: u16 = 999;

    pub const MAX_LITERALS: usize = 8;

    // The bytes of the longest record of a step: 7, and a literal for each choice.
    const MAX_STEP_BYTES: usize = Book::MAX_CHOICES + 7;

    // The bytes of the record that ends a log.
    const OK_SIZE: usize = 7;

    // A step for each choice, and the end.
    pub const MAX_LOG: usize = Book::MAX_CHOICES * Book::MAX_STEP_BYTES + Book::OK_SIZE;

    // The bytes of a book without windows and facts, at most: HD, CS for each choice, RL for each rule with the most literals, EN.
    pub const MAX_WITHOUT_FACTS: usize = 5
        + Book::MAX_CHOICES * 7
        + Book::MAX_RULES * (3 + Book::MAX_LITERALS)
        + 2;
}
