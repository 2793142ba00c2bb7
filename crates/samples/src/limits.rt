// The limits of a book, and what follows from them, as documents 01 and 02 have them. What the tests reckon with and make books
// by has these numbers once, here, and not from the engine's crates: taken from there they would agree with any limits. Only
// the single cases at a limit name it again.

// The most variables, choices, rules, literals of a rule, and the highest cost.
pub const VARIABLES: u8 = 48;

pub const CHOICES: u8 = 32;

pub const RULES: u8 = 128;

pub const LITERALS: u8 = 8;

pub const COST: u16 = 999;

// The records of a log, and the models of a run of Algorithm 2: at most one for each choice, and one.
pub const RECORDS: u8 = CHOICES + 1;

pub const MODELS: u8 = CHOICES + 1;

// The entries of a list of rules, and of a table of costs: a pair for each choice.
pub const MASKS: usize = RULES as usize;

pub const COSTS: usize = CHOICES as usize;

// The first and the last year of a date, the days of these years, and the minutes of a day.
pub const FIRST_YEAR: u16 = 2000;

pub const LAST_YEAR: u16 = 2099;

pub const DAYS: u32 = 36525;

pub const MINUTES: u16 = 1440;

// The bytes of the longest log, of a window's record, of the longest book, and of the longest one with neither windows nor facts.
pub const LOG: usize = 1255;

pub const WINDOW: usize = 15;

pub const BOOK: usize = 3655;

pub const WITHOUT_FACTS: usize = 1639;
