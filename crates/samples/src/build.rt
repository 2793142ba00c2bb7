// Books as bytes: records put one after another into a draft.
ghost use Rattle.std.specs.Prelude.{◌≤◌, length};

use crate::windows::Window;
use crate::{limits, windows};

// The bytes put so far, at the start of a room; and the generator's state, which a book that is made up takes along. The
// length stands beside the room, and not in an `ArrayVec`, since a draft is `Copy`: tests go on from one in many ways.
#[derive(Clone, Copy)]
pub struct Text<const ROOM: usize> {
    pub bytes: [u8; ROOM],
    pub len: usize,
    pub seed: u64,
}

impl<const ROOM: usize> Text<ROOM> {
    // The bytes put so far.
    pub fn as_slice(&self) -> &[u8] {
        part(&self.bytes, self.len)
    }

    // One byte more. A full room stays as it is.
    pub fn push(&mut self, b: u8) {
        let n = self.len;
        if n < ROOM {
            self.bytes[n] = b;
            self.len = n + 1;
        }
    }

    // These bytes put one after another.
    pub fn extend_from_slice(&mut self, s: &[u8]) {
        for &b in s {
            self.push(b);
        }
    }
}

// A text with room for the longest book and more.
pub type Draft = Text<4096>;

// No bytes, in a room of any size.
pub fn no_bytes<const ROOM: usize>() -> Text<ROOM> {
    Text {
        bytes: [0; ROOM],
        len: 0,
        seed: 88172645463325252,
    }
}

pub fn empty() -> Draft {
    no_bytes()
}

// The text with one byte more.
pub fn put<const ROOM: usize>(mut d: Text<ROOM>, b: u8) -> Text<ROOM> {
    d.push(b);
    d
}

// The text with these bytes behind it.
pub fn bytes<const ROOM: usize>(mut d: Text<ROOM>, s: &[u8]) -> Text<ROOM> {
    d.extend_from_slice(s);
    d
}

pub fn put2(d: Draft, a: u8, b: u8) -> Draft {
    put(put(d, a), b)
}

// A two-byte number, the high byte first.
pub fn pair(d: Draft, n: u16) -> Draft {
    bytes(d, &n.to_be_bytes())
}

pub fn header(d: Draft, variables: u8, choices: u8, rules: u8) -> Draft {
    bytes(d, &[b'H', b'D', variables, choices, rules])
}

pub fn cost(d: Draft, choice: u8, of_yes: u16, of_no: u16) -> Draft {
    pair(pair(bytes(d, &[b'C', b'S', choice]), of_yes), of_no)
}

// The costs of `choices` choices, which are the same for each.
pub fn equal_costs(d: Draft, choices: u8, of_yes: u16, of_no: u16) -> Draft {
    let mut made = d;
    for choice in 1..=choices {
        made = cost(made, choice, of_yes, of_no);
    }
    made
}

// The costs of `choices` choices: 5 for yes and 9 for no.
pub fn costs(d: Draft, choices: u8) -> Draft {
    equal_costs(d, choices, 5, 9)
}

// A rule's mark and count: its literals are put after it.
pub fn rule(d: Draft, count: u8) -> Draft {
    bytes(d, &[b'R', b'L', count])
}

// A rule of `count` literals over `first` and the variables after it, all yes.
pub fn long_rule(d: Draft, first: u8, count: u8) -> Draft {
    let mut made = rule(d, count);
    for i in 0..count {
        made.push(first.wrapping_add(i));
    }
    made
}

// The record of a window, for the rule before it.
pub fn window(d: Draft, w: Window) -> Draft {
    let first = bytes(put2(d, b'W', b'N'), &w.first.to_be_bytes());
    let days = bytes(first, &w.end.to_be_bytes());
    pair(pair(put(days, w.weekdays), w.first_minute), w.end_minute)
}

// The record of a window where the rule has one.
pub fn any_window(d: Draft, w: Option<Window>) -> Draft {
    match w {
        Some(w) => window(d, w),
        None => d,
    }
}

pub fn fact(d: Draft, literal: u8) -> Draft {
    bytes(d, &[b'F', b'A', literal])
}

pub fn end(d: Draft) -> Draft {
    put2(d, b'E', b'N')
}

// A rule of one literal.
pub fn rule_of(d: Draft, a: u8) -> Draft {
    put(rule(d, 1), a)
}

// A rule of two literals.
pub fn rule_of_two(d: Draft, a: u8, b: u8) -> Draft {
    put2(rule(d, 2), a, b)
}

// The rule (1), `rules` times.
pub fn equal_rules(d: Draft, rules: u8) -> Draft {
    let mut made = d;
    for _ in 0..rules {
        made = rule_of(made, 1);
    }
    made
}

// The byte of the literal "v is no", or of the opposite of any literal.
pub fn negated(v: u8) -> u8 {
    v.wrapping_neg()
}

// The variable of a literal: a byte from 128 on stands for the literal that is 256 less.
pub fn variable(literal: u8) -> u8 {
    if literal < 128 {
        literal
    } else {
        negated(literal)
    }
}

// The variables that a rule of the most literals, one after another, can begin with.
const FIRST_VARIABLES: u8 = limits::VARIABLES - limits::LITERALS + 1;

// Rules of the most literals, beginning with variable 1, with 2, .. and round again, each with its window or none with one.
fn long_rules(d: Draft, rules: u8, with_windows: bool) -> Draft {
    let mut made = d;
    for i in 0..rules {
        made = long_rule(made, i % FIRST_VARIABLES + 1, limits::LITERALS);
        if with_windows {
            made = window(made, windows::nth(i));
        }
    }
    made
}

// Facts over the first choices, all yes or all no.
pub fn first_facts(d: Draft, choices: u8, yes: bool) -> Draft {
    let mut made = d;
    for v in 1..=choices {
        made = fact(made, if yes { v } else { negated(v) });
    }
    made
}

// The longest book, every count and every record at its most, with a window for each rule or without windows.
pub fn longest(with_windows: bool) -> Draft {
    let d = header(empty(), limits::VARIABLES, limits::CHOICES, limits::RULES);
    let d = long_rules(costs(d, limits::CHOICES), limits::RULES, with_windows);
    end(first_facts(d, limits::CHOICES, false))
}

// So many bytes, or as many as a room has.
pub fn fitting(room: &[u8], len: usize) -> usize
    ensures { result ≤ length room.now }
{
    len.min(room.len())
}

// The first bytes, as many as are asked for.
pub fn part(s: &[u8], len: usize) -> &[u8] {
    &s[..fitting(s, len)]
}

// The byte at a place, or 0.
pub fn byte_at(s: &[u8], place: usize) -> u8 {
    s.get(place).copied().unwrap_or(0)
}

// Where the rules of a good book begin: HD has 5 bytes, with the number of choices at 3, and each CS has 7.
pub fn rules_begin(book: &[u8]) -> usize {
    5 + 7 * usize::from(byte_at(book, 3))
}
