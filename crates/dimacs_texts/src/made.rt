// Files made up from a seed: comments or none, numbers parted in any way, clauses of several kinds.
use crate::numbers;
use samples::build::Draft;
use samples::{build, random};

// What a file is like: how many variables and clauses, how many literals a clause has, twice as many in some, whether clauses
// of no literals are among them; and a filling that most literals are true in, so that not all long clauses are dropped.
#[derive(Clone, Copy, Debug, PartialEq, Eq)]
pub struct Shape {
    pub variables: u8,
    pub clauses: u8,
    pub literals: u8,
    pub has_empty: bool,
    pub filling: u64,
}

// Up to so many variables and clauses. In one file out of four, clauses may have no literals.
pub fn drawn_shape(seed: u64, most_variables: u8, most_clauses: u8, literals: u8) -> Shape {
    let a = random::next(seed);
    let b = random::next(a);
    Shape {
        variables: random::byte_below(a, most_variables.wrapping_add(1)),
        clauses: random::byte_below(b, most_clauses.wrapping_add(1)),
        literals,
        has_empty: random::byte(b >> 8) < 64,
        filling: random::next(b),
    }
}

fn drawn(mut d: Draft) -> Draft {
    d.seed = random::next(d.seed);
    d
}

// A blank: mostly a space.
fn blank(seed: u64) -> u8 {
    match random::byte_below(seed, 8) {
        0 => b'\t',
        1 => b'\r',
        _ => b' ',
    }
}

// A blank or a line end.
fn gap(seed: u64) -> u8 {
    if random::byte(seed >> 8) < 64 {
        b'\n'
    } else {
        blank(seed)
    }
}

// One blank, and in one place out of four up to three more; where lines may end, line ends as well.
fn parted(d: Draft, may_end: bool) -> Draft {
    let mut made = drawn(d);
    let seed = made.seed;
    let more = if random::byte(seed) < 64 {
        random::byte_below(seed >> 8, 4)
    } else {
        0
    };
    for _ in 0..=more {
        made = drawn(made);
        let b = if may_end {
            gap(made.seed)
        } else {
            blank(made.seed)
        };
        made = build::put(made, b);
    }
    made
}

// A comment: bytes that no line may have but this one.
fn comment(d: Draft) -> Draft {
    let made = drawn(d);
    match random::byte_below(made.seed, 4) {
        0 => build::bytes(made, b"c\n"),
        1 => build::bytes(made, b"c p cnf 1 1 \x00\xff\r\n"),
        2 => build::bytes(made, b"cc -0 99999999999999999999999\n"),
        _ => build::bytes(made, b"c a comment\n"),
    }
}

// How many comments a file has: in every other file none, else one or two.
fn comment_count(seed: u64) -> u8 {
    match random::byte_below(seed, 4) {
        0 => 1,
        1 => 2,
        _ => 0,
    }
}

fn comments(d: Draft) -> Draft {
    let mut made = drawn(d);
    for _ in 0..comment_count(made.seed) {
        made = comment(made);
    }
    made
}

// `p`, `cnf`, V and R.
fn head(d: Draft, like: Shape) -> Draft {
    let d = parted(build::put(comments(d), b'p'), false);
    let d = parted(build::bytes(d, b"cnf"), false);
    let d = parted(numbers::number(d, like.variables), false);
    numbers::number(d, like.clauses)
}

// A literal over any variable, in one place out of eight not true in the filling.
fn any_literal(seed: u64, like: Shape) -> u8 {
    let v = random::byte_below(seed, like.variables).wrapping_add(1);
    let yes = (like.filling >> (v % 64)) % 2 == 1;
    let so = random::byte(seed >> 8) >= 32;
    if yes == so { v } else { build::negated(v) }
}

// A literal: in one place out of ten the one before it, where there is one, in one out of thirty its opposite.
fn literal(seed: u64, like: Shape, last: Option<u8>) -> u8 {
    match (last, random::byte(seed >> 24)) {
        (Some(last), 0..=24) => last,
        (Some(last), 25..=32) => build::negated(last),
        _ => any_literal(seed, like),
    }
}

// How many literals a clause has: one in four has up to twice the most, so that some have too many and some repeats.
fn count_of(like: Shape, seed: u64) -> u8 {
    if like.variables == 0 {
        return 0;
    }
    let most = if random::byte(seed >> 8) < 64 {
        like.literals.wrapping_mul(2)
    } else {
        like.literals
    };
    let count = random::byte_below(seed, most.wrapping_add(1));
    if like.has_empty { count } else { count.max(1) }
}

// A clause: its literals, each with what parts it from the number before, and its 0.
fn clause(d: Draft, like: Shape) -> Draft {
    let mut made = drawn(d);
    let mut last = None;
    for _ in 0..count_of(like, made.seed) {
        made = parted(drawn(made), true);
        let next = literal(made.seed, like, last);
        made = numbers::literal(made, next);
        last = Some(next);
    }
    build::put(parted(made, true), b'0')
}

// A file of this shape, made up from a seed.
pub fn file(seed: u64, like: Shape) -> Draft {
    let mut d = build::empty();
    d.seed = seed;
    let mut made = head(d, like);
    for _ in 0..like.clauses {
        made = clause(made, like);
    }
    let ended = drawn(made);
    if random::byte(ended.seed) < 192 {
        parted(ended, true)
    } else {
        ended
    }
}
