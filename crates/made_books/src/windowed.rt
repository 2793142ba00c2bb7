// Books with windows, made of good ones without, and of the same the book of the rules that are in force at a moment.
use crate::seasons::Season;
use crate::{moments, seasons};
use samples::build::Draft;
use samples::windows::{Moment, Window};
use samples::{build, edits, random, windows};

// A book without windows, and the windows that its rules have in turn.
#[derive(Clone, Copy)]
pub struct Windowed {
    pub plain: Draft,
    pub windows: [Option<Window>; Windowed::WINDOWS],
}

impl Windowed {
    pub const WINDOWS: usize = 5;

    // The moments at the edges of all windows.
    pub const EDGES: u8 = Windowed::WINDOWS as u8 * moments::EDGES;
}

// How the rules are typed: each with its window, or without windows and only those that are in force at a moment.
#[derive(Clone, Copy)]
enum Typing {
    Whole,
    At(Moment),
}

// A good book with windows that are drawn from its state.
pub fn of_book(plain: Draft, like: Season) -> Windowed {
    let mut seed = plain.seed;
    let mut windows = [None; Windowed::WINDOWS];
    for window in &mut windows {
        seed = random::next(seed ^ 11400714819323198485);
        *window = seasons::drawn(like, seed);
    }
    Windowed { plain, windows }
}

// The window of the rule that has so many before it.
pub fn window_of(b: Windowed, rule: u8) -> Option<Window> {
    b.windows[usize::from(rule) % Windowed::WINDOWS]
}

// One of the moments at the edges of the windows.
pub fn edge(b: Windowed, n: u8) -> Moment {
    moments::edge(window_of(b, n / moments::EDGES), n % moments::EDGES)
}

// The byte at a place, or 0.
fn byte_at(d: Draft, place: usize) -> u8 {
    build::byte_at(d.as_slice(), place)
}

// The bytes of another draft from one place to another, put behind those of this one.
fn copied(d: Draft, from: Draft, start: usize, end: usize) -> Draft {
    build::bytes(d, from.as_slice().get(start..end).unwrap_or_default())
}

// Where the rule at a place ends, its count being the third byte.
fn rule_ends(d: Draft, place: usize) -> usize {
    let count = byte_at(d, place.wrapping_add(2));
    place.wrapping_add(3).wrapping_add(usize::from(count))
}

// The place of R in HD.
const R: usize = 4;

// The rule at a place, typed or left out; where rules may be left out those that stay are counted in HD.
fn rule(made: Draft, b: Windowed, n: u8, place: usize, how: Typing) -> Draft {
    let plain = b.plain;
    let w = window_of(b, n);
    let with_rule = copied(made, plain, place, rule_ends(plain, place));
    match how {
        Typing::Whole => build::any_window(with_rule, w),
        Typing::At(m) if w.is_none_or(|w| windows::in_force(w, m)) => {
            edits::changed(with_rule, R, byte_at(made, R).wrapping_add(1))
        }
        Typing::At(_) => made,
    }
}

// A book typed from what stands before its rules.
fn typed_from(before: Draft, b: Windowed, how: Typing) -> Draft {
    let plain = b.plain;
    let mut place = build::rules_begin(plain.as_slice());
    let mut made = before;
    for n in 0..byte_at(plain, R) {
        made = rule(made, b, n, place, how);
        place = rule_ends(plain, place);
    }
    copied(made, plain, place, plain.len)
}

// What stands before the rules.
fn beginning(b: Windowed) -> Draft {
    let plain = b.plain;
    let mut made = copied(
        build::empty(),
        plain,
        0,
        build::rules_begin(plain.as_slice()),
    );
    made.seed = plain.seed;
    made
}

// The book with its windows.
pub fn typed(b: Windowed) -> Draft {
    typed_from(beginning(b), b, Typing::Whole)
}

// The book of the rules in force at a moment that can be, without windows.
pub fn in_force_at(b: Windowed, m: Moment) -> Draft {
    typed_from(edits::changed(beginning(b), R, 0), b, Typing::At(m))
}
