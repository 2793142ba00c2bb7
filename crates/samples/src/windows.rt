// When rules apply: the windows of WN records and the moments of calls, as plain numbers.
use crate::{calendar, limits, random};

// The window of a rule: from the first date on and before the end date, on the weekdays of a mask (the lowest bit is
// Monday's), from the first minute on and before the end minute.
#[derive(Clone, Copy, Debug, Default, PartialEq, Eq)]
pub struct Window {
    pub first: u32,
    pub end: u32,
    pub weekdays: u8,
    pub first_minute: u16,
    pub end_minute: u16,
}

#[derive(Clone, Copy, Debug, Default, PartialEq, Eq)]
pub struct Moment {
    pub date: u32,
    pub minute: u16,
}

// All weekdays.
pub const WEEK: u8 = 127;

// The widest window: every day but the last, every minute.
pub fn widest() -> Window {
    Window {
        first: calendar::date(limits::FIRST_YEAR, 1, 1),
        end: calendar::date(limits::LAST_YEAR, 12, 31),
        weekdays: WEEK,
        first_minute: 0,
        end_minute: limits::MINUTES,
    }
}

// A window for each number below 128, each another one.
pub fn nth(n: u8) -> Window {
    let more = u16::from(n % limits::RULES);
    let year = limits::FIRST_YEAR + more % 99;
    let month = n % 12 + 1;
    let day = n % 28 + 1;
    Window {
        first: calendar::date(year, month, day),
        end: calendar::date(limits::LAST_YEAR, month, day),
        weekdays: n % WEEK + 1,
        first_minute: more,
        end_minute: limits::MINUTES - more,
    }
}

// A window one byte of its record on; `left` counts the bytes to come with this one. Each number is as many bytes as it has
// room for, so that nothing is left of the one before.
pub fn with_byte(mut w: Window, left: u8, b: u8) -> Window {
    match left {
        10..=13 => w.first = (w.first << 8) | u32::from(b),
        6..=9 => w.end = (w.end << 8) | u32::from(b),
        5 => w.weekdays = b,
        3 | 4 => w.first_minute = (w.first_minute << 8) | u16::from(b),
        _ => w.end_minute = (w.end_minute << 8) | u16::from(b),
    }
    w
}

// Whether the days of a window can be.
fn has_days(w: Window) -> bool {
    calendar::can_be(w.first) && calendar::can_be(w.end) && w.first < w.end
}

// Whether the minutes of a window can be.
fn has_minutes(w: Window) -> bool {
    w.first_minute < w.end_minute && w.end_minute <= limits::MINUTES
}

// Whether a record may have this window.
pub fn can_be(w: Window) -> bool {
    w.weekdays != 0 && w.weekdays <= WEEK && has_days(w) && has_minutes(w)
}

// Whether a moment can be.
pub fn is_moment(m: Moment) -> bool {
    calendar::can_be(m.date) && m.minute < limits::MINUTES
}

// Whether a rule with this window is in force at a moment that can be: the days are counted.
pub fn in_force(w: Window, m: Moment) -> bool {
    let now = calendar::met(m.date);
    calendar::met(w.first).number <= now.number
        && now.number < calendar::met(w.end).number
        && (w.weekdays >> (now.weekday % 8)) % 2 == 1
        && w.first_minute <= m.minute
        && m.minute < w.end_minute
}

// A date drawn from a state, every other one near an end of its month. Where the month has no such day it is the 28th.
pub fn drawn_date(seed: u64) -> u32 {
    let year = limits::FIRST_YEAR.wrapping_add(random::pair_below(seed, 100));
    let month = random::byte_below(seed >> 8, 12).wrapping_add(1);
    let day = match random::byte_below(seed >> 16, 8) {
        0 => 1,
        1 => 28,
        2 => 29,
        3 => 31,
        _ => random::byte_below(seed >> 20, 30).wrapping_add(1),
    };
    let date = calendar::date(year, month, day);
    if calendar::can_be(date) {
        date
    } else {
        calendar::date(year, month, 28)
    }
}

// A moment drawn from a state.
pub fn drawn_moment(seed: u64) -> Moment {
    Moment {
        date: drawn_date(seed),
        minute: random::pair_below(random::next(seed), limits::MINUTES),
    }
}
