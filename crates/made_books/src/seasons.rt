// Windows drawn from a state of the generator: seasons, weekdays, hours of the day.
use samples::windows::Window;
use samples::{calendar, limits, random, windows};

// What a window leaves out: nothing, since there is none; days; weekdays; minutes of the day; all three; any of these.
#[derive(Clone, Copy, Debug, PartialEq, Eq)]
pub enum Season {
    Never,
    Days,
    Weekdays,
    Minutes,
    Each,
    Any,
}

// A window with these two days, in their order, or as it was where no record may have them.
fn with_days(w: Window, a: u32, b: u32) -> Window {
    let made = Window {
        first: a.min(b),
        end: a.max(b),
        ..w
    };
    if windows::can_be(made) { made } else { w }
}

// A season of up to nine days, or between any two dates.
fn in_season(w: Window, seed: u64) -> Window {
    let next = random::next(seed);
    let first = windows::drawn_date(seed);
    if random::byte(next) < 128 {
        let days = random::byte_below(next >> 8, 9).wrapping_add(1);
        with_days(w, first, calendar::days_on(first, days))
    } else {
        with_days(w, first, windows::drawn_date(next))
    }
}

fn on_weekdays(w: Window, seed: u64) -> Window {
    Window {
        weekdays: random::byte_below(seed, windows::WEEK).wrapping_add(1),
        ..w
    }
}

// Up to three minutes, or from any minute of the day to any later one.
fn at_minutes(w: Window, seed: u64) -> Window {
    let next = random::next(seed);
    let first = random::pair_below(seed, limits::MINUTES);
    let left = limits::MINUTES.wrapping_sub(first);
    let most = if random::byte(next) < 128 {
        left.min(3)
    } else {
        left
    };
    let more = random::pair_below(next >> 8, most).wrapping_add(1);
    Window {
        first_minute: first,
        end_minute: first.wrapping_add(more),
        ..w
    }
}

fn nth(n: u8) -> Season {
    match n {
        0 => Season::Never,
        1 => Season::Days,
        2 => Season::Weekdays,
        3 => Season::Minutes,
        _ => Season::Each,
    }
}

// A window that leaves out days, weekdays and minutes.
fn each(w: Window, seed: u64) -> Window {
    let on_days = on_weekdays(in_season(w, seed), seed >> 16);
    at_minutes(on_days, random::next(seed))
}

// A window of a kind, but not of any.
fn one(like: Season, seed: u64) -> Option<Window> {
    let w = windows::widest();
    let next = random::next(seed);
    match like {
        Season::Days => Some(in_season(w, next)),
        Season::Weekdays => Some(on_weekdays(w, next)),
        Season::Minutes => Some(at_minutes(w, next)),
        Season::Each => Some(each(w, next)),
        Season::Never | Season::Any => None,
    }
}

// A window drawn from a state; one out of four is none, whatever the others are like.
pub fn drawn(like: Season, seed: u64) -> Option<Window> {
    if random::byte(seed) < 64 {
        return None;
    }
    match like {
        Season::Any => one(nth(random::byte_below(seed >> 8, 5)), seed),
        _ => one(like, seed),
    }
}
