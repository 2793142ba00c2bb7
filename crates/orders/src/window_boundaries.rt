// Windows at the limits of their record, each with the number and the place that documents 01 and 02 give it.
use crate::compare::Tally;
use samples::build::Draft;
use samples::windows::Window;
use samples::{build, calendar, edits, windows};

// Where the window's record of these books begins and ends.
const PLACE: usize = 9;

const END: usize = 24;

// A book of one variable and one rule, up to its end.
fn up_to_the_rule() -> Draft {
    build::rule_of(build::header(build::empty(), 1, 0, 1), 1)
}

// The same with a window, whole.
pub fn with_window(w: Window) -> Draft {
    build::end(build::window(up_to_the_rule(), w))
}

// A window that is read, or else refused with 14.
fn one(t: &mut Tally, w: Window, read: bool) {
    if read {
        t.read(with_window(w));
    } else {
        t.refused(with_window(w), 14, PLACE);
    }
}

// The widest window with other days, other minutes or other weekdays.
pub fn of_days(first: u32, end: u32) -> Window {
    Window {
        first,
        end,
        ..windows::widest()
    }
}

pub fn of_minutes(first: u16, end: u16) -> Window {
    Window {
        first_minute: first,
        end_minute: end,
        ..windows::widest()
    }
}

fn of_weekdays(weekdays: u8) -> Window {
    Window {
        weekdays,
        ..windows::widest()
    }
}

// A date that can be or cannot: as the first day, and as the end day.
fn date(t: &mut Tally, year: u16, month: u8, day: u8, read: bool) {
    let widest = windows::widest();
    let d = calendar::date(year, month, day);
    one(t, of_days(d, widest.end), read);
    one(t, of_days(widest.first, d), read);
}

// The last day of each month and the day after it.
fn month(t: &mut Tally, year: u16, month: u8, last: u8) {
    date(t, year, month, last, true);
    date(t, year, month, last.wrapping_add(1), false);
}

fn months(t: &mut Tally) {
    month(t, 2001, 1, 31);
    month(t, 2001, 2, 28);
    month(t, 2001, 3, 31);
    month(t, 2001, 4, 30);
    month(t, 2001, 5, 31);
    month(t, 2001, 6, 30);
    month(t, 2001, 7, 31);
    month(t, 2001, 8, 31);
    month(t, 2001, 9, 30);
    month(t, 2001, 10, 31);
    month(t, 2001, 11, 30);
    month(t, 2001, 12, 31);
}

// February in leap years and in others.
fn februaries(t: &mut Tally) {
    month(t, 2000, 2, 29);
    month(t, 2004, 2, 29);
    month(t, 2096, 2, 29);
    month(t, 2002, 2, 28);
    month(t, 2003, 2, 28);
    month(t, 2050, 2, 28);
    month(t, 2098, 2, 28);
    month(t, 2099, 2, 28);
}

// Years, months and days that cannot be.
fn no_dates(t: &mut Tally) {
    date(t, 1999, 12, 31, false);
    date(t, 2100, 1, 1, false);
    date(t, 0, 6, 15, false);
    date(t, 65535, 6, 15, false);
    date(t, 1744, 6, 15, false);
    date(t, 2256, 6, 15, false);
    date(t, 2010, 0, 15, false);
    date(t, 2010, 13, 15, false);
    date(t, 2010, 255, 15, false);
    date(t, 2010, 12, 0, false);
    date(t, 2010, 1, 255, false);
    date(t, 2010, 0, 0, false);
    date(t, 2000, 3, 1, true);
    date(t, 2099, 12, 30, true);
}

// Two dates that can be, the second of them later or not.
fn days(t: &mut Tally, first: u32, end: u32, read: bool) {
    one(t, of_days(first, end), read);
}

// End days that come after the first day by little, and by less.
fn orders_of_days(t: &mut Tally) {
    let last = calendar::date(2009, 12, 31);
    let next = calendar::date(2010, 1, 1);
    days(t, last, next, true);
    days(t, next, last, false);
    days(t, last, last, false);
    days(t, next, next, false);
    let leap = calendar::date(2012, 2, 29);
    let march = calendar::date(2012, 3, 1);
    days(t, leap, march, true);
    days(t, march, leap, false);
    let early = calendar::date(2012, 2, 28);
    days(t, early, leap, true);
    days(t, leap, early, false);
    let far = calendar::date(2020, 1, 1);
    days(t, leap, far, true);
    days(t, far, leap, false);
}

// Minutes, the second of them later or not.
fn minutes(t: &mut Tally, first: u16, end: u16, read: bool) {
    one(t, of_minutes(first, end), read);
}

fn all_minutes(t: &mut Tally) {
    minutes(t, 0, 1, true);
    minutes(t, 0, 1440, true);
    minutes(t, 0, 0, false);
    minutes(t, 0, 1441, false);
    minutes(t, 1439, 1440, true);
    minutes(t, 1439, 1439, false);
    minutes(t, 1440, 1440, false);
    minutes(t, 1440, 1441, false);
    minutes(t, 1441, 1440, false);
    minutes(t, 65535, 1440, false);
    minutes(t, 720, 721, true);
    minutes(t, 721, 720, false);
    minutes(t, 255, 256, true);
    minutes(t, 256, 255, false);
    minutes(t, 256, 512, true);
    minutes(t, 512, 256, false);
    minutes(t, 0, 65535, false);
    minutes(t, 65535, 65535, false);
}

fn weekdays(t: &mut Tally) {
    one(t, of_weekdays(0), false);
    one(t, of_weekdays(1), true);
    one(t, of_weekdays(64), true);
    one(t, of_weekdays(127), true);
    one(t, of_weekdays(128), false);
    one(t, of_weekdays(255), false);
}

// A record that is cut off, a good one and one that would be refused: 1 where it begins, at every length.
fn cut_off(t: &mut Tally) {
    let good = with_window(windows::widest());
    let bad = with_window(Window::default());

    for len in PLACE..END {
        t.refused(edits::cut(good, len), 1, PLACE);
        t.refused(edits::cut(bad, len), 1, PLACE);
    }
    t.refused(edits::cut(bad, END), 14, PLACE);
    t.refused(edits::cut(good, END), 1, END);
}

// A window where none may stand: a second one, before any rule, after a fact, where there are no rules, and after EN.
fn misplaced(t: &mut Tally) {
    let w = windows::widest();
    let second = build::end(build::window(build::window(up_to_the_rule(), w), w));
    t.refused(second, 2, END);
    let start = build::header(build::empty(), 1, 1, 1);
    t.refused(build::window(start, w), 2, 5);
    let costs = build::costs(start, 1);
    t.refused(
        build::end(build::rule_of(build::window(costs, w), 1)),
        2,
        12,
    );
    let fact = build::fact(build::rule_of(costs, 1), 1);
    t.refused(build::end(build::window(fact, w)), 2, 19);
    let first = build::fact(build::window(build::rule_of(costs, 1), w), 1);
    t.refused(build::end(build::window(first, w)), 2, 34);
    let none = build::header(build::empty(), 1, 0, 0);
    t.refused(build::end(build::window(none, w)), 2, 5);
    t.refused(build::window(build::empty(), w), 2, 0);
    t.refused(build::window(with_window(w), w), 7, 26);
}

// Windows after some of two rules, of which the first has no literals.
fn placed(t: &mut Tally) {
    let w = windows::nth(3);
    let first = build::rule(build::header(build::empty(), 1, 0, 2), 0);
    let both = build::rule_of(first, 1);
    t.read(build::end(build::window(both, w)));
    let windowed = build::rule_of(build::window(first, w), 1);
    t.read(build::end(windowed));
    t.read(build::end(build::window(windowed, windows::nth(4))));
    let again = build::rule_of(windowed, 1);
    t.refused(build::end(again), 2, 27);
    let early = build::end(build::window(first, w));
    t.refused(early, 2, 23);
}

// What stands before a window that would be refused decides first, and the window before what follows it.
fn first_fault(t: &mut Tally) {
    let none = Window::default();
    let start = build::header(build::empty(), 1, 0, 2);
    let rule = build::window(build::rule_of(start, 2), none);
    t.refused(build::end(rule), 6, 5);
    let window = build::window(build::rule_of(start, 1), none);
    t.refused(build::end(build::rule_of(window, 2)), 14, 9);
    t.refused(build::put(build::end(window), 0), 14, 9);
    let mark = edits::changed(with_window(none), 10, b'M');
    t.refused(mark, 2, 9);
    t.refused(edits::cut(mark, 11), 2, 9);
}

// Every one of them.
pub fn all(t: &mut Tally) {
    months(t);
    februaries(t);
    no_dates(t);
    orders_of_days(t);
    all_minutes(t);
    weekdays(t);
    cut_off(t);
    misplaced(t);
    placed(t);
    first_fault(t);
}
