// The engine's calendar held against days that are counted one by one, and with it the tests' own shorter ways of counting.
use dates::Date;
use readings::counts::Counts;
use samples::calendar::Day;
use samples::windows::Moment;
use samples::{calendar, limits};

// A date as the engine has it.
fn date_of(date: u32) -> Date {
    readings::moment_of(Moment { date, minute: 0 }).date
}

// Whether the engine has a day's number and its weekday.
fn is_day(d: Day) -> bool {
    let date = date_of(calendar::date_of(d));
    dates::is_date(date)
        && dates::day_number(date) == d.number
        && dates::weekday(date) == u32::from(d.weekday)
}

// Whether a day is met by its date, and comes after the one before it and before the one after it.
fn is_met(d: Day) -> bool {
    let date = calendar::date_of(d);
    let after = calendar::date_of(calendar::next(d));
    let found = calendar::met(date);
    found.number == d.number
        && found.weekday == d.weekday
        && calendar::previous(after) == date
        && calendar::days_on(date, 1) == after
}

// Every day: as the engine has it, and as the tests find it again.
pub fn numbers() -> Counts {
    let mut c = Counts::default();
    let mut d = calendar::first();
    for _ in 0..limits::DAYS {
        c.note(is_day(d));
        c.note(is_met(d));
        d = calendar::next(d);
    }
    c
}

// Whether the engine says of two days, the second of them later, that the first comes before it and not the other way round.
fn in_order(first: Day, second: Day) -> bool {
    let a = date_of(calendar::date_of(first));
    let b = date_of(calendar::date_of(second));
    dates::earlier(a, b) && !dates::earlier(b, a)
}

// The day that has so many days before it.
fn nth(days: u32) -> Day {
    (0..days).fold(calendar::first(), |d, _| calendar::next(d))
}

// Every two days that are so many days apart.
fn apart(c: &mut Counts, days: u32) {
    let mut first = calendar::first();
    let mut second = nth(days);
    for _ in days..limits::DAYS {
        c.note(in_order(first, second));
        first = calendar::next(first);
        second = calendar::next(second);
    }
}

// Whether no day comes before itself.
fn equal(c: &mut Counts) {
    let mut d = calendar::first();
    for _ in 0..limits::DAYS {
        let date = date_of(calendar::date_of(d));
        c.note(!dates::earlier(date, date));
        d = calendar::next(d);
    }
}

pub fn orders() -> Counts {
    let mut c = Counts::default();
    equal(&mut c);
    for days in [1, 2, 27, 30, 31, 59, 365, 366, 1461, 20000] {
        apart(&mut c, days);
    }
    c
}

// Dates gone through in their order: a date can be where it is the one that is due, the next day, and no other can. At the end
// every day has been met.
pub fn dates_that_can_be() -> Counts {
    let mut c = Counts::default();
    let mut due = calendar::first();
    for date in (0..calendar::TRIED).map(calendar::tried) {
        let met = date == calendar::date_of(due) && due.number < limits::DAYS;
        c.note(dates::is_date(date_of(date)) == met && calendar::can_be(date) == met);
        if met {
            due = calendar::next(due);
        }
    }
    c.note(due.number == limits::DAYS);
    c
}
