// The days of 2000 to 2099, counted one after another. A date is one number, the four bytes that it has in a record: the
// year, then the month, then the day; so dates are in the order of these numbers, and the reckoning takes one in byte by byte.
use crate::limits;

// A day met in counting: its date, its weekday, 0 for Monday, and how many days of those years come before it.
#[derive(Clone, Copy, Debug, PartialEq, Eq)]
pub struct Day {
    pub year: u16,
    pub month: u8,
    pub day: u8,
    pub weekday: u8,
    pub number: u32,
}

pub fn date(year: u16, month: u8, day: u8) -> u32 {
    let [high, low] = year.to_be_bytes();
    u32::from_be_bytes([high, low, month, day])
}

pub fn year_of(date: u32) -> u16 {
    (date >> 16) as u16
}

pub fn month_of(date: u32) -> u8 {
    ((date >> 8) % 256) as u8
}

pub fn day_of(date: u32) -> u8 {
    (date % 256) as u8
}

pub fn date_of(d: Day) -> u32 {
    date(d.year, d.month, d.day)
}

// 1 January 2000, a Saturday.
pub fn first() -> Day {
    Day {
        year: limits::FIRST_YEAR,
        month: 1,
        day: 1,
        weekday: 5,
        number: 0,
    }
}

// Whether February has 29 days. The only full hundred among these years is 2000, which is a leap year as every fourth is.
fn is_leap(year: u16) -> bool {
    year.is_multiple_of(4)
}

// Thirty days have September, April, June and November, and all the rest have thirty-one but February.
fn length(year: u16, month: u8) -> u8 {
    match month {
        9 | 4 | 6 | 11 => 30,
        2 if is_leap(year) => 29,
        2 => 28,
        _ => 31,
    }
}

// The same day so many days of the week on.
fn weekday_on(weekday: u8, days: u8) -> u8 {
    weekday.wrapping_add(days) % 7
}

// The day after a day.
pub fn next(d: Day) -> Day {
    let mut after = d;
    after.weekday = weekday_on(d.weekday, 1);
    after.number = d.number.wrapping_add(1);
    if d.day < length(d.year, d.month) {
        after.day = d.day.wrapping_add(1);
    } else if d.month < 12 {
        after.day = 1;
        after.month = d.month.wrapping_add(1);
    } else {
        after.day = 1;
        after.month = 1;
        after.year = d.year.wrapping_add(1);
    }
    after
}

// The first day of the year after that of a first day: fifty-two weeks and a day later, or a day more.
fn year_on(d: Day) -> Day {
    let (over, days) = if is_leap(d.year) { (2, 366) } else { (1, 365) };
    Day {
        year: d.year.wrapping_add(1),
        weekday: weekday_on(d.weekday, over),
        number: d.number.wrapping_add(days),
        ..d
    }
}

// The first day of a year.
fn first_of(year: u16) -> Day {
    let mut d = first();
    for _ in limits::FIRST_YEAR..year {
        d = year_on(d);
    }
    d
}

// The day of a date that can be: counted from the first day of its year on.
pub fn met(date: u32) -> Day {
    let mut d = first_of(year_of(date));
    for _ in 0..366u16 {
        if date_of(d) == date {
            return d;
        }
        d = next(d);
    }
    d
}

// The date so many days after a date that can be.
pub fn days_on(date: u32, days: u8) -> u32 {
    let mut d = met(date);
    for _ in 0..days {
        d = next(d);
    }
    date_of(d)
}

// The date before a date that can be.
pub fn previous(date_after: u32) -> u32 {
    let year = year_of(date_after);
    let month = month_of(date_after);
    if day_of(date_after) > 1 {
        date_after.wrapping_sub(1)
    } else if month > 1 {
        let before = month - 1;
        date(year, before, length(year, before))
    } else {
        date(year.wrapping_sub(1), 12, 31)
    }
}

// Dates to try, in their order, of which many cannot be: days 0 to 32 of the months 0 to 13 of the years 1999 to 2100.
pub const TRIED: u32 = 47124;

// The one of them that has so many before it.
pub fn tried(n: u32) -> u32 {
    let year = limits::FIRST_YEAR - 1 + (n / 462 % 102) as u16;
    date(year, (n / 33 % 14) as u8, (n % 33) as u8)
}

// Whether a date can be.
pub fn can_be(date: u32) -> bool {
    let year = year_of(date);
    let month = month_of(date);
    let day = day_of(date);
    limits::FIRST_YEAR <= year
        && year <= limits::LAST_YEAR
        && 1 <= month
        && month <= 12
        && 1 <= day
        && day <= length(year, month)
}
