// Days counted from 1 January 2000, by the one table of the months' lengths.
ghost use Rattle.std.specs.Prelude.{◌≡◌, true, ◌≤◌, ◌<◌};
ghost use Rattle.dates.specs.Calendar as calendar;

use crate::Date;

// The days of the months, of February where the year is no leap year.
const MONTH_LENGTHS: [u8; 12] = [31, 28, 31, 30, 31, 30, 31, 31, 30, 31, 30, 31];

// Whether a year is a leap year of the Gregorian calendar.
#[tactic(auto, unfolding(crate::specs::Calendar::leap_year))]
fn is_leap(year: u16) -> bool
    ensures { result ≡ calendar.leap_year year }
{
    year % 4 == 0 && (year % 100 != 0 || year % 400 == 0)
}

// The days of the month that has so many months of its year before it.
#[tactic(auto, unfolding(crate::specs::Calendar::month_lengths, crate::specs::Calendar::month_length))]
pub fn month_length(year: u16, before: usize) -> u8
    requires { before < 12 }
    ensures { result ≡ calendar.month_length year before }
{
    let days = MONTH_LENGTHS[before];
    if before == 1 && is_leap(year) {
        days + 1
    } else {
        days
    }
}

// The days of so many months of a year, from January on.
#[tactic(auto, using(crate::specs::Laws::Months::months_none, crate::specs::Laws::Months::months_next, crate::specs::Laws::Months::months_fit))]
fn days_of_months(year: u16, months: usize) -> u32
    requires { months ≤ 12 }
    ensures { result ≡ calendar.days_of_months year months }
{
    let mut days: u32 = 0;
    for k in 0..months {
        days += month_length(year, k) as u32;
    }
    days
}

// The days of so many years, from 2000 on.
#[tactic(auto, using(crate::specs::Laws::Months::years_none, crate::specs::Laws::Months::years_next, crate::specs::Laws::Months::years_fit))]
fn days_of_years(years: u16) -> u32
    requires { years ≤ 99 }
    ensures { result ≡ calendar.days_of_years years }
{
    let mut days: u32 = 0;
    for k in 0..years {
        days += days_of_months(2000 + k, 12);
    }
    days
}

// The number of a day: the days from 1 January 2000 to it.
#[tactic(auto, using(crate::specs::Laws::Dates::number_bound), unfolding(crate::specs::Calendar::day_number, crate::specs::Calendar::is_date))]
pub fn day_number(d: Date) -> u32
    requires { calendar.is_date d ≡ true }
    ensures { result ≡ calendar.day_number d }
{
    let years = days_of_years(d.year - 2000);
    let months = days_of_months(d.year, d.month as usize - 1);
    years + months + (d.day as u32 - 1)
}

// The weekday of a day, 0 for Monday: 1 January 2000 was a Saturday.
#[tactic(auto, using(crate::specs::Laws::Dates::number_bound), unfolding(crate::specs::Calendar::weekday))]
pub fn weekday(d: Date) -> u32
    requires { calendar.is_date d ≡ true }
    ensures { result ≡ calendar.weekday d }
{
    (day_number(d) + 5) % 7
}
