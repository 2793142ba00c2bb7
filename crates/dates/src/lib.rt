// Dates of 2000 to 2099, the moment of a call, and the window of a rule: which of them can be, and when a rule is in force.
#![tactic(auto)]

ghost use Rattle.std.specs.Prelude.{◌≡◌, not, ◌&&◌};
ghost use Rattle.dates.specs.Calendar as calendar;
ghost use Rattle.dates.specs.Windows as windows;

mod days;

pub use days::{day_number, weekday};

// A day of the calendar: the month and the day counted from 1.
#[derive(Clone, Copy, Debug, PartialEq, Eq, PartialOrd, Ord)]
pub struct Date {
    pub year: u16,
    pub month: u8,
    pub day: u8,
}

// When a call is made: the day, and the minute of the day.
#[derive(Clone, Copy, Debug, PartialEq, Eq)]
pub struct Moment {
    pub date: Date,
    pub minute: u16,
}

// When a rule applies that has a WN record: from the first day on and before the end day, on the weekdays whose bits are set
// (the lowest is Monday's), from the first minute of the day on and before the end minute.
#[derive(Clone, Copy, Debug, PartialEq, Eq)]
pub struct Window {
    pub first_day: Date,
    pub end_day: Date,
    pub weekdays: u8,
    pub first_minute: u16,
    pub end_minute: u16,
}

// When a rule applies: always where it has no WN record. Not an `Option`, whose `None` would read as never.
#[derive(Clone, Copy, Debug, Default, PartialEq, Eq)]
pub enum Applies {
    #[default]
    Always,
    During(Window),
}

// Whether a date can be: of 2000 to 2099, in a month of the year, on a day of the month.
#[tactic(auto, unfolding(crate::specs::Calendar::is_date))]
pub fn is_date(d: Date) -> bool
    ensures { result ≡ calendar.is_date d }
{
    (2000..=2099).contains(&d.year)
        && (1..=12).contains(&d.month)
        && 1 <= d.day
        && d.day <= days::month_length(d.year, d.month as usize - 1)
}

// Whether the one date comes before the other.
#[tactic(auto, unfolding(crate::specs::Calendar::earlier))]
pub fn earlier(d: Date, e: Date) -> bool
    ensures { result ≡ calendar.earlier d e }
{
    d < e
}

// Whether a minute of a day can be.
#[tactic(auto, unfolding(crate::specs::Windows::is_minute))]
fn is_minute(n: u16) -> bool
    ensures { result ≡ windows.is_minute n }
{
    n < 1440
}

// Whether a moment can be.
#[tactic(auto, unfolding(crate::specs::Windows::is_moment))]
pub fn is_moment(m: Moment) -> bool
    ensures { result ≡ windows.is_moment m }
{
    is_date(m.date) && is_minute(m.minute)
}

// Whether a window can be, checked from the left.
#[tactic(auto, unfolding(crate::specs::Windows::is_window))]
pub fn is_window(w: Window) -> bool
    ensures { result ≡ windows.is_window w }
{
    is_date(w.first_day)
        && is_date(w.end_day)
        && earlier(w.first_day, w.end_day)
        && (1..=127).contains(&w.weekdays)
        && is_minute(w.first_minute)
        && w.end_minute <= 1440
        && w.first_minute < w.end_minute
}

impl Window {
    // Whether a day is one of a window: from the first day on and before the end day.
    fn has_day(self, d: Date) -> bool
        ensures { result ≡ not (calendar.earlier d self.first_day) && calendar.earlier d self.end_day }
    {
        !earlier(d, self.first_day) && earlier(d, self.end_day)
    }

    // Whether a window is open at a moment, whose weekday is handed over so that it is worked out once for all rules.
    #[tactic(auto, using(crate::specs::Laws::Dates::weekday_bound), unfolding(crate::specs::Windows::is_open))]
    fn is_open(self, m: Moment, weekday: u32) -> bool
        requires { weekday ≡ calendar.weekday m.date }
        ensures { result ≡ windows.is_open self m }
    {
        self.has_day(m.date)
            && sets::has(self.weekdays as u64, weekday)
            && self.first_minute <= m.minute
            && m.minute < self.end_minute
    }
}

// Whether a rule is in force at a moment.
#[tactic(auto, unfolding(crate::specs::Windows::in_force))]
pub fn in_force(a: Applies, m: Moment, weekday: u32) -> bool
    requires { weekday ≡ calendar.weekday m.date }
    ensures { result ≡ windows.in_force m a }
{
    match a {
        Applies::Always => true,
        Applies::During(w) => w.is_open(m, weekday),
    }
}
