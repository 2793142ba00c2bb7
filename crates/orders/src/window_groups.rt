// Groups of many windows, each held against the reckoning.
use crate::compare::Tally;
use crate::window_boundaries;
use samples::windows::Window;
use samples::{calendar, windows};

// One more window.
fn count(t: &mut Tally, w: Window) {
    t.count(&window_boundaries::with_window(w));
}

// Dates of which many cannot be, each as the first day of a window and as its end day.
pub fn dates(t: &mut Tally) {
    let widest = windows::widest();
    for n in 0..calendar::TRIED {
        let date = calendar::tried(n);
        count(t, window_boundaries::of_days(date, widest.end));
        count(t, window_boundaries::of_days(widest.first, date));
    }
}

// Years, months and days of dates of which some differ in the day alone, some in the month and some in the year.
const DATES: [(u16, u8, u8); 16] = [
    (2000, 1, 1),
    (2000, 1, 2),
    (2000, 1, 31),
    (2000, 2, 1),
    (2000, 2, 29),
    (2000, 3, 1),
    (2000, 12, 31),
    (2001, 1, 1),
    (2001, 2, 28),
    (2001, 12, 1),
    (2047, 6, 15),
    (2048, 5, 14),
    (2096, 2, 29),
    (2099, 1, 31),
    (2099, 12, 30),
    (2099, 12, 31),
];

// Minutes of the day, and numbers that are none.
const MINUTES: [u16; 16] = [
    0, 1, 2, 255, 256, 257, 511, 512, 719, 720, 1438, 1439, 1440, 1441, 1695, 65535,
];

// Every pair of the dates, and every pair of the minutes.
pub fn pairs(t: &mut Tally) {
    for (year, month, day) in DATES {
        let first = calendar::date(year, month, day);
        for (year, month, day) in DATES {
            let end = calendar::date(year, month, day);
            count(t, window_boundaries::of_days(first, end));
        }
    }
    for first in MINUTES {
        for end in MINUTES {
            count(t, window_boundaries::of_minutes(first, end));
        }
    }
}
