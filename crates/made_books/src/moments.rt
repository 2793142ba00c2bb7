// The moments at the edges of a window, some of which cannot be.
use samples::windows::{Moment, Window};
use samples::{calendar, windows};

// How many there are: four days with four minutes each, and the days of a week.
pub const EDGES: u8 = 23;

const CORNERS: u8 = 16;

// The day before the first day, the first, the last, and the end day.
fn days(w: Window) -> [u32; 4] {
    let before = calendar::previous(w.first);
    let last = calendar::previous(w.end);
    [before, w.first, last, w.end]
}

// The minute before the first minute, the first, the last, and the end minute. Before minute 0 there is none, and none has
// the number 65,535.
fn minutes(w: Window) -> [u16; 4] {
    let before = w.first_minute.wrapping_sub(1);
    let last = w.end_minute.wrapping_sub(1);
    [before, w.first_minute, last, w.end_minute]
}

// One of the moments: the edges of the days with those of the minutes, then the days of a week, each at the first minute.
// Where there is no window they are those of the widest one.
pub fn edge(window: Option<Window>, n: u8) -> Moment {
    let w = window.unwrap_or(windows::widest());
    if n < CORNERS {
        Moment {
            date: days(w)[usize::from(n / 4)],
            minute: minutes(w)[usize::from(n % 4)],
        }
    } else {
        Moment {
            date: calendar::days_on(w.first, n - CORNERS),
            minute: w.first_minute,
        }
    }
}
