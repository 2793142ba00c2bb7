// WN: the window of the rule before it.
ghost use Rattle.std.specs.Prelude.{◌≡◌, ◌+◌, ◌<◌, ◌≤◌, length};
ghost use Rattle.records.specs.Format.{date_at, window_fields, window_values, window_at};
ghost use Rattle.records.specs.Promises.{record_answer, what};

use crate::refusal::RefusalKind;
use crate::{costs, mark};
use dates::{Date, Window};

// A date in four bytes: its year in two of them, its month, its day.
#[tactic(auto, unfolding(crate::specs::Format::date_at))]
pub fn date_at(s: &[u8], i: usize) -> Date
    requires { i + 3 < length s.now }
    ensures { result ≡ date_at s.now i }
{
    Date {
        year: costs::pair_at(s, i),
        month: s[i + 2],
        day: s[i + 3],
    }
}

// The fields of a WN record that are all there.
#[tactic(auto, unfolding(crate::specs::Format::window_fields))]
fn window_fields(s: &[u8]) -> Window
    requires { 15 ≤ length s.now }
    ensures { result ≡ window_fields s.now }
{
    Window {
        first_day: date_at(s, 2),
        end_day: date_at(s, 6),
        weekdays: s[10],
        first_minute: costs::pair_at(s, 11),
        end_minute: costs::pair_at(s, 13),
    }
}

// The WN record at the beginning of a part.
#[tactic(auto, using(crate::proofs::CheckLaws::opened_ok, crate::proofs::CheckLaws::opened_within), unfolding(crate::specs::Format::window_at))]
pub fn read_window(s: &[u8]) -> Result<Window, RefusalKind>
    ensures { result ≡ record_answer what (window_at s.now) }
{
    mark::opened(s, mark::WN, 15)?;
    window_values(s)
}

// The values of a WN record whose fields are all there.
#[tactic(auto, using(dates::proofs::Tests::found_false, dates::proofs::Tests::found_true), unfolding(crate::specs::Format::window_values, crate::specs::Promises::record_answer))]
fn window_values(s: &[u8]) -> Result<Window, RefusalKind>
    requires { 15 ≤ length s.now }
    ensures { result ≡ record_answer what (window_values s.now) }
{
    let window = window_fields(s);
    if !dates::is_window(window) {
        return Err(RefusalKind::Times);
    }
    Ok(window)
}
