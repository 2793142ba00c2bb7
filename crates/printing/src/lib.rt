// The printed log (document 01, "The printed log"): the text of a log and of a refusal, put into a lent buffer.
#![tactic(auto)]

ghost use Rattle.std.specs.Prelude.{◌≡◌, ◌≤◌, length};
ghost use Rattle.printing.specs.Text.{refusal_text};
ghost use Rattle.printing.specs.Printed.{moment_size, moment_at, PrintCall};
ghost use Rattle.printing.specs.Promises.{Front};

mod lines;
mod text;

use book::Book;
use dates::Moment;
use records::refusal::RefusalKind;
use records::{costs, windows};

// The bytes of a moment, with which an input begins: four of its date and two of its minute.
pub const MOMENT_SIZE: usize = 6;

// The bytes of a text, at most: six for each byte of a log.
pub const MAX_TEXT: usize = 6 * Book::MAX_LOG;

// The moment that an input begins with.
#[tactic(auto, unfolding(crate::specs::Printed::moment_at))]
fn moment_at(input: &[u8]) -> Moment
    requires { moment_size ≤ length input.now }
    ensures { result ≡ moment_at input.now }
{
    Moment {
        date: windows::date_at(input, 0),
        minute: costs::pair_at(input, 4),
    }
}

// Puts the text that is printed for an input, a moment and the book after it, at the front of a lent buffer: the log's lines, or
// only the refusal. It answers the text's length, or nothing where the buffer is too short for a text.
// Ruled out: a no literal without its sign; the total put for the number of steps.
pub fn print(input: &[u8], out: &mut [u8]) -> Option<usize>
    ensures { PrintCall input.now out.old out.new result }
{
    if out.len() < MAX_TEXT {
        return None;
    }
    if input.len() < MOMENT_SIZE {
        return Some(put_refusal(out, RefusalKind::Times.number(), 0));
    }
    let mut log = [0u8; Book::MAX_LOG];
    Some(
        match engine::log(&input[MOMENT_SIZE..], moment_at(input), &mut log) {
            Err(refused) => put_refusal(out, refused.kind.number(), refused.place),
            Ok(written) => lines::put_log(out, &log[..written.size]),
        },
    )
}

// The one line of a refusal: at most 8 + 3 + 4 + 20 + 1 bytes.
pub fn put_refusal(out: &mut [u8], number: u8, place: usize) -> usize
    requires { 36 ≤ length out.old }
    ensures { Front (refusal_text number place) out.old out.new result }
{
    text::put_pair(out, 0, b"refused ", number as u64, b" at ", place as u64)
}
