// The whole logs of the books that are walked.
use crate::asked_log;
use crate::compare::{NO_MODEL, SHORT_BUFFER};
use crate::question::Question;
use crate::tally::{Group, Tally};
use brute_force::logs::Log;
use samples::limits;
use samples::reckon::Refused;

// A byte less than the longest log has, a byte more, and the longest log of a book of at most twenty choices.
pub const SHORT: usize = limits::LOG - 1;

const LONGER: usize = limits::LOG + 1;

const TWENTY_CHOICES: usize = 547;

// No log into a buffer of so many bytes, but this refusal.
fn refuses(t: &mut Tally, group: Group, q: Question<'_>, len: usize, due: Refused) {
    t.note(group, asked_log::log_refused(q, len, due));
}

// The log of a book that has a model, into buffers of several lengths.
pub fn whole(t: &mut Tally, q: Question<'_>, log: &Log) {
    for len in [limits::LOG, LONGER, asked_log::ROOM] {
        t.note(Group::WholeLog, asked_log::log_agrees(q, len, log));
    }
    for len in [SHORT, TWENTY_CHOICES, 0] {
        refuses(t, Group::ShortBuffer, q, len, SHORT_BUFFER);
    }
}

// A book without a model: 9 at 0, and 8 at 0 where the buffer is short.
pub fn without_model(t: &mut Tally, q: Question<'_>) {
    refuses(t, Group::NoLog, q, limits::LOG, NO_MODEL);
    refuses(t, Group::ShortBuffer, q, SHORT, SHORT_BUFFER);
}

// A book or a moment that is refused, also where the buffer is short.
pub fn refused(t: &mut Tally, q: Question<'_>, due: Refused) {
    refuses(t, Group::NoLog, q, limits::LOG, due);
    refuses(t, Group::NoLog, q, SHORT, due);
}
