// Logs with a wrong byte before the break: 15 at 0.
use crate::asked::Left;
use crate::numbers::WRONG_LOG;
use crate::rooms;
use crate::rooms::Junk;
use engine_checks::asked_log::ROOM;
use engine_checks::question::Question;
use readings::counts::Counts;
use samples::{limits, random};

// One bit flipped at a place before the break; the bit, the junk and the buffer are drawn.
fn at_place(c: &mut Counts, q: Question<'_>, log: &[u8], written: usize, place: usize, seed: u64) {
    let like = Junk::nth(usize::from(random::byte(seed)));
    let room = rooms::broken(log, written, like, seed);
    let fewest = random::byte(seed >> 8) < 128;
    let left = Left {
        room: rooms::flipped(room, place, random::byte(seed >> 16)),
        len: if fewest { limits::LOG } else { ROOM },
        written,
    };
    c.note(left.refuses(q, WRONG_LOG));
}

// A break, and each place before it in turn.
fn each_place(c: &mut Counts, q: Question<'_>, log: &[u8], written: usize, seed: u64) {
    let mut state = seed;
    for place in 0..written {
        state = random::next(state);
        at_place(c, q, log, written, place, state);
    }
}

// Every break, and each place before it in turn.
pub fn everywhere(c: &mut Counts, q: Question<'_>, log: &[u8], seed: u64) {
    let mut state = seed;
    for written in 1..=log.len() {
        state = random::next(state);
        each_place(c, q, log, written, state);
    }
}

// Every break with two places before it, the last one and one that is drawn, and the whole log with each.
pub fn at_some_places(c: &mut Counts, q: Question<'_>, log: &[u8], seed: u64) {
    let mut state = seed;
    for written in 1..=log.len() {
        state = random::next(state);
        at_place(c, q, log, written, written - 1, state);
        let drawn = random::place_below(state, written);
        at_place(c, q, log, written, drawn, random::next(state));
    }
    each_place(c, q, log, log.len(), random::next(state));
}
