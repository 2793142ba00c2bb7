// A log broken at every byte, from none to the whole of it, and carried on.
use crate::asked::Left;
use crate::rooms;
use crate::rooms::Junk;
use brute_force::logs::Log;
use engine_checks::asked_log::ROOM;
use engine_checks::question::Question;
use readings::counts::Counts;
use samples::{limits, random};

// How each byte is tried: with every kind of junk in both buffers, or once, the kinds and the buffers in turn.
#[derive(Clone, Copy, Debug, PartialEq, Eq)]
pub enum Ways {
    All,
    InTurn,
}

// A break with each kind of junk, in a buffer of the fewest bytes and in one of the whole room.
fn in_all_ways(c: &mut Counts, q: Question<'_>, log: &Log, written: usize, seed: u64) {
    for like in Junk::ALL {
        let room = rooms::broken(log.written.as_slice(), written, like, seed);
        for len in [limits::LOG, ROOM] {
            let left = Left { room, len, written };
            c.note(left.carries_on(q, log));
        }
    }
}

// A break with the junk and the buffer whose turn it is.
fn in_turn(c: &mut Counts, q: Question<'_>, log: &Log, written: usize, seed: u64) {
    let like = Junk::nth(written);
    let left = Left {
        room: rooms::broken(log.written.as_slice(), written, like, seed),
        len: if written % 2 == 0 { limits::LOG } else { ROOM },
        written,
    };
    c.note(left.carries_on(q, log));
}

// Every break, in the ways that are asked for.
pub fn each(c: &mut Counts, q: Question<'_>, log: &Log, ways: Ways, seed: u64) {
    let mut state = seed;
    for written in 0..=log.written.len {
        state = random::next(state);
        match ways {
            Ways::All => in_all_ways(c, q, log, written, state),
            Ways::InTurn => in_turn(c, q, log, written, state),
        }
    }
}
