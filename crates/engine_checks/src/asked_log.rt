// The engine's log, asked for and held against what is due, or against the log of another book.
use crate::question::{Question, Written};
use brute_force::logs::Log;
use samples::reckon::Refused;
use samples::{build, limits};

// The bytes of the room in which a buffer lies: some more than the longest log has.
pub const ROOM: usize = limits::LOG + 45;

// What the engine answered to a call for the log, and the room as the call left it.
#[derive(Clone, Copy)]
pub struct Answered {
    pub room: [u8; ROOM],
    pub said: Result<Written, Refused>,
}

impl Answered {
    // What the room holds before the call, and what it holds where two calls are to find different bytes.
    pub const BEFORE: u8 = 165;

    const OTHER_BEFORE: u8 = 90;

    // The bytes that were written.
    pub fn log(&self) -> &[u8] {
        let size = self.said.map_or(0, |written| written.size);
        build::part(&self.room, size)
    }

    // Whether the room holds these bytes, and beyond them what it held before.
    fn holds(&self, bytes: &[u8], before: &[u8; ROOM]) -> bool {
        let len = bytes.len().min(ROOM);
        self.room.starts_with(bytes) && self.room[len..] == before[len..]
    }

    // Whether the call wrote this log and left the rest of the room as it was before.
    pub fn is_log(&self, before: &[u8; ROOM], due: &Log) -> bool {
        let bytes = due.written.as_slice();
        let written = Written {
            size: bytes.len(),
            steps: due.steps,
            total: due.total,
        };
        self.said == Ok(written) && self.holds(bytes, before)
    }

    // Whether the call was refused in this way and left all of the room as it was before.
    pub fn is_refusal(&self, before: &[u8; ROOM], due: Refused) -> bool {
        self.said == Err(due) && self.room == *before
    }
}

// The log asked for with a buffer of `len` bytes, or of all the room, which holds this byte everywhere.
pub fn written(q: Question<'_>, len: usize, before: u8) -> Answered {
    let mut room = [before; ROOM];
    let end = build::fitting(&room, len);
    let said = q.log(&mut room[..end]);
    Answered { room, said }
}

// Whether the engine writes this log into a buffer of `len` bytes and leaves the rest of the room alone.
pub fn log_agrees(q: Question<'_>, len: usize, due: &Log) -> bool {
    written(q, len, Answered::BEFORE).is_log(&[Answered::BEFORE; ROOM], due)
}

// Whether the engine refuses to write a log, in this way, and leaves all of the room alone.
pub fn log_refused(q: Question<'_>, len: usize, due: Refused) -> bool {
    written(q, len, Answered::BEFORE).is_refusal(&[Answered::BEFORE; ROOM], due)
}

// The steps of a book's log.
pub fn steps(q: Question<'_>) -> u64 {
    let said = written(q, limits::LOG, Answered::BEFORE).said;
    said.map_or(0, |written| written.steps)
}

// Whether two books have the same log, or the same refusal, written into buffers of different lengths that held different bytes,
// which are still there beyond the log.
pub fn same_log(q: Question<'_>, other: Question<'_>) -> bool {
    let a = written(q, limits::LOG, Answered::BEFORE);
    let b = written(other, ROOM, Answered::OTHER_BEFORE);
    a.said == b.said
        && a.holds(a.log(), &[Answered::BEFORE; ROOM])
        && b.holds(a.log(), &[Answered::OTHER_BEFORE; ROOM])
}
