// Rooms as a restart leaves them: the first bytes of a log as written, and junk behind them.
use engine_checks::asked_log::{Answered, ROOM};
use samples::random;

// What stands behind the break: one byte everywhere, the log's own bytes each plus 1, the same moved on by one place, bytes drawn at
// random, and the log itself with the byte at the break changed.
#[derive(Clone, Copy, Debug, PartialEq, Eq)]
pub enum Junk {
    OneByte,
    PlusOne,
    Moved,
    Drawn,
    Changed,
}

impl Junk {
    pub const ALL: [Junk; 5] = [
        Junk::OneByte,
        Junk::PlusOne,
        Junk::Moved,
        Junk::Drawn,
        Junk::Changed,
    ];

    // The kind that has a number, round and round.
    pub fn nth(n: usize) -> Junk {
        Junk::ALL[n % 5]
    }

    // The byte at a place from the break on.
    fn byte(self, log: &[u8], written: usize, place: usize, drawn: u8) -> u8 {
        let own = byte_at(log, place);
        match self {
            Junk::OneByte => Answered::BEFORE,
            Junk::PlusOne => own.wrapping_add(1),
            Junk::Moved => byte_at(log, place.wrapping_sub(1)),
            Junk::Drawn => drawn,
            Junk::Changed if place == written => own.wrapping_add(1),
            Junk::Changed => own,
        }
    }
}

// The byte at a place of a log, or 0.
pub fn byte_at(log: &[u8], place: usize) -> u8 {
    log.get(place).copied().unwrap_or_default()
}

// A room whose first bytes, so many, are those of a log.
pub fn broken(log: &[u8], written: usize, like: Junk, seed: u64) -> [u8; ROOM] {
    let mut room = [0; ROOM];
    let mut state = seed;
    for (place, byte) in room.iter_mut().enumerate() {
        state = random::next(state);
        *byte = if place < written {
            byte_at(log, place)
        } else {
            like.byte(log, written, place, random::byte(state))
        };
    }
    room
}

// A room with one bit of one byte flipped.
pub fn flipped(mut room: [u8; ROOM], place: usize, bit: u8) -> [u8; ROOM] {
    if let Some(byte) = room.get_mut(place) {
        *byte ^= 1 << (bit % 8);
    }
    room
}
