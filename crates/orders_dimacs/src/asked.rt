// The engine asked for the book of a text.
use samples::reckon::Refused;
use samples::{build, limits};

// The answer: the book's length, or the refusal; and the room in which the buffer lay, with the byte that it began with.
#[derive(Clone, Copy)]
pub struct Answered {
    pub room: [u8; Answered::ROOM],
    pub start: u8,
    pub said: Result<usize, Refused>,
}

// What the room holds before the call: each byte is one more than the one before it, so that no place holds the same for two
// different starts.
fn prepared(start: u8) -> [u8; Answered::ROOM] {
    let mut room = [0; Answered::ROOM];
    let mut next = start;
    for byte in &mut room {
        *byte = next;
        next = next.wrapping_add(1);
    }
    room
}

// The answer with a buffer of so many bytes, in a room that begins with this byte.
fn answer_in(s: &[u8], len: usize, start: u8) -> Answered {
    let mut room = prepared(start);
    let end = build::fitting(&room, len);
    let said = engine::read_dimacs(s, &mut room[..end]).map_err(readings::refused);
    Answered { room, start, said }
}

impl Answered {
    // Some more bytes than the longest book without facts has.
    pub const ROOM: usize = limits::WITHOUT_FACTS + 45;

    // The bytes that were written.
    pub fn book(&self) -> &[u8] {
        build::part(&self.room, self.said.unwrap_or(0))
    }

    // Whether a book was written, it is this one, and the room is as it was beyond it.
    fn has_written(&self, book: &[u8]) -> bool {
        let len = book.len().min(Answered::ROOM);
        self.said == Ok(book.len())
            && self.room.starts_with(book)
            && self.room[len..] == prepared(self.start)[len..]
    }

    // Whether the text was refused in this way, and the room is as it was.
    fn has_refused(&self, due: Refused) -> bool {
        self.said == Err(due) && self.room == prepared(self.start)
    }
}

pub fn answer(s: &[u8], len: usize) -> Answered {
    answer_in(s, len, 165)
}

// Whether this book is written of a text, whatever the room held before.
pub fn writes(s: &[u8], len: usize, book: &[u8]) -> bool {
    answer_in(s, len, 165).has_written(book) && answer_in(s, len, 90).has_written(book)
}

// Whether a text is refused in this way, whatever the room held before.
pub fn refuses(s: &[u8], len: usize, due: Refused) -> bool {
    answer_in(s, len, 165).has_refused(due) && answer_in(s, len, 90).has_refused(due)
}
