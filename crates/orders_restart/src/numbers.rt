// Numbers of bytes that are refused: those over a log's length, and any number where something else is refused before it.
use crate::asked::Left;
use crate::rooms;
use crate::rooms::Junk;
use engine_checks::asked_log::ROOM;
use engine_checks::compare::SHORT_BUFFER;
use engine_checks::logged;
use engine_checks::question::Question;
use readings::counts::Counts;
use samples::limits;
use samples::reckon::Refused;

// A number of bytes that is over the log's length, or a byte among them that is wrong.
pub const WRONG_LOG: Refused = Refused {
    number: 15,
    place: 0,
};

// From where on the numbers are over the log's length.
const FIRST_OVER: usize = 3;

// None of the bytes, the first, the whole log; then numbers over its length: one more, the longest log's, the buffer's, one more than
// the buffer has, those that are the log's length in their lowest byte or four bytes, and the largest.
fn numbers(size: usize, len: usize) -> [usize; 10] {
    [
        0,
        1,
        size,
        size.wrapping_add(1),
        limits::LOG,
        len,
        len.wrapping_add(1),
        size.wrapping_add(256),
        size.wrapping_add(4294967296),
        usize::MAX,
    ]
}

// A refusal, with each number from one of them on: the whole log stands in the room.
fn from_number(c: &mut Counts, q: Question<'_>, whole: &Left, first: usize, due: Refused) {
    for written in numbers(whole.written, whole.len).into_iter().skip(first) {
        let left = Left { written, ..*whole };
        c.note(left.refuses(q, due));
    }
}

// Numbers over the length of a log: 15 at 0, whatever stands behind it.
pub fn over(c: &mut Counts, q: Question<'_>, log: &[u8], seed: u64) {
    let written = log.len();
    for like in Junk::ALL {
        let room = rooms::broken(log, written, like, seed);
        for len in [limits::LOG, ROOM] {
            let whole = Left { room, len, written };
            from_number(c, q, &whole, FIRST_OVER, WRONG_LOG);
        }
    }
}

// A buffer that is too short: 8 at 0, whatever the number is.
pub fn short(c: &mut Counts, q: Question<'_>, log: &[u8], seed: u64) {
    let written = log.len();
    let room = rooms::broken(log, written, Junk::Drawn, seed);
    for len in [logged::SHORT, written, 0] {
        let whole = Left { room, len, written };
        from_number(c, q, &whole, 0, SHORT_BUFFER);
    }
}

// A refusal in a buffer of so many bytes, whatever the number is.
fn refused_in(c: &mut Counts, q: Question<'_>, log: &[u8], len: usize, due: Refused) {
    let written = log.len();
    let room = rooms::broken(log, written, Junk::OneByte, 1);
    from_number(c, q, &Left { room, len, written }, 0, due);
}

// A refusal in buffers that are long enough, whatever the number is.
pub fn refused(c: &mut Counts, q: Question<'_>, log: &[u8], due: Refused) {
    refused_in(c, q, log, limits::LOG, due);
    refused_in(c, q, log, ROOM, due);
}

// A refusal in a buffer that is too short, whatever the number is.
pub fn refused_in_short(c: &mut Counts, q: Question<'_>, log: &[u8], due: Refused) {
    refused_in(c, q, log, logged::SHORT, due);
}
