// The engine asked to carry a log on, and what it does held against what is due.
use brute_force::logs::Log;
use engine_checks::asked_log::{Answered, ROOM};
use engine_checks::question::Question;
use samples::build;
use samples::reckon::Refused;

// What a restart leaves: the room in which the buffer lies, the buffer's bytes, and how many of them are said to be as written.
#[derive(Clone, Copy)]
pub struct Left {
    pub room: [u8; ROOM],
    pub len: usize,
    pub written: usize,
}

impl Left {
    // The log asked for in what a restart left.
    fn resumed(&self, q: Question<'_>) -> Answered {
        let mut room = self.room;
        let end = build::fitting(&room, self.len);
        let said = q.resume_log(&mut room[..end], self.written);
        Answered { room, said }
    }

    // Whether the engine gives this log and the answer of an unbroken call, and leaves the rest of the room as it was found.
    pub fn carries_on(&self, q: Question<'_>, due: &Log) -> bool {
        self.resumed(q).is_log(&self.room, due)
    }

    // Whether the engine refuses in this way, and leaves all of the room as it was found.
    pub fn refuses(&self, q: Question<'_>, due: Refused) -> bool {
        self.resumed(q).is_refusal(&self.room, due)
    }
}
