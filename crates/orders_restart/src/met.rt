// What was met: how many logs, how long they are, and where the breaks fell.
use crate::rooms;
use readings::counts;
use samples::limits;

// Where a break falls: before the first byte, inside a step's record, between two records, inside OK, after the last byte.
#[derive(Clone, Copy, Debug, PartialEq, Eq)]
enum Place {
    Before,
    InStep,
    Between,
    InOk,
    After,
}

impl Place {
    const COUNT: usize = 5;

    // Where a break before the byte with so many before it falls. OK has seven bytes.
    fn of(log: &[u8], n: usize) -> Place {
        if n == 0 {
            Place::Before
        } else if n == log.len() {
            Place::After
        } else if log.len() < n.wrapping_add(7) {
            Place::InOk
        } else if begins_record(log, n) {
            Place::Between
        } else {
            Place::InStep
        }
    }
}

// The logs, the bytes of the shortest and of the longest, and the breaks by their place.
#[derive(Clone, Copy)]
pub struct Met {
    logs: u64,
    shortest: usize,
    longest: usize,
    breaks: [u64; Place::COUNT],
}

// Where the record of a step ends that begins at a place: seven bytes, its reasons and what is new. The count of the reasons is its
// fourth byte, and that of what is new comes after them.
fn record_end(log: &[u8], place: usize) -> usize {
    let reasons = usize::from(rooms::byte_at(log, place.wrapping_add(3)));
    let new = usize::from(rooms::byte_at(log, place.wrapping_add(4 + reasons)));
    place.wrapping_add(7 + reasons + new)
}

// Whether a record begins at a byte that is no later than OK.
fn begins_record(log: &[u8], n: usize) -> bool {
    let mut at = 0;
    for _ in 0..limits::RECORDS {
        if at >= n {
            break;
        }
        at = record_end(log, at);
    }
    at == n
}

impl Met {
    pub fn new() -> Met {
        Met {
            logs: 0,
            shortest: limits::LOG,
            longest: 0,
            breaks: [0; Place::COUNT],
        }
    }

    // One log more, broken at every byte.
    pub fn see(&mut self, log: &[u8]) {
        counts::count(&mut self.logs, true);
        self.shortest = self.shortest.min(log.len());
        self.longest = self.longest.max(log.len());
        for n in 0..=log.len() {
            counts::count(&mut self.breaks[Place::of(log, n) as usize], true);
        }
    }

    // How many breaks fell there.
    fn at(&self, place: Place) -> u64 {
        self.breaks[place as usize]
    }

    pub fn show(&self, rt: &impl Print) {
        let _ = print!(rt;
            "logs: {}, bytes of the shortest: {}",
            self.logs, self.shortest
        );
        let _ = println!(rt; ", of the longest: {}", self.longest);
        let _ = print!(rt; "breaks before the first byte: {}", self.at(Place::Before));
        let _ = print!(rt; ", inside a step: {}", self.at(Place::InStep));
        let _ = print!(rt; ", between records: {}", self.at(Place::Between));
        let _ = print!(rt; ", inside OK: {}", self.at(Place::InOk));
        let _ = println!(rt; ", after the last byte: {}", self.at(Place::After));
    }
}
