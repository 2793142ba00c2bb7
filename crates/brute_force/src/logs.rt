// The whole log reckoned, as bytes in a draft.
use crate::fillings::Literals;
use crate::steps::Taken;
use crate::{fillings, steps};
use samples::build::Draft;
use samples::reckon::Reckoned;
use samples::{build, limits};

// The log so far: what is known after it, the steps in it, what they cost, and whether OK has been put.
#[derive(Clone, Copy)]
pub struct Log {
    pub written: Draft,
    pub known: Literals,
    pub steps: u64,
    pub total: u64,
    pub ended: bool,
}

pub fn begun(known: Literals) -> Log {
    Log {
        written: build::empty(),
        known,
        steps: 0,
        total: 0,
        ended: false,
    }
}

// The literals of a set, rising by variable; of each variable there is at most one.
pub fn list(mut d: Draft, set: Literals) -> Draft {
    for v in 1..=limits::VARIABLES {
        let bit = fillings::bit(v);
        if set.yes & bit != 0 {
            d.push(v);
        } else if set.no & bit != 0 {
            d.push(build::negated(v));
        }
    }
    d
}

// A list with the number of its bytes before it.
pub fn counted_list(d: Draft, set: Literals) -> Draft {
    let variables = fillings::first(usize::from(limits::VARIABLES));
    let count = ((set.yes | set.no) & variables).count_ones();
    list(build::put(d, (count % 256) as u8), set)
}

// The record ST of a step.
fn step_record(d: Draft, step: Taken) -> Draft {
    let d = list(build::put2(d, b'S', b'T'), step.goal);
    let d = counted_list(counted_list(d, step.reasons), step.new);
    build::pair(d, (step.cost % 65536) as u16)
}

// The record OK.
fn ok_record(d: Draft, steps: u64, total: u64) -> Draft {
    let d = build::bytes(d, &[b'O', b'K', (steps % 256) as u8]);
    build::bytes(d, &((total % 4294967296) as u32).to_be_bytes())
}

// The log with one record more: the step's, or OK where there is none.
pub fn onward(log: Log, step: Option<Taken>) -> Log {
    match step {
        Some(step) => Log {
            written: step_record(log.written, step),
            known: fillings::joined(log.known, step.new),
            steps: log.steps.wrapping_add(1),
            total: log.total.wrapping_add(step.cost),
            ended: false,
        },
        None => Log {
            written: ok_record(log.written, log.steps, log.total),
            ended: true,
            ..log
        },
    }
}

// The log of a book that has a model: at most a step for each choice, since each makes one known, and OK.
pub fn whole(all: &[u64], b: &Reckoned) -> Log {
    let choices = fillings::first(b.choices);
    let consequence = fillings::forced(all, b.facts, choices);
    let mut log = begun(b.facts);
    for _ in 0..limits::RECORDS {
        if !log.ended {
            let step = steps::next(all, &b.costs, choices, log.known, consequence);
            log = onward(log, step);
        }
    }
    log
}
