// Document 003's Algorithm 2 reckoned over fillings that are all at hand: it looks through them where the engine searches.
use crate::fillings;
use crate::fillings::Literals;
use samples::limits;

// How many models were found, the literals over choices that are true in each of them, and whether none is left that denies
// one of these. Before the first model, every literal over a choice is kept.
#[derive(Clone, Copy, Debug, PartialEq, Eq)]
pub struct Run {
    pub models: u32,
    pub kept: Literals,
    pub ended: bool,
}

// Whether a filling may be the next model: the first one may be any, and each one after it denies a kept literal.
fn may_follow(run: Run, filling: u64) -> bool {
    run.models == 0 || fillings::meets(filling, fillings::opposite(run.kept))
}

// The first of these fillings in which the given literals are true and which may be the next model.
fn next(run: Run, all: &[u64], given: Literals) -> Option<u64> {
    all.iter().copied().find(|filling| fillings::holds(*filling, given)
        && may_follow(run, *filling))
}

// A whole run: it finds no model, or at most one more than there are choices.
pub fn narrowed(all: &[u64], given: Literals, choices: u64) -> Run {
    let mut run = Run {
        models: 0,
        kept: Literals {
            yes: choices,
            no: choices,
        },
        ended: false,
    };
    for _ in 0..limits::MODELS {
        let Some(filling) = next(run, all, given) else {
            return Run { ended: true, ..run };
        };
        run = Run {
            models: run.models.wrapping_add(1),
            kept: fillings::narrowed(run.kept, filling),
            ended: false,
        };
    }
    run
}
