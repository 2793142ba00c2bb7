// The whole log of a problem.
#![tactic(auto)]

ghost use Rattle.std.specs.Prelude.{◌≤◌, length};
ghost use Rattle.records.specs.Limits.{max_log};
ghost use Rattle.problem.specs.Masked.{yes_in, no_in};
ghost use Rattle.step.specs.Promises.{question_in};
ghost use Rattle.log_writer.specs.Meaning.{run_of};
ghost use Rattle.log_writer.specs.Promises.{LogAsked, LogWritten};

use literals::LiteralSet;
use problem::MaskedProblem;

// What the log's writer answers: the log's length, its number of steps and its total.
#[derive(Clone, Copy, Debug, PartialEq, Eq)]
pub struct Written {
    pub size: usize,
    pub steps: u8,
    pub total: u32,
}

// The log of a problem into a buffer: take the step, write its record, add its new literals to what is known, repeat until
// nothing is left, and end with OK. The bytes beyond the log keep their contents.
pub fn write(problem: &MaskedProblem, consequence: LiteralSet, buffer: &mut [u8]) -> Written
    requires log_asked { LogAsked problem.now.variables (yes_in problem.now) (no_in problem.now) problem.now.choices
        problem.now.costs consequence problem.now.facts }
    requires max_log_in_bounds { max_log ≤ length buffer.old }
    ensures { LogWritten (run_of (question_in problem.now consequence problem.now.facts)) buffer.old buffer.new result }
{
    let mut at = 0;
    let mut known = problem.facts;
    let mut steps = 0u8;
    let mut total = 0u32;
    loop {
        let Some(step) = step::next_step(problem, consequence, known) else {
            let size = log_form::put_ok(buffer, at, steps, total);
            return Written { size, steps, total };
        };
        at = log_form::put_step(buffer, at, step);
        known = known.union(step.new);
        steps += 1;
        total += step.cost as u32;
    }
}
