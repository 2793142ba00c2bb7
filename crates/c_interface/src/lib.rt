// The engine for C: one exported function for each public call of `engine`, with what it answers behind pointers. Each returns 0 for done, or the refusal
// as one number, and after a refusal nothing behind a pointer has changed. None asks anything of its caller that Rattle can say; what a pointer and a
// length from C must be is said in host/why.h.
#![tactic(auto)]

ghost use Rattle.std.specs.Prelude.{◌≡◌, ◌≤◌, length};
ghost use Rattle.records.specs.Limits.{max_rules};
ghost use Rattle.records.specs.Refusals.{number_of};
ghost use Rattle.c_interface.specs.Seen.{code, as_moment, window_row, as_book, as_literals, as_step, as_log, seen_log};
ghost use Rattle.c_interface.specs.Promises.{RulesPassed, Passed};
ghost use Rattle.c_interface.specs.Calls.{BookSeen, CostsSeen, DimacsSeen, ModelSeen, ConsequenceSeen, StepSeen, LogSeen, ResumeSeen};

use book::Book;
use dates::{Applies, Date, Moment};
use literals::LiteralSet;
use log_form::Step;
use log_writer::Written;
use records::Rule;
use records::refusal::Refusal;

// The largest place that a refusal has room for: 2 ^ 56 - 1.
pub const MAX_PLACE: u64 = 72057594037927935;

// A refusal as one number: its number in the lowest byte, its place above it.
#[tactic(auto, unfolding(crate::specs::Seen::code))]
fn refusal(refused: Refusal) -> u64
    ensures { result ≡ code (number_of refused.kind) refused.place }
{
    refused.kind.number() as u64 + 256 * (refused.place as u64).min(MAX_PLACE)
}

// The moment of a call, as C hands it over.
fn moment_of(year: u16, month: u8, day: u8, minute: u16) -> Moment
    ensures { result ≡ as_moment year month day minute }
{
    Moment {
        date: Date { year, month, day },
        minute,
    }
}

#[tactic(auto, unfolding(crate::specs::Seen::window_row))]
// When a rule applies, as nine numbers: the fields of its WN in their order, or zeros where it has none.
fn window_row(applies: Applies) -> [u16; 9]
    ensures { result ≡ window_row applies }
{
    match applies {
        Applies::Always => [0u16; 9],
        Applies::During(w) => {
            let first = w.first_day;
            let end = w.end_day;
            [
                first.year,
                first.month as u16,
                first.day as u16,
                end.year,
                end.month as u16,
                end.day as u16,
                w.weekdays as u16,
                w.first_minute,
                w.end_minute,
            ]
        }
    }
}

// The rules behind three pointers: the masks of their literals that say yes, of those that say no, and their windows, a row each. After the last rule
// stand zeros.
fn pass_rules(
    rules: &[Rule],
    yes: &mut [u64; Book::MAX_RULES],
    no: &mut [u64; Book::MAX_RULES],
    windows: &mut [[u16; 9]; Book::MAX_RULES],
)
    requires { length rules.now ≤ max_rules }
    ensures { RulesPassed rules.now yes.new no.new windows.new }
{
    *yes = [0; Book::MAX_RULES];
    *no = [0; Book::MAX_RULES];
    *windows = [[0; 9]; Book::MAX_RULES];
    for (i, rule) in rules.iter().enumerate() {
        yes[i] = rule.literals.yes;
        no[i] = rule.literals.no;
        windows[i] = window_row(rule.applies);
    }
}

// The book reader: the counts, the rules with their windows, and the given facts.
// Ruled out: a count written before the book is known to be proper; the facts that are no given as those that are yes.
#[unsafe(no_mangle)]
pub extern "C" fn why_read_book(
    book: &[u8],
    variables: &mut u64,
    choices: &mut u64,
    rules: &mut u64,
    rules_yes: &mut [u64; Book::MAX_RULES],
    rules_no: &mut [u64; Book::MAX_RULES],
    windows: &mut [[u16; 9]; Book::MAX_RULES],
    facts_yes: &mut u64,
    facts_no: &mut u64,
) -> u64
    ensures { BookSeen book.now
        (as_book variables.old choices.old rules.old rules_yes.old rules_no.old
        windows.old facts_yes.old facts_no.old)
        (as_book variables.new choices.new rules.new rules_yes.new rules_no.new
        windows.new facts_yes.new facts_no.new) result }
{
    match engine::read_book(book) {
        Err(refused) => refusal(refused),
        Ok(b) => {
            *variables = b.variables as u64;
            *choices = b.choices as u64;
            *rules = b.rules.len() as u64;
            pass_rules(b.rules.as_slice(), rules_yes, rules_no, windows);
            *facts_yes = b.facts.yes;
            *facts_no = b.facts.no;
            0
        }
    }
}

// The costs of the book.
// Ruled out: a table written over by a refusal; a table left as it was where 0 is returned.
#[unsafe(no_mangle)]
pub extern "C" fn why_read_costs(book: &[u8], costs: &mut [[u16; 2]; Book::MAX_CHOICES]) -> u64
    ensures { CostsSeen book.now costs.old costs.new result }
{
    let reading = engine::read_book(book);
    match reading {
        Err(refused) => refusal(refused),
        Ok(b) => {
            let table = b.costs;
            *costs = table;
            0
        }
    }
}

// A book made of a DIMACS CNF text, at the front of the buffer: its length.
// Ruled out: the length of the buffer for that of the book; a length of 0 written beside a refusal.
#[unsafe(no_mangle)]
pub extern "C" fn why_read_dimacs(text: &[u8], buffer: &mut [u8], size: &mut u64) -> u64
    ensures { DimacsSeen text.now buffer.old buffer.new size.old size.new result }
{
    match engine::read_dimacs(text, buffer) {
        Err(refused) => refusal(refused),
        Ok(made) => {
            *size = made as u64;
            0
        }
    }
}

// The first model: the mask of its yes.
// Ruled out: 0 returned for a refusal; a refusal without its place.
#[unsafe(no_mangle)]
pub extern "C" fn why_model(
    book: &[u8],
    year: u16,
    month: u8,
    day: u8,
    minute: u16,
    model: &mut u64,
) -> u64
    ensures { ModelSeen book.now (as_moment year month day minute) model.old model.new result }
{
    let moment = moment_of(year, month, day, minute);
    match engine::model(book, moment) {
        Err(unmet) => refusal(unmet),
        Ok(m) => {
            *model = m;
            0
        }
    }
}

// What is filled in: demand 2.
// Ruled out: what is no given as what is yes; only the yes written.
#[unsafe(no_mangle)]
pub extern "C" fn why_consequence(
    book: &[u8],
    year: u16,
    month: u8,
    day: u8,
    minute: u16,
    yes: &mut u64,
    no: &mut u64,
) -> u64
    ensures { ConsequenceSeen book.now (as_moment year month day minute)
        (as_literals yes.old no.old) (as_literals yes.new no.new) result }
{
    let moment = moment_of(year, month, day, minute);
    match engine::consequence(book, moment) {
        Err(refused) => refusal(refused),
        Ok(forced) => {
            *yes = forced.yes;
            *no = forced.no;
            0
        }
    }
}

// What C sees where nothing is left: 0 for everything, for the goal too, which no literal is.
const NOTHING_LEFT: Step = Step {
    goal: 0,
    reasons: LiteralSet::EMPTY,
    new: LiteralSet::EMPTY,
    cost: 0,
};

// The cheapest next step from a known set; where nothing is left, 0 for everything.
// Ruled out: the new literals given as the reasons; a goal where nothing is left.
#[unsafe(no_mangle)]
pub extern "C" fn why_next_step(
    book: &[u8],
    year: u16,
    month: u8,
    day: u8,
    minute: u16,
    known_yes: u64,
    known_no: u64,
    goal: &mut i64,
    reasons_yes: &mut u64,
    reasons_no: &mut u64,
    new_yes: &mut u64,
    new_no: &mut u64,
    cost: &mut u64,
) -> u64
    ensures { StepSeen book.now (as_moment year month day minute) known_yes known_no
        (as_step goal.old reasons_yes.old reasons_no.old new_yes.old new_no.old
        cost.old)
        (as_step goal.new reasons_yes.new reasons_no.new new_yes.new new_no.new
        cost.new) result }
{
    let moment = moment_of(year, month, day, minute);
    match engine::next_step(book, moment, known_yes, known_no) {
        Err(refused) => refusal(refused),
        Ok(next) => {
            let step = next.unwrap_or(NOTHING_LEFT);
            *goal = step.goal as i64;
            *reasons_yes = step.reasons.yes;
            *reasons_no = step.reasons.no;
            *new_yes = step.new.yes;
            *new_no = step.new.no;
            *cost = step.cost as u64;
            0
        }
    }
}

// What an answer on a log comes to for C: its length, its number of steps and its total behind the pointers, or the refusal.
fn pass_log(
    answer: Result<Written, Refusal>,
    size: &mut u64,
    steps: &mut u64,
    total: &mut u64,
) -> u64
    ensures { Passed (seen_log answer) (as_log size.old steps.old total.old)
        (as_log size.new steps.new total.new) result }
{
    match answer {
        Err(refused) => refusal(refused),
        Ok(log) => {
            *size = log.size as u64;
            *steps = log.steps as u64;
            *total = log.total as u64;
            0
        }
    }
}

// The log into the buffer, its length, its number of steps and its total: demand 3.
// Ruled out: the total given as the number of steps; a number of steps written beside a refusal.
#[unsafe(no_mangle)]
pub extern "C" fn why_log(
    book: &[u8],
    year: u16,
    month: u8,
    day: u8,
    minute: u16,
    buffer: &mut [u8],
    size: &mut u64,
    steps: &mut u64,
    total: &mut u64,
) -> u64
    ensures { LogSeen book.now (as_moment year month day minute) buffer.old buffer.new
        (as_log size.old steps.old total.old) (as_log size.new steps.new total.new) result }
{
    let moment = moment_of(year, month, day, minute);
    pass_log(engine::log(book, moment, buffer), size, steps, total)
}

// The log carried on after a restart, in a buffer whose first `written` bytes stand as a call before wrote them.
// Ruled out: the log begun anew, whatever stands in the buffer; the number of bytes that were written given as the log's length.
#[unsafe(no_mangle)]
pub extern "C" fn why_resume_log(
    book: &[u8],
    year: u16,
    month: u8,
    day: u8,
    minute: u16,
    buffer: &mut [u8],
    written: usize,
    size: &mut u64,
    steps: &mut u64,
    total: &mut u64,
) -> u64
    ensures { ResumeSeen book.now (as_moment year month day minute) written buffer.old buffer.new
        (as_log size.old steps.old total.old) (as_log size.new steps.new total.new) result }
{
    let moment = moment_of(year, month, day, minute);
    pass_log(
        engine::resume_log(book, moment, buffer, written),
        size,
        steps,
        total,
    )
}
