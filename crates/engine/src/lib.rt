// The public calls. Each is handed the book's bytes and reads them first, after it has looked at the moment; none asks anything of
// its caller.
#![tactic(auto)]

ghost use Rattle.std.specs.Prelude.{◌≡◌, ◌≤◌, length};
ghost use Rattle.records.specs.Limits.{max_log};
ghost use Rattle.records.specs.Format.{read_book};
ghost use Rattle.book.specs.Answer.{book_answer, table_answer};
ghost use Rattle.problem.specs.Masked.{Searchable};
ghost use Rattle.engine.specs.Calls.{read_at, ModelCall, ConsequenceCall, between, StepCall, LogCall, LoggedAs, ResumeCall};
ghost use Rattle.engine.specs.Promises.{problem_answer, FoundModel, FoundForced, Steppable, step_in, Loggable, log_in, PutLog};
ghost use Rattle.engine.specs.Dimacs.{DimacsCall};

use book::Book;
use dates::Moment;
use literals::LiteralSet;
use log_form::Step;
use log_writer::Written;
use problem::MaskedProblem;
use records::refusal::{Refusal, RefusalKind};

// The book reader: the accepted book, or the refusal with its check and place.
// Ruled out: a reader that accepts a book with a byte after EN; one that names the place of the first rule for a later one.
pub fn read_book(s: &[u8]) -> Result<Book, Refusal>
    ensures { result ≡ book_answer (read_book s.now) }
{
    book::read(s)
}

// The costs of the book: a row of two for each choice that a book can have, thirty-two rows.
// Ruled out: a table with yes and no swapped; costs other than 0 beside a refusal.
pub fn read_costs(s: &[u8]) -> [[u16; 2]; Book::MAX_CHOICES]
    ensures { result ≡ table_answer (λ b. b.costs) (read_book s.now) }
{
    book::read_costs(s)
}

// Rules from a DIMACS CNF text: the bytes of a book at the front of a lent buffer, and their length, or the refusal.
// Ruled out: a book with other models than the text; a refusal placed at the byte after a number that is too large.
pub fn read_dimacs(text: &[u8], buffer: &mut [u8]) -> Result<usize, Refusal>
    ensures { DimacsCall text.now buffer.old buffer.new result }
{
    dimacs::import(text, buffer)
}

// The problem that the book poses at a moment: a moment that cannot be is refused before the book is read.
fn problem_at(s: &[u8], moment: Moment) -> Result<MaskedProblem, Refusal>
    ensures { result ≡ problem_answer moment (read_at moment s.now) }
{
    if !dates::is_moment(moment) {
        return Err(RefusalKind::Times.at(0));
    }
    let b = book::read(s)?;
    Ok(problem::of_book(&b, moment))
}

// The first model of the book's rules in force: variable 1 is weightiest, and no comes before yes.
// Ruled out: refusal 9 for every book; any model that the search finds first.
pub fn model(s: &[u8], moment: Moment) -> Result<u64, Refusal>
    ensures { ModelCall s.now moment result }
{
    let p = problem_at(s, moment)?;
    search_model(&p)
}

// The first model of the problem, or refusal 9.
fn search_model(p: &MaskedProblem) -> Result<u64, Refusal>
    requires { Searchable p.now }
    ensures { FoundModel p.now result }
{
    first_model::search(p.formula(), p.facts).ok_or(RefusalKind::NoFilling.at(0))
}

// The consequence of the book's rules in force: demand 2, and E3's models.
// Ruled out: a fixed consequence; a consequence with a helper in it; what is kept one model before the last.
pub fn consequence(s: &[u8], moment: Moment) -> Result<LiteralSet, Refusal>
    ensures { ConsequenceCall s.now moment result }
{
    let p = problem_at(s, moment)?;
    propagate(&p)
}

// What the given facts force, or refusal 9.
fn propagate(p: &MaskedProblem) -> Result<LiteralSet, Refusal>
    requires { Searchable p.now }
    ensures { FoundForced p.now result }
{
    match consequence::of_problem(p) {
        Some(found) => Ok(found.kept),
        None => Err(RefusalKind::NoFilling.at(0)),
    }
}

// The next step from a known set, the variables known to be yes and those known to be no; or that nothing is left.
// Ruled out: a step that is a contradiction but not the cheapest; of two reasons of equal cost the one with more facts; "nothing
// left" while a choice of the consequence is unknown.
pub fn next_step(
    s: &[u8],
    moment: Moment,
    known_yes: u64,
    known_no: u64,
) -> Result<Option<Step>, Refusal>
    ensures { StepCall s.now moment known_yes known_no result }
{
    let p = problem_at(s, moment)?;
    let known = LiteralSet {
        yes: known_yes,
        no: known_no,
    };
    step_from(&p, known)
}

// Whether a known set lies between the given facts and the consequence.
#[tactic(auto, using(crate::proofs::StepLaws::between_then, crate::proofs::StepLaws::between_else))]
fn lies_between(facts: LiteralSet, known: LiteralSet, forced: LiteralSet) -> bool
    ensures { result ≡ between facts known forced }
{
    facts.is_subset(known) && known.is_subset(forced)
}

// The next step of a problem from a known set, or refusal 9, or 10 where the set does not lie between the given facts and the
// consequence.
fn step_from(p: &MaskedProblem, known: LiteralSet) -> Result<Option<Step>, Refusal>
    requires { Steppable p.now }
    ensures { result ≡ step_in p.now known }
{
    let forced = propagate(p)?;
    if !lies_between(p.facts, known, forced) {
        return Err(RefusalKind::KnownSet.at(0));
    }
    Ok(step::next_step(p, forced, known))
}

// The log of the book's rules in force into a lent buffer: demand 3.
// Ruled out: OK with 0 steps for every book; a first step with all given facts as reasons and everything as new, the rest for show.
pub fn log(s: &[u8], moment: Moment, buffer: &mut [u8]) -> Result<Written, Refusal>
    ensures { LogCall s.now moment buffer.old buffer.new result }
{
    let p = problem_at(s, moment)?;
    if buffer.len() < Book::MAX_LOG {
        return Err(RefusalKind::ShortBuffer.at(0));
    }
    write_log(&p, buffer)
}

// The log of a problem into a buffer that has room, or refusal 9.
fn write_log(p: &MaskedProblem, buffer: &mut [u8]) -> Result<Written, Refusal>
    requires loggable { Loggable p.now }
    requires max_log_in_bounds { max_log ≤ length buffer.old }
    ensures { LoggedAs (log_in p.now) buffer.old buffer.new result }
{
    let consequence = propagate(p)?;
    Ok(log_writer::write(p, consequence, buffer))
}

// The log carried on after a restart, in a buffer whose first `written` bytes stand as a call before wrote them: what `log` would
// write and answer. The other bytes may be anything. The log is made in an array first, since the buffer must be as it was where the
// last byte before the break shows that it is another log's.
// Ruled out: a beginning with a wrong byte carried on; bytes behind the break taken as they are found; bytes after the log changed.
pub fn resume_log(
    s: &[u8],
    moment: Moment,
    buffer: &mut [u8],
    written: usize,
) -> Result<Written, Refusal>
    ensures { ResumeCall s.now moment written buffer.old buffer.new result }
{
    if Book::MAX_LOG > buffer.len() {
        return log(s, moment, buffer);
    }
    let mut made = [0u8; Book::MAX_LOG];
    let answer = log(s, moment, &mut made)?;
    put_log(&made[..answer.size], answer, buffer, written)
}

// The bytes of a log into a buffer that holds the first `written` of them, or refusal 15.
fn put_log(
    log: &[u8],
    answer: Written,
    buffer: &mut [u8],
    written: usize,
) -> Result<Written, Refusal>
    requires { length log.now ≤ length buffer.old }
    ensures { PutLog log.now answer written buffer.old buffer.new result }
{
    if !log_form::is_begun(log, buffer, written) {
        return Err(RefusalKind::Beginning.at(0));
    }
    log_form::put_rest(log, buffer, written);
    Ok(answer)
}
