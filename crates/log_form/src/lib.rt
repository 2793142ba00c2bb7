// The form of a log: a step, and putting its record and the others into a buffer.
#![tactic(auto)]

ghost use Rattle.sets.specs.Sets.{width};
ghost use Rattle.std.specs.Prelude.{◌≡◌, [], ◌∷◌, ◌+◌, ◌<◌, ◌≤◌, length};
ghost use Rattle.literals.specs.Literal.{literals_of};
ghost use Rattle.log_form.specs.Format.{ST, list_bytes, record_bytes, ok_bytes, begins};
ghost use Rattle.log_form.specs.Promises.{Put, member_byte, record_of, WrittenWhole};
ghost use Rattle.log_form.specs.Restarts.{is_begun, Begun};

use literals::LiteralSet;

const ST: [u8; 2] = *b"ST";

const OK: [u8; 2] = *b"OK";

// A step: the literal that it shows, the known literals that force it, all that they force anew, and what it costs.
#[derive(Clone, Copy, Debug, PartialEq, Eq)]
pub struct Step {
    pub goal: i8,
    pub reasons: LiteralSet,
    pub new: LiteralSet,
    pub cost: u16,
}

// Whether the bytes of a log begin with an ST record, from some place on.
#[tactic(auto, using(crate::proofs::BeginsLaws::starts_step))]
pub fn at_step(s: &[u8]) -> bool
    ensures { result ≡ begins ST s.now }
{
    s.starts_with(&ST)
}

// The byte of a set's literal over variable `v` + 1.
#[tactic(auto, unfolding(literals::specs::Literal::byte_of))]
fn member_byte(set: LiteralSet, v: u32) -> u8
    requires { v < width }
    ensures { result ≡ member_byte set.yes v }
{
    if sets::has(set.yes, v) {
        (v + 1) as u8
    } else {
        (255 - v) as u8
    }
}

// One byte at a place. Every byte of a log that is made is written here, and the next one goes to the place that is answered: so
// each is written once, in rising order from the first on.
pub fn put_byte(out: &mut [u8], at: usize, byte: u8) -> usize
    requires { at < length out.old }
    ensures { Put out.old at (byte ∷ []) out.new result }
{
    out[at] = byte;
    at + 1
}

// Bytes, one after the other: a mark, or a number with the high byte first. A byte a turn, by `put_byte`, since `copy_from_slice`
// would promise no order (E8).
#[tactic(auto, using(crate::proofs::StoreLaws::putting_laws))]
pub fn put_bytes(out: &mut [u8], at: usize, bytes: &[u8]) -> usize
    requires { at + length bytes.now ≤ length out.old }
    ensures { Put out.old at bytes.now out.new result }
{
    let mut i = at;
    for &byte in bytes {
        i = put_byte(out, i, byte);
    }
    i
}

// The number of a set's literals, and the literals, rising by variable.
#[tactic(auto, using(crate::proofs::ListLaws::listing_laws))]
pub fn put_list(out: &mut [u8], at: usize, set: LiteralSet) -> usize
    requires { at + length (list_bytes (literals_of set.yes set.no)) ≤ length out.old }
    ensures { Put out.old at (list_bytes (literals_of set.yes set.no)) out.new result }
{
    let all = set.variables();
    let mut i = put_byte(out, at, sets::count(all) as u8);
    for v in sets::members(all) {
        i = put_byte(out, i, member_byte(set, v));
    }
    i
}

// The record of a step: goal literal, number of facts, the facts, number of new literals, the new literals, the cost.
pub fn put_step(out: &mut [u8], at: usize, step: Step) -> usize
    requires { at + length (record_bytes (record_of step)) ≤ length out.old }
    ensures { Put out.old at (record_bytes (record_of step)) out.new result }
{
    let marked = put_bytes(out, at, &ST);
    let aimed = put_byte(out, marked, literals::to_byte(step.goal));
    let reasoned = put_list(out, aimed, step.reasons);
    let listed = put_list(out, reasoned, step.new);
    put_bytes(out, listed, &step.cost.to_be_bytes())
}

// The record that ends a log: the number of steps, and the sum of the step costs.
#[tactic(auto, using(crate::proofs::RecordLaws::ok_laws))]
pub fn put_ok(out: &mut [u8], at: usize, steps: u8, total: u32) -> usize
    requires { at + length (ok_bytes steps total) ≤ length out.old }
    ensures { Put out.old at (ok_bytes steps total) out.new result }
{
    let marked = put_bytes(out, at, &OK);
    let counted = put_byte(out, marked, steps);
    put_bytes(out, counted, &total.to_be_bytes())
}

// Whether the first `written` bytes of a buffer are the beginning of a log.
#[tactic(auto, using(crate::proofs::BeginsLaws::begun_short, crate::proofs::BeginsLaws::begun_starts))]
pub fn is_begun(log: &[u8], buffer: &[u8], written: usize) -> bool
    ensures { result ≡ is_begun written buffer.now log.now }
{
    written <= buffer.len() && log.starts_with(&buffer[..written])
}

// The bytes of a log from `written` on into a buffer that begins with those before it: a byte a turn, in rising order, so that at
// each turn the buffer holds the log's first `i` bytes and then its old ones. A byte that stands there already is left alone; the
// test also keeps the compiler from making one block copy of the loop, in an order of its own. (`copy_from_slice` would promise no
// order, and E8 asks for it.)
#[tactic(auto, using(crate::specs::Laws::Restarts::writing_laws))]
pub fn put_rest(log: &[u8], buffer: &mut [u8], written: usize)
    requires begun { Begun written buffer.old log.now }
    requires log_in_bounds { length log.now ≤ length buffer.old }
    ensures { WrittenWhole log.now buffer.old buffer.new }
{
    for i in written..log.len() {
        if buffer[i] != log[i] {
            buffer[i] = log[i];
        }
    }
}
