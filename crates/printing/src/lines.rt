// The records of a log, each put as one line.
ghost use Rattle.std.specs.Prelude.{◌≡◌, ◌+◌, ◌*◌, ◌≤◌, length, get_or};
ghost use Rattle.log_form.specs.Promises.{Put};
ghost use Rattle.printing.specs.Text.{step_text, done_text};
ghost use Rattle.printing.specs.Fields.{record_size, record_in, of_fields, total_in};
ghost use Rattle.printing.specs.Promises.{LinePut, Printable, LogPut};

use crate::text;

// The place after a line, and the length of the record that it prints.
#[derive(Clone, Copy)]
pub struct Line {
    pub next: usize,
    pub size: usize,
}

// The line of a step, from the fields of its record.
fn put_line(
    out: &mut [u8],
    at: usize,
    number: u64,
    goal: u8,
    facts: &[u8],
    new: &[u8],
    cost: u64,
) -> usize
    requires { at + length (step_text number (of_fields goal facts.now new.now cost)) ≤ length out.old }
    ensures { Put out.old at (step_text number (of_fields goal facts.now new.now cost)) out.new result }
{
    let numbered = text::put_field(out, at, b"step ", number);
    let parted = log_form::put_bytes(out, numbered, b" goal ");
    let aimed = text::put_literal(out, parted, goal);
    let reasoned = text::put_list(out, aimed, b" from", facts);
    let listed = text::put_list(out, reasoned, b" new", new);
    let priced = text::put_field(out, listed, b" cost ", cost);
    log_form::put_bytes(out, priced, b"\n")
}

// The line of the ST record at the front of `s`.
#[tactic(auto, using(crate::proofs::FieldLaws::fields_are))]
fn put_step(out: &mut [u8], at: usize, number: u64, s: &[u8]) -> Line
    requires record_in_bounds { record_size s.now ≤ length s.now }
    requires line_in_bounds { at + length (step_text number (record_in s.now)) ≤ length out.old }
    ensures { LinePut out.old at number s.now out.new result }
{
    let facts_end = 4 + s[3] as usize;
    let new = facts_end + 1;
    let new_end = new + s[facts_end] as usize;
    let cost = u16::from_be_bytes([s[new_end], s[new_end + 1]]) as u64;
    let facts = &s[4..facts_end];
    let next = put_line(out, at, number, s[2], facts, &s[new..new_end], cost);
    Line {
        next,
        size: new_end + 2,
    }
}

// The line of the OK record at the front of `s`.
#[tactic(auto, unfolding(crate::specs::Text::done_text))]
fn put_done(out: &mut [u8], at: usize, s: &[u8]) -> usize
    requires record_in_bounds { 7 ≤ length s.now }
    requires line_in_bounds { at + length (done_text (get_or s.now 2 0) (total_in s.now)) ≤ length out.old }
    ensures { Put out.old at (done_text (get_or s.now 2 0) (total_in s.now)) out.new result }
{
    let total = u32::from_be_bytes([s[3], s[4], s[5], s[6]]) as u64;
    text::put_pair(out, at, b"done ", s[2] as u64, b" total ", total)
}

// The text of a log: a line for each ST record, and one for OK.
pub fn put_log(out: &mut [u8], log: &[u8]) -> usize
    requires { Printable log.now out.old }
    ensures { LogPut log.now out.old out.new result }
{
    let mut at = 0;
    let mut from = 0;
    let mut number: u64 = 1;
    while log_form::at_step(&log[from..]) {
        let line = put_step(out, at, number, &log[from..]);
        at = line.next;
        from += line.size;
        number += 1;
    }
    put_done(out, at, &log[from..])
}
