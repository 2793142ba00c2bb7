// Files with something wrong: bytes that matter to the form, put in, put for others or left out.
use samples::build::Draft;
use samples::{edits, random};

// Bytes that the form names, bytes beside them, and bytes that no text has.
const BYTES: [u8; COUNT] = *b"01239 \t\r\n-+cpnf.x%\x0b\x0c\x00\x80\xff/:\xa0";

// How many there are.
pub const COUNT: usize = 26;

// One of them.
pub fn byte(n: usize) -> u8 {
    BYTES[n % COUNT]
}

// One of them, drawn from a state.
fn drawn(seed: u64) -> u8 {
    byte(random::place_below(seed, COUNT))
}

// One change, drawn from the draft's own generator: a byte put for another, put in or left out, or the rest left out.
fn changed_once(d: Draft) -> Draft {
    let kind = random::next(d.seed);
    let value = random::next(kind);
    let seed = random::next(value);
    let place = random::place_below(seed, d.len);
    let made = Draft { seed, ..d };
    match random::byte_below(kind, 8) {
        0 => edits::without(made, place),
        1 => edits::cut(made, place),
        2..=4 => edits::changed(made, place, drawn(value)),
        _ => edits::with(made, place, drawn(value)),
    }
}

// One change or up to three.
pub fn changed(d: Draft) -> Draft {
    let changes = random::byte_below(random::next(d.seed), 3);
    let mut made = changed_once(d);
    for _ in 0..changes {
        made = changed_once(made);
    }
    made
}
