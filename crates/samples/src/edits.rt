// Books that are changed: a byte more, a byte less, another byte.
use crate::build::Draft;
use crate::random;

// The first `len` bytes.
pub fn cut(mut d: Draft, len: usize) -> Draft {
    d.len = len;
    d
}

// Another byte at a place.
pub fn changed(mut d: Draft, place: usize, b: u8) -> Draft {
    if place < d.bytes.len() {
        d.bytes[place] = b;
    }
    d
}

// The byte at a place gone, those behind it moved up.
pub fn without(mut d: Draft, place: usize) -> Draft {
    if place < d.bytes.len() {
        d.bytes[place..].rotate_left(1);
    }
    d.len = d.len.saturating_sub(1);
    d
}

// One byte more at a place, those behind it moved down.
pub fn with(mut d: Draft, place: usize, b: u8) -> Draft {
    if place < d.bytes.len() {
        d.bytes[place..].rotate_right(1);
        d.bytes[place] = b;
    }
    if d.len < d.bytes.len() {
        d.len += 1;
    }
    d
}

// One edit, drawn from the draft's own generator: any byte or a near one for a byte, a byte less, a byte more.
pub fn edited(mut d: Draft) -> Draft {
    let kind = random::next(d.seed);
    let value = random::next(kind);
    d.seed = random::next(value);
    let place = random::place_below(d.seed, d.len);
    match random::byte_below(kind, 5) {
        0 => changed(d, place, random::byte(value)),
        1 => changed(d, place, near(d, place, 1)),
        2 => changed(d, place, near(d, place, 255)),
        3 => without(d, place),
        _ => with(d, place, random::byte(value)),
    }
}

// The byte at a place, and `more` added to it.
fn near(d: Draft, place: usize, more: u8) -> u8 {
    d.bytes.get(place).map_or(more, |b| b.wrapping_add(more))
}

// Up to four edits.
pub fn much_edited(d: Draft) -> Draft {
    let edits = random::byte_below(random::next(d.seed), 5);
    let mut made = d;
    for _ in 0..edits {
        made = edited(made);
    }
    made
}
