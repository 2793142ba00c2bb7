// Orders at the counter whose logs document 01 or 02 gives or settles in words: the reckoned log held against these bytes.
use brute_force::{fillings, logs};
use engine_checks::tally::{Group, Tally};
use samples::build::Draft;
use samples::{build, counter, reckon};

// The reckoned log of a good book.
fn reckoned_log(d: &Draft) -> Option<Draft> {
    let b = reckon::reckon(d.as_slice()).ok()?;
    let all = fillings::obeying(&b)?;
    Some(logs::whole(all.as_slice(), &b).written)
}

// The log of an order that has one. A letter of another one has no bytes.
pub fn log_of(letter: u8) -> Draft {
    let none = build::empty();
    match letter {
        // No steps.
        b'b' | b'h' => build::bytes(none, b"OK\x00\x00\x00\x00\x00"),
        b'c' => log_of_p(),
        b'd' => build::bytes(none, b"ST\x01\x00\x01\x01\x00\x09OK\x01\x00\x00\x00\x09"),
        b'g' => build::bytes(none, b"ST\xff\x00\x01\xff\x00\x05OK\x01\x00\x00\x00\x05"),
        b'i' => build::bytes(
            none,
            b"ST\x02\x01\x01\x02\x02\x03\x00\x02OK\x01\x00\x00\x00\x02",
        ),
        _ => none,
    }
}

fn log_of_p() -> Draft {
    let first = build::bytes(build::empty(), b"ST\x02\x01\x01\x01\x02\x00\x08");
    let second = build::bytes(first, b"ST\x04\x02\x02\x03\x01\x04\x00\x0c");
    build::bytes(second, b"OK\x02\x00\x00\x00\x14")
}

// 4 from 3 alone.
pub fn log_of_fewer_facts() -> Draft {
    build::bytes(
        build::empty(),
        b"ST\x04\x01\x03\x01\x04\x00\x0bOK\x01\x00\x00\x00\x0b",
    )
}

// 5 from 3 alone, then 4 from 1 and 2.
pub fn log_of_higher_goal() -> Draft {
    let first = build::bytes(build::empty(), b"ST\x05\x01\x03\x01\x05\x00\x0b");
    let second = build::bytes(first, b"ST\x04\x02\x01\x02\x01\x04\x00\x0b");
    build::bytes(second, b"OK\x02\x00\x00\x00\x16")
}

// One more order and its log.
fn book(t: &mut Tally, d: Draft, due: Draft) {
    let agrees = reckoned_log(&d).is_some_and(|log| log.as_slice() == due.as_slice());
    t.note(Group::Worked, agrees);
}

// Book P, the orders d, g, h and i, and the two of E6.
pub fn all(t: &mut Tally) {
    for letter in *b"cdghi" {
        book(t, counter::order(letter), log_of(letter));
    }
    book(t, counter::fewer_facts(), log_of_fewer_facts());
    book(t, counter::higher_goal(), log_of_higher_goal());
}
