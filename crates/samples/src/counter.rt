// The starred orders at the counter (document 01) and three more, as bytes.
use crate::build;
use crate::build::Draft;

// The order of a letter from a to j. Costs are 5 for yes and 9 for no unless said.
pub fn order(letter: u8) -> Draft {
    let none = build::empty();
    match letter {
        // No bytes.
        b'a' => none,
        // V, U and R all 0.
        b'b' => build::bytes(none, b"HD\x00\x00\x00EN"),
        // Book P.
        b'c' => book_p(),
        // U = V = 1, rule (1).
        b'd' => build::bytes(none, b"HD\x01\x01\x01CS\x01\x00\x05\x00\x09RL\x01\x01EN"),
        // Rules (1) and (-1).
        b'e' => build::bytes(
            none,
            b"HD\x01\x01\x02CS\x01\x00\x05\x00\x09RL\x01\x01RL\x01\xffEN",
        ),
        // Fact 1, rule (-1).
        b'f' => build::bytes(
            none,
            b"HD\x01\x01\x01CS\x01\x00\x05\x00\x09RL\x01\xffFA\x01EN",
        ),
        // U = 1, V = 2, rules (-1, 2) and (-1, -2).
        b'g' => build::bytes(
            none,
            b"HD\x02\x01\x02CS\x01\x00\x05\x00\x09RL\x02\xff\x02RL\x02\xff\xfeEN",
        ),
        // Fact 1, no rules, U = V = 1.
        b'h' => build::bytes(none, b"HD\x01\x01\x00CS\x01\x00\x05\x00\x09FA\x01EN"),
        // U = V = 3, every cost 1, fact 1, rules (-1, 2) and (-1, 3).
        b'i' => build::bytes(
            none,
            b"HD\x03\x03\x02CS\x01\x00\x01\x00\x01CS\x02\x00\x01\x00\x01CS\x03\x00\x01\x00\x01RL\x02\xff\x02RL\x02\xff\x03FA\x01EN",
        ),
        // V = U = R = 1, rule literal 80.
        _ => build::bytes(none, b"HD\x01\x01\x01CS\x01\x00\x05\x00\x09RL\x01\x80EN"),
    }
}

// U = V = 2, rule (1, 2).
pub fn either() -> Draft {
    build::bytes(
        build::empty(),
        b"HD\x02\x02\x01CS\x01\x00\x05\x00\x09CS\x02\x00\x05\x00\x09RL\x02\x01\x02EN",
    )
}

// A book in two parts: its header and costs, and the rest.
fn in_two(costs: &[u8], rest: &[u8]) -> Draft {
    build::bytes(build::bytes(build::empty(), costs), rest)
}

// U = V = 4, yes costs 1, 2, 3, 4, no costs 5, 6, 7, 8, rules (-1, -2, 4) and (-3, 4), facts 1, 2 and 3.
pub fn fewer_facts() -> Draft {
    in_two(
        b"HD\x04\x04\x02CS\x01\x00\x01\x00\x05CS\x02\x00\x02\x00\x06CS\x03\x00\x03\x00\x07CS\x04\x00\x04\x00\x08",
        b"RL\x03\xff\xfe\x04RL\x02\xfd\x04FA\x01FA\x02FA\x03EN",
    )
}

// The same with a choice 5 of 4's costs, and rule (-3, 5) instead of (-3, 4).
pub fn higher_goal() -> Draft {
    in_two(
        b"HD\x05\x05\x02CS\x01\x00\x01\x00\x05CS\x02\x00\x02\x00\x06CS\x03\x00\x03\x00\x07CS\x04\x00\x04\x00\x08CS\x05\x00\x04\x00\x08",
        b"RL\x03\xff\xfe\x04RL\x02\xfd\x05FA\x01FA\x02FA\x03EN",
    )
}

// Book P, with its own costs.
pub fn book_p() -> Draft {
    in_two(
        b"HD\x05\x04\x03CS\x01\x00\x05\x00\x09CS\x02\x00\x02\x00\x03CS\x03\x00\x04\x00\x01CS\x04\x00\x07\x00\x06",
        b"RL\x02\xff\x05RL\x02\x02\xfbRL\x03\xfe\xfd\x04FA\x01FA\x03EN",
    )
}
