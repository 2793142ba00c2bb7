// Numbers as digits.
use samples::build;
use samples::build::Draft;

fn digit(n: u8) -> u8 {
    b'0' + n % 10
}

// The digits of a number.
pub fn number(d: Draft, n: u8) -> Draft {
    let mut made = d;
    if n >= 100 {
        made = build::put(made, digit(n / 100));
    }
    if n >= 10 {
        made = build::put(made, digit(n / 10));
    }
    build::put(made, digit(n))
}

// The digits of a literal, whose byte is from 128 on where it says no.
pub fn literal(d: Draft, l: u8) -> Draft {
    if l < 128 {
        number(d, l)
    } else {
        number(build::put(d, b'-'), build::negated(l))
    }
}

// One digit so many times.
pub fn digits(d: Draft, b: u8, count: u8) -> Draft {
    let mut made = d;
    for _ in 0..count {
        made.push(b);
    }
    made
}

// `p cnf` with V and R.
pub fn head(d: Draft, variables: u8, clauses: u8) -> Draft {
    let d = number(build::bytes(d, b"p cnf "), variables);
    number(build::put(d, b' '), clauses)
}
