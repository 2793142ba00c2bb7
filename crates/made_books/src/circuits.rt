// Books that are circuits: the first choices are inputs, and each other variable is the output of a gate, a literal over it
// being true exactly where two other literals are. So of all fillings 2^7 obey the rules, one for each of the inputs.
// A helper's gate has two inputs, and the gate of a choice has a choice before it and a helper, so that what follows from
// the inputs takes many steps and some case splits.
use crate::made::Shape;
use crate::{Kind, made};
use samples::build::Draft;
use samples::{build, random};

const INPUTS: u8 = 7;

// The opposite of a literal.
fn opposite(literal: u8) -> u8 {
    build::negated(literal)
}

// A number from `first` to `last`, drawn from a state.
fn between(seed: u64, first: u8, last: u8) -> u8 {
    let more = last.wrapping_sub(first);
    first.wrapping_add(random::byte_below(seed, more.wrapping_add(1)))
}

// The rules by which `out` is true exactly where `a` and `b` are, its variable being the last.
fn helper_gate(d: Draft, a: u8, b: u8, out: u8) -> Draft {
    let whole = build::put2(build::rule(d, 3), opposite(a), opposite(b));
    let first = build::rule_of_two(build::put(whole, out), a, opposite(out));
    build::rule_of_two(first, b, opposite(out))
}

// The same, its variable being between the two.
fn choice_gate(d: Draft, a: u8, out: u8, b: u8) -> Draft {
    let whole = build::put2(build::rule(d, 3), opposite(a), out);
    let first = build::rule_of_two(build::put(whole, opposite(b)), a, opposite(out));
    build::rule_of_two(first, opposite(out), b)
}

// The two literals of a gate, its output, and the generator's state after it.
#[derive(Clone, Copy)]
struct Gate {
    low: u8,
    high: u8,
    out: u8,
    seed: u64,
}

// A gate over three variables, its two literals drawn from a state, each of them three times out of four true in the
// planted filling.
fn drawn(like: Shape, seed: u64, low: u8, high: u8, out: u8) -> Gate {
    let next = random::next(seed);
    let first = random::byte(next) < 192;
    let second = random::byte(next >> 8) < 192;
    Gate {
        low: made::literal(like, next, low, first),
        high: made::literal(like, next, high, second),
        out: made::literal(like, next, out, first && second),
        seed: next,
    }
}

// A gate for a helper.
fn helper(d: Draft, like: Shape, v: u8) -> Draft {
    let a = random::next(d.seed);
    let b = random::next(a);
    let low = between(a, 1, INPUTS - 1);
    let high = between(b, low.wrapping_add(1), INPUTS);
    let gate = drawn(like, b, low, high, v);
    let mut made = helper_gate(d, gate.low, gate.high, gate.out);
    made.seed = gate.seed;
    made
}

// A gate for a choice.
fn choice(d: Draft, like: Shape, v: u8) -> Draft {
    let a = random::next(d.seed);
    let b = random::next(a);
    let low = between(a, 1, v.wrapping_sub(1));
    let high = between(b, like.choices.wrapping_add(1), like.variables);
    let gate = drawn(like, b, low, high, v);
    let mut made = choice_gate(d, gate.low, gate.out, gate.high);
    made.seed = gate.seed;
    made
}

// A gate for each choice that is no input and for each helper.
fn gates(d: Draft, like: Shape) -> Draft {
    let mut made = d;
    for v in INPUTS + 1..=like.variables {
        made = if v <= like.choices {
            choice(made, like, v)
        } else {
            helper(made, like, v)
        };
    }
    made
}

// What a circuit is like: up to three variables fewer, so many choices, and a fact for each input.
fn shape(seed: u64, kind: Kind) -> Shape {
    let next = random::next(seed);
    let variables = kind.variables.wrapping_sub(random::byte_below(next, 4));
    let gates = variables.wrapping_sub(INPUTS);
    Shape {
        cost: kind.cost,
        givens: INPUTS,
        every: 1,
        planted: Some(random::next(next)),
        ..made::wide_shape(variables, kind.choices, gates.wrapping_mul(3))
    }
}

// A book of three rules for each gate, made up from a seed.
pub fn made(seed: u64, kind: Kind) -> Draft {
    let like = shape(seed, kind);
    let mut d = build::header(build::empty(), like.variables, like.choices, like.rules);
    d.seed = random::next(seed);
    let d = made::costs(d, like.choices, like.cost);
    build::end(made::facts(gates(d, like), like))
}
