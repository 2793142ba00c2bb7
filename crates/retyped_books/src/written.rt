// Rules written out as a book, with the choices, costs and facts of another one.
use crate::rules::Rules;
use brute_force::fillings::Literals;
use brute_force::{fillings, logs};
use samples::build;
use samples::build::Draft;
use samples::reckon::Reckoned;

fn byte_of(n: usize) -> u8 {
    (n % 256) as u8
}

fn with_costs(d: Draft, b: &Reckoned) -> Draft {
    let mut made = d;
    for (i, [of_yes, of_no]) in b.costs.iter().take(b.choices).enumerate() {
        made = build::cost(made, byte_of(i.wrapping_add(1)), *of_yes, *of_no);
    }
    made
}

fn with_rules(d: Draft, r: &Rules) -> Draft {
    let mut made = d;
    for &rule in r.as_slice() {
        made = logs::counted_list(build::put2(made, b'R', b'L'), rule);
    }
    made
}

fn with_facts(d: Draft, facts: Literals, choices: usize) -> Draft {
    let mut made = d;
    for v in 0..choices {
        let alone = fillings::within(facts, fillings::power(v));
        if !fillings::is_empty(alone) {
            made = logs::list(build::put2(made, b'F', b'A'), alone);
        }
    }
    made
}

// The book of these rules with the choices, costs and facts of `b`, and the state that the rules were made with.
pub fn book(r: &Rules, b: &Reckoned) -> Draft {
    let mut d = build::header(
        build::empty(),
        byte_of(r.variables),
        byte_of(b.choices),
        byte_of(r.len()),
    );
    d.seed = r.seed;
    let d = with_rules(with_costs(d, b), r);
    build::end(with_facts(d, b.facts, b.choices))
}
