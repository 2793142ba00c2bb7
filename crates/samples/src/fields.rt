// The bytes of a record after its mark: a rule's count, and the fields.
use crate::machine::{Awaited, Machine};
use crate::reckon::{Literals, Refused, Rule};
use crate::{build, limits, reckon, windows};

// A rule's count, which is refused before its literals are waited for. A rule of no literals ends with it.
pub fn count(m: &mut Machine, b: u8) -> Result<(), Refused> {
    if b > limits::LITERALS || m.rules.is_full() {
        return Err(m.refused(5));
    }
    m.rules.push(Rule::default());
    m.awaited = if b == 0 {
        Awaited::FirstLetter
    } else {
        Awaited::Field
    };
    m.left = b;
    m.last = 0;
    Ok(())
}

fn header_field(m: &mut Machine, b: u8) {
    let mut header = m.counts();
    let most = match m.left {
        3 => limits::VARIABLES,
        2 => limits::CHOICES.min(header.variables),
        _ => limits::RULES,
    };
    if b > most {
        m.bad = Some(3);
    }
    match m.left {
        3 => header.variables = b,
        2 => header.choices = b,
        _ => header.rules = b,
    }
    m.header = Some(header);
}

// One byte of a choice and its costs: two bytes to a cost.
fn cost_field(m: &mut Machine, b: u8) {
    match m.left {
        5 => {
            if b != m.costs_begun {
                m.bad = Some(4);
            }
        }
        4 | 2 => m.high = b,
        3 => cost_ends(m, b, 0),
        _ => cost_ends(m, b, 1),
    }
}

// A cost is whole, that of yes or, at 1, that of no.
fn cost_ends(m: &mut Machine, low: u8, answer: usize) {
    let cost = u16::from_be_bytes([m.high, low]);
    if cost == 0 || cost > limits::COST {
        m.bad = Some(4);
    }
    let choice = usize::from(m.costs_begun.wrapping_sub(1));
    if choice < limits::COSTS && answer < 2 {
        m.costs[choice][answer] = cost;
    }
}

// One literal more.
fn with(set: Literals, b: u8) -> Literals {
    let bit = reckon::bit(build::variable(b));
    if b < 128 {
        Literals {
            yes: set.yes | bit,
            no: set.no,
        }
    } else {
        Literals {
            yes: set.yes,
            no: set.no | bit,
        }
    }
}

fn rule_field(m: &mut Machine, b: u8) {
    let v = build::variable(b);
    if v <= m.last || m.counts().variables < v {
        m.bad = Some(6);
    }
    m.last = v;
    if let Some(rule) = m.rules.as_mut_slice().last_mut() {
        rule.literals = with(rule.literals, b);
    }
}

// One byte of a window, which is judged once its last one is there.
fn window_field(m: &mut Machine, b: u8) {
    if let Some(rule) = m.rules.as_mut_slice().last_mut() {
        let window = windows::with_byte(rule.window.unwrap_or_default(), m.left, b);
        rule.window = Some(window);
        if m.left == 1 && !windows::can_be(window) {
            m.bad = Some(14);
        }
    }
}

fn fact_field(m: &mut Machine, b: u8) {
    let v = build::variable(b);
    if v <= m.last_fact || m.counts().choices < v {
        m.bad = Some(6);
    }
    m.last_fact = v;
    m.facts = with(m.facts, b);
}

// One field; what the fields are refused for counts only once the last of them is there.
pub fn field(m: &mut Machine, b: u8) -> Result<(), Refused> {
    match m.letter {
        b'H' => header_field(m, b),
        b'C' => cost_field(m, b),
        b'R' => rule_field(m, b),
        b'W' => window_field(m, b),
        _ => fact_field(m, b),
    }
    m.left = m.left.wrapping_sub(1);
    if m.left > 0 {
        return Ok(());
    }
    m.awaited = Awaited::FirstLetter;
    match m.bad {
        Some(number) => Err(m.refused(number)),
        None => Ok(()),
    }
}
