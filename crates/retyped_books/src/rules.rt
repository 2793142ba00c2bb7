// The rules of a book as masks, which are changed one by one. Bit v - 1 of a mask stands for variable v.
use brute_force::fillings;
use brute_force::fillings::Literals;
use samples::reckon::Reckoned;
use samples::{limits, random};

const VARIABLES: usize = limits::VARIABLES as usize;

pub const LITERALS: u32 = limits::LITERALS as u32;

// The rules, how many variables and choices there are, and the generator's state. The number of rules stands beside their
// room, and not in an `ArrayVec`, since rules are `Copy`: a change is tried on a copy, which no book may be able to have.
#[derive(Clone, Copy)]
pub struct Rules {
    room: [Literals; limits::MASKS],
    count: usize,
    pub variables: usize,
    pub choices: usize,
    pub seed: u64,
}

// There is a rule or a variable that no book can have.
#[derive(Clone, Copy, Debug, PartialEq, Eq)]
pub struct Unfit;

impl Rules {
    pub fn as_slice(&self) -> &[Literals] {
        &self.room[..self.count.min(limits::MASKS)]
    }

    pub fn as_mut_slice(&mut self) -> &mut [Literals] {
        let count = self.count.min(limits::MASKS);
        &mut self.room[..count]
    }

    pub fn len(&self) -> usize {
        self.count
    }
}

pub fn of_book(b: &Reckoned, seed: u64) -> Rules {
    let mut room = [Literals::default(); limits::MASKS];
    for (kept, rule) in room.iter_mut().zip(b.rules.as_slice()) {
        *kept = rule.literals;
    }
    Rules {
        room,
        count: b.rules.len(),
        variables: b.variables,
        choices: b.choices,
        seed,
    }
}

// The same variables and no rules.
pub fn none(r: &Rules) -> Rules {
    Rules { count: 0, ..*r }
}

// The generator one state on.
pub fn draw(r: &mut Rules) {
    r.seed = random::next(r.seed);
}

// The rule at a place that is drawn from the state, or no literals where there is no rule.
pub fn any(r: &Rules) -> Literals {
    let place = random::place_below(r.seed, r.count);
    r.as_slice().get(place).copied().unwrap_or_default()
}

// A literal over the variable after the first `n`.
pub fn literal(n: usize, yes: bool) -> Literals {
    let bit = fillings::power(n);
    if yes {
        Literals { yes: bit, no: 0 }
    } else {
        Literals { yes: 0, no: bit }
    }
}

// How many literals there are.
pub fn size(rule: Literals) -> u32 {
    (rule.yes | rule.no).count_ones()
}

// Whether a filling obeys the rules.
pub fn obeys(r: &Rules, filling: u64) -> bool {
    r.as_slice()
        .iter()
        .all(|rule| fillings::meets(filling, *rule))
}

// Whether a book can have this rule: up to 8 literals, and no variable both ways.
fn can_stand(rule: Literals) -> bool {
    rule.yes & rule.no == 0 && size(rule) <= LITERALS
}

// Another rule at a place.
pub fn change(r: &mut Rules, place: usize, rule: Literals) -> Result<(), Unfit> {
    if place >= limits::MASKS || !can_stand(rule) {
        return Err(Unfit);
    }
    r.room[place] = rule;
    Ok(())
}

// One rule more.
pub fn add(r: &mut Rules, rule: Literals) -> Result<(), Unfit> {
    let place = r.count;
    change(r, place, rule)?;
    r.count = place.wrapping_add(1);
    Ok(())
}

// One rule more: the literals of both.
pub fn add_both(r: &mut Rules, a: Literals, b: Literals) -> Result<(), Unfit> {
    add(r, fillings::joined(a, b))
}

// A rule more for each literal of a set: that literal or one of the others.
pub fn add_each(r: &mut Rules, set: Literals, others: Literals) -> Result<(), Unfit> {
    for v in 0..r.variables {
        let alone = fillings::within(set, fillings::power(v));
        if !fillings::is_empty(alone) {
            add_both(r, alone, others)?;
        }
    }
    Ok(())
}

// One variable more, which is a helper.
pub fn add_variable(r: &mut Rules) -> Result<(), Unfit> {
    if r.variables >= VARIABLES {
        return Err(Unfit);
    }
    r.variables += 1;
    Ok(())
}
