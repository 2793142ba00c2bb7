// Rules that follow from others: put in, and left out.
use crate::rules::{Rules, Unfit};
use crate::{order, rules};
use brute_force::fillings;
use brute_force::fillings::Literals;
use samples::random;

// The variables that one of two rules has yes and the other no.
pub fn clash(a: Literals, b: Literals) -> u64 {
    (a.yes & b.no) | (a.no & b.yes)
}

// The resolvent of two rules that clash over one variable: what is left of both without it.
pub fn resolvent(a: Literals, b: Literals) -> Literals {
    fillings::within(fillings::joined(a, b), !clash(a, b))
}

// Whether two rules have a resolvent that a book can have.
fn have_resolvent(a: Literals, b: Literals) -> bool {
    clash(a, b).count_ones() == 1 && rules::size(resolvent(a, b)) <= rules::LITERALS
}

// A rule with one literal more, drawn from a state. Where it has that variable, or there is none, the rule itself.
fn longer(variables: usize, seed: u64, rule: Literals) -> Literals {
    let v = random::place_below(seed, variables);
    let more = rules::literal(v, seed % 2 == 0);
    let open = fillings::first(variables) & !(rule.yes | rule.no);
    fillings::joined(rule, fillings::within(more, open))
}

// A resolvent of this rule and the first that gives one, or the rule with one literal more.
fn following(r: &Rules, rule: Literals) -> Literals {
    for &other in r.as_slice() {
        if have_resolvent(rule, other) {
            return resolvent(rule, other);
        }
    }
    longer(r.variables, r.seed, rule)
}

// A rule more that follows from the others.
pub fn add_implied(r: &mut Rules) -> Result<(), Unfit> {
    if r.len() == 0 {
        return Ok(());
    }
    let rule = following(r, rules::any(r));
    order::put_in(r, rule)
}

// The literals that are true in every filling that obeys the rules. Where there is none, each variable both ways.
fn forced(r: &Rules, all: u64) -> Literals {
    let every = fillings::first(r.variables);
    let mut set = Literals {
        yes: every,
        no: every,
    };
    for filling in 0..all {
        if rules::obeys(r, filling) {
            set = fillings::narrowed(set, filling);
        }
    }
    set
}

// A rule more for each literal that the rules force, over helpers too. Some of them showed only where variables were tried
// both ways, and now show at once.
pub fn add_forced(r: &mut Rules) -> Result<(), Unfit> {
    let all = fillings::number_of(r.variables).ok_or(Unfit)?;
    let set = forced(r, all);
    rules::add_each(r, set, Literals::default())
}

// A rule more that has all literals of another.
pub fn add_longer(r: &mut Rules) -> Result<(), Unfit> {
    if r.len() == 0 {
        return Ok(());
    }
    let rule = longer(r.variables, random::next(r.seed), rules::any(r));
    order::put_in(r, rule)
}

// Whether all literals of `a` are among those of `b`.
fn is_part(a: Literals, b: Literals) -> bool {
    fillings::is_empty(fillings::less(a, b))
}

// Whether some rule makes the rule at a place needless. Of equal rules it is the first that stays.
fn is_needless(rules: &[Literals], place: usize, rule: Literals) -> bool {
    rules.iter().enumerate().any(|(i, other)| is_part(*other, rule)
        && (i < place || !is_part(rule, *other)))
}

// Every rule left out that has all literals of another.
pub fn leave_out_longer(r: &mut Rules) -> Result<(), Unfit> {
    let mut made = rules::none(r);
    for (place, rule) in r.as_slice().iter().enumerate() {
        if !is_needless(r.as_slice(), place, *rule) {
            rules::add(&mut made, *rule)?;
        }
    }
    *r = made;
    Ok(())
}
