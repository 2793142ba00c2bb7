// The next step reckoned over every goal, every set of known literals and every filling that obeys the rules.
use crate::fillings;
use crate::fillings::Literals;
use samples::limits;

// A goal and a set of known literals: what the two cost, how many literals the set has, and the goal's variable and those
// of the set as masks. Masks of one variable are in the order of the variables, and a mask is the sum of 2^(v-1) over its
// variables v.
#[derive(Clone, Copy, Debug, Default, PartialEq, Eq)]
pub struct Candidate {
    pub cost: u64,
    pub facts: u64,
    pub goal: u64,
    pub from: u64,
    // Whether another one costs the same.
    pub tied: bool,
}

// The best so far, and the best in the order before E6, which leaves out the number of facts.
#[derive(Clone, Copy, Debug, Default, PartialEq, Eq)]
struct Best {
    now: Option<Candidate>,
    before: Option<Candidate>,
}

// The step. The goal is a set of one literal.
#[derive(Clone, Copy, Debug, PartialEq, Eq)]
pub struct Taken {
    pub goal: Literals,
    pub reasons: Literals,
    pub new: Literals,
    pub cost: u64,
    // Whether another candidate costs the same.
    pub tied: bool,
    // Whether the step was another one in the order before E6.
    pub changed: bool,
}

// What stays the same for every candidate: the fillings that obey the rules, and the costs of the choices.
#[derive(Clone, Copy)]
struct Terms<'a> {
    all: &'a [u64],
    costs: &'a [[u16; 2]; limits::COSTS],
}

// A set of known literals, by its variables too, how many they are, and what they cost.
#[derive(Clone, Copy)]
struct Set {
    from: u64,
    literals: Literals,
    facts: u64,
    cost: u64,
}

// What the literals over choice v + 1 cost, of which there is at most one.
fn cost_of_one(costs: [u16; 2], set: Literals, v: usize) -> u64 {
    let [of_yes, of_no] = costs;
    if fillings::has(set.yes, v) {
        u64::from(of_yes)
    } else if fillings::has(set.no, v) {
        u64::from(of_no)
    } else {
        0
    }
}

// The sum of the costs of a set of literals.
fn cost_of(costs: &[[u16; 2]; limits::COSTS], set: Literals) -> u64 {
    let mut sum = 0u64;
    for (v, of_choice) in costs.iter().enumerate() {
        sum = sum.wrapping_add(cost_of_one(*of_choice, set, v));
    }
    sum
}

// How many literals over choices a set has, of which there is at most one over each.
fn count_of(set: Literals) -> u64 {
    let choices = fillings::first(usize::from(limits::CHOICES));
    u64::from(((set.yes | set.no) & choices).count_ones())
}

// Whether `a` went before `b` in the order before E6: by cost, then by the goal, then by the set.
fn went_before(a: Candidate, b: Candidate) -> bool {
    (a.cost, a.goal, a.from) < (b.cost, b.goal, b.from)
}

// Whether `a` goes before `b`: by cost, then by the number of facts, then as before.
fn goes_before(a: Candidate, b: Candidate) -> bool {
    (a.cost, a.facts, a.goal, a.from) < (b.cost, b.facts, b.goal, b.from)
}

// The better of a candidate and the best so far in an order, and whether the two cost the same.
fn better<F: Fn(Candidate, Candidate) -> bool>(
    made: Candidate,
    best: Option<Candidate>,
    order: F,
) -> Candidate
    requires { F.IsAlwaysCallable order }
{
    let Some(best) = best else {
        return made;
    };
    let kept = if order(made, best) { made } else { best };
    Candidate {
        tied: kept.tied || made.cost == best.cost,
        ..kept
    }
}

// The better of a candidate and the best so far, in each order.
fn better_of(made: Candidate, best: Best) -> Best {
    Best {
        now: Some(better(made, best.now, goes_before)),
        before: Some(better(made, best.before, went_before)),
    }
}

// One goal for a set of known literals: the better of the two and the best so far.
fn tried(terms: Terms, set: Set, goal: Literals, best: Best) -> Best {
    let opposite = fillings::opposite(goal);
    if fillings::possible(terms.all, fillings::joined(set.literals, opposite)) {
        return best;
    }
    let made = Candidate {
        cost: set.cost.wrapping_add(cost_of(terms.costs, opposite)),
        facts: set.facts,
        goal: goal.yes | goal.no,
        from: set.from,
        tied: false,
    };
    better_of(made, best)
}

// Every goal for a set of known literals.
fn over_goals(terms: Terms, set: Set, goals: Literals, best: Best) -> Best {
    let mut kept = best;
    for v in 0..usize::from(limits::CHOICES) {
        let goal = fillings::within(goals, fillings::power(v));
        if !fillings::is_empty(goal) {
            kept = tried(terms, set, goal, kept);
        }
    }
    kept
}

// One set of variables: passed over where one of them is not known, or where its literals cost more than the best so far.
fn one_set(terms: Terms, known: Literals, goals: Literals, from: u64, best: Best) -> Best {
    if from & !(known.yes | known.no) != 0 {
        return best;
    }
    let literals = fillings::within(known, from);
    let cost = cost_of(terms.costs, literals);
    if best.now.is_some_and(|now| now.cost < cost) {
        return best;
    }
    let set = Set {
        from,
        literals,
        facts: count_of(literals),
        cost,
    };
    over_goals(terms, set, goals, best)
}

// Every set of known literals, for every goal: the literals of the consequence that are not known.
fn over_sets(terms: Terms, known: Literals, goals: Literals) -> Best {
    let mut best = Best::default();
    let end = (known.yes | known.no).wrapping_add(1);
    for from in 0..end {
        best = one_set(terms, known, goals, from, best);
    }
    best
}

// The step from a known set, or that nothing is left: the best candidate, with all that follows from its reasons and is not
// known. A step is due wherever a goal is left, whether the reckoning finds a candidate or not.
pub fn next(
    all: &[u64],
    costs: &[[u16; 2]; limits::COSTS],
    choices: u64,
    known: Literals,
    consequence: Literals,
) -> Option<Taken> {
    let goals = fillings::less(consequence, known);
    if fillings::is_empty(goals) {
        return None;
    }
    let both = over_sets(Terms { all, costs }, known, goals);
    let best = both.now.unwrap_or_default();
    let before = both.before.unwrap_or_default();
    let reasons = fillings::within(known, best.from);
    let follows = fillings::forced(all, reasons, choices);
    Some(Taken {
        goal: fillings::within(goals, best.goal),
        reasons,
        new: fillings::less(follows, known),
        cost: best.cost,
        tied: best.tied,
        changed: best.goal != before.goal || best.from != before.from,
    })
}
