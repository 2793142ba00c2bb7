// The next step: the cheapest set of known literals that forces a literal still unknown.
#![tactic(auto)]

ghost use Rattle.std.specs.Prelude.{◌≡◌, ◌+◌, ◌^◌, ◌<◌, ◌≤◌, sum};
ghost use Rattle.sets.specs.Sets.{Apart, width};
ghost use Rattle.literals.specs.Literal.{variable, literal_of};
ghost use Rattle.records.specs.Limits.{max_choices};
ghost use Rattle.problem.specs.Problem.{literal_cost};
ghost use Rattle.problem.specs.Masked.{of_rules};
ghost use Rattle.step.specs.Meaning.{step_of};
ghost use Rattle.step.specs.Promises.{fact_unit, key_part, literal_weight, item_weight, Weighed, sum_of, aim_at, whole, open_goals, Ready};
ghost use Rattle.step.specs.Promises.{ReadyWithGoal, LeastUnder, LeastFound, Reasoned, Learnt, Chosen, step_in, answered, AskedIn, question_in, next_of};

use book::Book;
use literals::LiteralSet;
pub use log_form::Step;
use problem::MaskedProblem;
use reasons::{Aim, Goal, Part, Pool};

// The costs of the literals over choices: row by variable, column by sign.
type Costs = [[u16; 2]; Book::MAX_CHOICES];

// A weight for each variable of a choice.
type Weights = [u64; Book::MAX_CHOICES];

// The order of the candidates as one number: the cost, then the number of facts, then the goal's variable, then the set. Such
// a key is a sum: of what the goal gives and of what each known literal in the set gives. A key has room for sets of choices,
// for variables of choices and for their number.
const SETS: u64 = 1 << Book::MAX_CHOICES;

const VARIABLES: u64 = Book::MAX_CHOICES as u64;

const COUNTS: u64 = VARIABLES + 1;

// What a key gains for a goal's variable one higher, for one fact more, and for one unit of cost more.
const GOAL_UNIT: u64 = SETS;

const FACT_UNIT: u64 = VARIABLES * GOAL_UNIT;

const COST_UNIT: u64 = COUNTS * FACT_UNIT;

// The models that the search keeps, for one step. Over hard books of 32 choices half of them ask 1.8 times, a quarter 3.8
// times as many questions, and twice as many save a tenth of the time. They take 4 KB of the stack.
const POOL_SIZE: usize = 512;

// The literal over variable v + 1.
fn literal(v: u32, says: bool) -> i8
    requires { v < width }
    ensures { result ≡ literal_of v says }
{
    let l = (v + 1) as i8;
    if says { l } else { -l }
}

// The cost of a literal over a choice: row by variable, column by sign.
fn cost_of(costs: &Costs, l: i8) -> u16
    requires l_nonzero { 0 < variable l }
    requires l_bound { variable l ≤ max_choices }
    ensures { result ≡ literal_cost costs.now l }
{
    let row = (literals::variable(l) - 1) as usize;
    if 0 < l { costs[row][0] } else { costs[row][1] }
}

// The cost of the literal over variable v + 1 that says yes or no.
fn price(costs: &Costs, v: u32, says: bool) -> u16
    requires { v < max_choices }
    ensures { result ≡ literal_cost costs.now (literal_of v says) }
{
    cost_of(costs, literal(v, says))
}

// Part of a key: a cost, a number of facts, and what comes after them.
fn key_part(cost: u16, facts: u64, rest: u64) -> u64
    requires facts_bound { facts ≤ 1 }
    requires rest_lt_fact_unit { rest < fact_unit }
    ensures { result ≡ key_part cost facts rest }
{
    cost as u64 * COST_UNIT + facts * FACT_UNIT + rest
}

// What a literal over variable v + 1 adds to a key.
fn literal_weight(costs: &Costs, v: u32, says: bool) -> u64
    requires { v < max_choices }
    ensures { result ≡ literal_weight (literal_cost costs.now (literal_of v says)) v }
{
    let cost = price(costs, v, says);
    key_part(cost, 1, sets::single(v))
}

// What the known literal over variable v + 1 adds to a key, and 0 where there is none.
#[tactic(auto, using(crate::specs::Laws::Costs::weight_laws))]
fn weight(costs: &Costs, known: LiteralSet, v: u32) -> u64
    requires v_lt_max_choices { v < max_choices }
    requires apart { Apart known.yes known.no }
    ensures { result ≡ item_weight costs.now known.yes known.no v }
{
    if sets::has(known.yes, v) {
        literal_weight(costs, v, true)
    } else if sets::has(known.no, v) {
        literal_weight(costs, v, false)
    } else {
        0
    }
}

// The weights of the known literals, by variable.
#[tactic(auto, using(crate::specs::Laws::Costs::weighed_laws))]
fn weigh(costs: &Costs, known: LiteralSet) -> Weights
    requires { Apart known.yes known.no }
    ensures { Weighed costs.now known.yes known.no result }
{
    let mut weights = [0u64; Book::MAX_CHOICES];
    for i in 0..Book::MAX_CHOICES {
        weights[i] = weight(costs, known, i as u32);
    }
    weights
}

// The goal over variable v + 1.
fn aim_at(costs: &Costs, known: LiteralSet, v: u32, says: bool) -> Aim
    requires { v < max_choices }
    ensures { result ≡ aim_at costs.now known v says }
{
    let cost = price(costs, v, !says);
    let key = key_part(cost, 0, v as u64 * GOAL_UNIT);
    Aim {
        goal: v,
        says,
        known,
        key,
    }
}

// All sets of known variables.
fn all_sets(aim: Aim) -> Part
    ensures { result ≡ whole aim }
{
    Part {
        chosen: 0,
        limit: aim.known.variables(),
        key: aim.key,
    }
}

// The variables of the goals.
fn open_goals(consequence: LiteralSet, known: LiteralSet) -> u64
    ensures { result ≡ open_goals consequence known }
{
    consequence.difference(known).variables()
}

// The least of a bound and the keys of all candidates. The goals share the least key so far and the pool, lowest variable
// first. A goal says what the consequence says of its variable.
#[tactic(auto, using(crate::specs::Laws::AllGoals::searching_laws))]
fn cheapest_under(
    problem: &MaskedProblem,
    weights: &Weights,
    consequence: LiteralSet,
    known: LiteralSet,
    bound: u64,
) -> u64
    requires ready { of_rules Ready problem.now problem.now.costs consequence known }
    requires weighed { Weighed problem.now.costs known.yes known.no weights.now }
    ensures { of_rules LeastUnder problem.now problem.now.costs consequence known bound result }
{
    let formula = problem.formula();
    let mut space = [0u64; POOL_SIZE];
    let mut pool = Pool::new(&mut space);
    let mut best = bound;
    for v in sets::members(open_goals(consequence, known)) {
        let aim = aim_at(&problem.costs, known, v, sets::has(consequence.yes, v));
        let goal = Goal {
            formula,
            weights,
            aim,
        };
        best = reasons::explore(goal, all_sets(aim), &mut pool, best);
    }
    best
}

// The sum of all weights.
fn sum(weights: &Weights) -> u64
    requires { sum weights.now < 2 ^ width }
    ensures { result ≡ sum weights.now }
{
    weights.iter().sum()
}

// The key of all that is known with one goal.
#[tactic(auto, using(crate::specs::Laws::Costs::sum_all))]
fn known_key(weights: &Weights, aim: Aim) -> u64
    requires { aim.key + sum_of weights.now < 2 ^ width }
    ensures { result ≡ aim.key + sum_of weights.now }
{
    aim.key + sum(weights)
}

// The least key of all candidates. What is known forces each goal, so all of it with the lowest goal is a candidate, and its
// key a bound.
#[tactic(auto, using(crate::specs::Laws::AllGoals::bound_laws))]
fn cheapest(problem: &MaskedProblem, consequence: LiteralSet, known: LiteralSet) -> u64
    requires { of_rules ReadyWithGoal problem.now problem.now.costs consequence known }
    ensures { of_rules LeastFound problem.now problem.now.costs consequence known result }
{
    let weights = weigh(&problem.costs, known);
    let v = sets::lowest(open_goals(consequence, known));
    let aim = aim_at(&problem.costs, known, v, sets::has(consequence.yes, v));
    let bound = known_key(&weights, aim);
    cheapest_under(problem, &weights, consequence, known, bound)
}

// The new literals: what the reasons force over choices, less what is known. The reasons have a model.
#[tactic(auto, using(crate::proofs::Steps::learn_laws))]
fn learn(problem: &MaskedProblem, reasons: LiteralSet, known: LiteralSet) -> LiteralSet
    requires { of_rules Reasoned problem.now problem.now.choices reasons }
    ensures { of_rules Learnt problem.now problem.now.choices reasons known result }
{
    match consequence::propagate(problem.formula(), problem.choices, reasons) {
        None => known,
        Some(forced) => forced.kept.difference(known),
    }
}

// The step that a key stands for.
#[tactic(auto, using(crate::proofs::Steps::step_laws))]
fn step_of(problem: &MaskedProblem, consequence: LiteralSet, known: LiteralSet, best: u64) -> Step
    requires { of_rules Chosen problem.now problem.now.choices known best }
    ensures { result ≡ answered (step_in problem.now consequence known best) }
{
    let set = best % SETS;
    let v = (best / GOAL_UNIT % VARIABLES) as u32;
    let cost = (best / COST_UNIT) as u16;
    let goals = consequence.difference(known);
    let goal = literal(v, sets::has(goals.yes, v));
    let reasons = LiteralSet {
        yes: sets::intersection(set, known.yes),
        no: sets::intersection(set, known.no),
    };
    let new = learn(problem, reasons, known);
    Step {
        goal,
        reasons,
        new,
        cost,
    }
}

// The next step, or that every literal of the consequence is known.
#[tactic(auto, using(crate::proofs::Steps::answer_laws))]
pub fn next_step(
    problem: &MaskedProblem,
    consequence: LiteralSet,
    known: LiteralSet,
) -> Option<Step>
    requires { AskedIn problem.now consequence known }
    ensures { result ≡ next_of (step_of (question_in problem.now consequence known)) }
{
    let goals = open_goals(consequence, known);
    if goals == 0 {
        return None;
    }
    let best = cheapest(problem, consequence, known);
    Some(step_of(problem, consequence, known, best))
}
