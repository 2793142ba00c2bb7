// The consequence: the literals over choices that a set of literals forces with the rules. It is document 003's Algorithm 2,
// OptimalPropagate; a comment at each line names the line of the algorithm that it is.
// It differs from the paper in what is asked and answered: the first satisfiability answer (line 1) is tested, because a book
// without a model is refused; the paper's U is the choices, so that literals over choices only are kept; and the models are
// counted, so that it can be said how many were found. It differs in how the clause of line 5 is put: the search keeps no
// clause from one call to the next, so that the clause is one rule more for one search, which wants no blocking variable (lines
// 3 and 8), and the clauses of earlier rounds are left out, because the last one implies them.
#![tactic(auto)]

ghost use Rattle.std.specs.Prelude.{◌≡◌, [], ◌∷◌, ◌++◌, ◌^◌, ◌<◌, ◌≤◌, length};
ghost use Rattle.propagation.specs.Promises.{yes_masks, no_masks};
ghost use Rattle.problem.specs.Limits.{most_rules};
ghost use Rattle.problem.specs.Masked.{yes_in, no_in, Searchable};
ghost use Rattle.sat.specs.Promises.{Posed};
ghost use Rattle.consequence.specs.Algorithm2.{over_choices};
ghost use Rattle.consequence.specs.Promises.{Denied, Concluded};

use arrayvec::ArrayVec;
use literals::LiteralSet;
use problem::MaskedProblem;
use sat::Formula;

// Room for the rules of a problem and one more.
const ROOM: usize = MaskedProblem::RULES_AND_ONE;

// What is forced: the literals kept at the end, and how many models were found for it.
#[derive(Clone, Copy, Debug, PartialEq, Eq)]
pub struct Forced {
    pub kept: LiteralSet,
    pub models: u32,
}

// The rules, and one more after the last.
fn with_one_more(rules: &[LiteralSet], last: LiteralSet) -> ArrayVec<LiteralSet, ROOM>
    requires { length rules.now ≤ most_rules }
    ensures { result.items ≡ rules.now ++ (last ∷ []) }
{
    let mut all = ArrayVec::new();
    all.try_extend_from_slice(rules).unwrap();
    all.push(last);
    all
}

// A model that denies some literal of a set, or that there is none. The values that deny the set are preferred, so that few
// models are wanted.
fn deny(f: Formula, p: LiteralSet, kept: LiteralSet) -> Option<u64>
    requires posed { Posed f.variables (yes_masks f.rules.now) (no_masks f.rules.now) p.yes p.no }
    requires few_rules { length f.rules.now ≤ most_rules }
    requires yes_bound { kept.yes < 2 ^ f.variables }
    requires no_bound { kept.no < 2 ^ f.variables }
    ensures { Denied f.entry.variables (yes_masks f.entry.rules.now) (no_masks f.entry.rules.now) p.yes p.no kept result }
{
    // 5: C ← C ∧ (¬bᵢ ∨ ⋁ over x ∈ μ of ¬x)
    let clause = LiteralSet {
        yes: kept.no,
        no: kept.yes,
    };
    let rules = with_one_more(f.rules, clause);
    // 6: sat?, μ' ← SAT(I ∧ {bᵢ})
    let more = Formula {
        variables: f.variables,
        rules: rules.as_slice(),
    };
    sat::search(more, p, kept.no)
}

// The literals over choices that are true in a model.
fn over_choices(m: u64, choices: u64) -> LiteralSet
    ensures { result ≡ over_choices choices m }
{
    LiteralSet {
        yes: sets::intersection(m, choices),
        no: sets::difference(choices, m),
    }
}

// The literals over choices that a set forces with the rules, or that no filling obeys the rules and makes the set true.
#[tactic(auto, using(crate::proofs::NarrowLaws::round_laws))]
pub fn propagate(f: Formula, choices: u64, p: LiteralSet) -> Option<Forced>
    requires posed { Posed f.variables (yes_masks f.rules.now) (no_masks f.rules.now) p.yes p.no }
    requires few_rules { length f.rules.now ≤ most_rules }
    requires choices_bound { choices < 2 ^ f.variables }
    ensures { Concluded f.entry.variables (yes_masks f.entry.rules.now) (no_masks f.entry.rules.now) choices p.yes p.no result }
{
    // 1: sat?, μ ← SAT(I)
    let m = sat::search(f, p, 0)?;
    // 2: μ ← {x | x ∈ μ : var(x) ∈ U}
    let mut kept = over_choices(m, choices);
    let mut models = 1u32;
    // 3: bᵢ ← a new blocking variable (none is wanted)
    // 4: while true do
    loop {
        // 5, 6: C ← C ∧ (¬bᵢ ∨ ⋁ over x ∈ μ of ¬x); sat?, μ' ← SAT(I ∧ {bᵢ})
        let next = deny(f, p, kept);
        // 7: if ¬sat? then
        let Some(m) = next else {
            // 8: add clause (¬bᵢ) to SAT solver (the clause is gone with its search)
            // 9: return μ
            return Some(Forced { kept, models });
        };
        // 11: μ ← μ ∩ {x' | x' ∈ μ' : var(x') ∈ U}
        kept = kept.intersection(over_choices(m, choices));
        models += 1;
    }
}

// The same of a problem and its given facts.
pub fn of_problem(p: &MaskedProblem) -> Option<Forced>
    requires { Searchable p.now }
    ensures { Concluded p.now.variables (yes_in p.now) (no_in p.now) p.now.choices p.now.facts.yes p.now.facts.no result }
{
    propagate(p.formula(), p.choices, p.facts)
}
