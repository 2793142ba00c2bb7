// The problem as the code holds it, and how it is made from the rules of a book that are in force, here alone.
#![tactic(auto)]

ghost use Rattle.sets.specs.Sets.{width};
ghost use Rattle.std.specs.Prelude.{◌≡◌, ◌≤◌, length, true};
ghost use Rattle.dates.specs.Windows.{is_moment};
ghost use Rattle.problem.specs.Limits.{most_rules};
ghost use Rattle.problem.specs.Masked.{kept_in_force, masked_from};

pub mod masked_rules;

use book::Book;
use dates::Moment;
use literals::LiteralSet;
use masked_rules::MaskedRules;
use sat::Formula;

// The number of variables, the rules, each as two masks, the set of choices, the costs of the literals over choices, row by
// variable and column by sign, and the given facts. Bit v - 1 of a mask stands for variable v.
#[derive(Clone, Copy)]
pub struct MaskedProblem {
    pub variables: u32,
    pub rules: MaskedRules,
    pub choices: u64,
    pub costs: [[u16; 2]; Book::MAX_CHOICES],
    pub facts: LiteralSet,
}

// The limits of a problem: the book's rules and one more for each choice; and room for one rule beyond them, which the
// consequence asks for.
impl MaskedProblem {
    pub const MAX_RULES: usize = Book::MAX_RULES + Book::MAX_CHOICES;

    pub const RULES_AND_ONE: usize = MaskedProblem::MAX_RULES + 1;

    // The rules over the problem's variables, as a search is asked for them.
    pub fn formula(&self) -> Formula<'_>
        ensures variables { result.variables ≡ self.now.variables }
        ensures rules { result.rules.now ≡ self.now.rules }
        ensures few_rules { length result.rules.now ≤ most_rules }
    {
        Formula {
            variables: self.variables,
            rules: self.rules.as_slice(),
        }
    }
}

// The rules of a book that are in force at a moment, in the book's order.
#[tactic(auto, using(crate::proofs::InForceLaws::picked_laws))]
fn rules_in_force(b: &Book, moment: Moment) -> MaskedRules
    requires { is_moment moment ≡ true }
    ensures { result ≡ kept_in_force moment b.now.rules }
{
    let weekday = dates::weekday(moment.date);
    let mut rules = MaskedRules::new();
    for rule in b.rules.as_slice() {
        if dates::in_force(rule.applies, moment, weekday) {
            rules.push(rule.literals);
        }
    }
    rules
}

// The problem of a book at a moment.
pub fn of_book(b: &Book, moment: Moment) -> MaskedProblem
    requires variables_le_width { b.now.variables ≤ width }
    requires choices_le_width { b.now.choices ≤ width }
    requires moment_value { is_moment moment ≡ true }
    ensures { result ≡ masked_from moment b.now }
{
    MaskedProblem {
        variables: b.variables as u32,
        rules: rules_in_force(b, moment),
        choices: sets::full(b.choices as u32),
        costs: b.costs,
        facts: b.facts,
    }
}
