// The bytes of the book, put into a lent buffer.
ghost use Rattle.std.specs.Prelude.{◌≡◌, ◌+◌, ◌≤◌, length, map};
ghost use Rattle.records.specs.Limits.{max_variables, max_rules};
ghost use Rattle.log_form.specs.Promises.{Put};
ghost use Rattle.dimacs.specs.Import.{cost_bytes, costs_bytes, rule_bytes, rules_bytes};
ghost use Rattle.dimacs.specs.Promises.{set_rule, head_bytes, written_bytes};

use literals::LiteralSet;
use records::{Book, mark};

// CS of a choice, whose costs are 1.
#[tactic(auto, unfolding(crate::specs::Import::cost_bytes, log_form::specs::Format::two_bytes))]
fn put_cost(out: &mut [u8], at: usize, choice: u8) -> usize
    requires { at + length (cost_bytes choice) ≤ length out.old }
    ensures { Put out.old at (cost_bytes choice) out.new result }
{
    let marked = log_form::put_bytes(out, at, &mark::CS);
    log_form::put_bytes(out, marked, &[choice, 0, 1, 0, 1])
}

// The CS of choices 1 to `choices`.
#[tactic(auto, using(log_form::proofs::LeftLaws::left_length, crate::proofs::WritingLaws::costs_none, crate::proofs::WritingLaws::cost_room, crate::proofs::WritingLaws::costs_more, crate::proofs::WritingLaws::costs_all))]
fn put_costs(out: &mut [u8], at: usize, choices: u8) -> usize
    requires { at + length (costs_bytes choices 1) ≤ length out.old }
    ensures { Put out.old at (costs_bytes choices 1) out.new result }
{
    let mut next = at;
    for choice in 1..=choices {
        next = put_cost(out, next, choice);
    }
    next
}

// RL of a rule.
#[tactic(auto, using(log_form::proofs::StoreLaws::put_append, log_form::proofs::StoreLaws::put_length), unfolding(crate::specs::Import::rule_bytes))]
fn put_rule(out: &mut [u8], at: usize, set: LiteralSet) -> usize
    requires { at + length (rule_bytes (set_rule set)) ≤ length out.old }
    ensures { Put out.old at (rule_bytes (set_rule set)) out.new result }
{
    let marked = log_form::put_bytes(out, at, &mark::RL);
    log_form::put_list(out, marked, set)
}

// The RL of the rules.
#[tactic(auto, using(log_form::proofs::LeftLaws::left_length, crate::proofs::WritingLaws::rules_none, crate::proofs::WritingLaws::rule_room, crate::proofs::WritingLaws::rules_more, crate::proofs::WritingLaws::rules_all))]
fn put_rules(out: &mut [u8], at: usize, rules: &[LiteralSet]) -> usize
    requires { at + length (rules_bytes (map set_rule rules.now)) ≤ length out.old }
    ensures { Put out.old at (rules_bytes (map set_rule rules.now)) out.new result }
{
    let mut next = at;
    for &set in rules {
        next = put_rule(out, next, set);
    }
    next
}

// HD: V, U and R.
fn put_header(out: &mut [u8], variables: u8, choices: u8, rules: u8) -> usize
    requires { 5 ≤ length out.old }
    ensures { Put out.old 0 (head_bytes variables choices rules) out.new result }
{
    let marked = log_form::put_bytes(out, 0, &mark::HD);
    log_form::put_bytes(out, marked, &[variables, choices, rules])
}

// The whole book: HD, the CS, the RL, EN.
#[tactic(auto, using(log_form::proofs::StoreLaws::put_append, log_form::proofs::StoreLaws::put_length), unfolding(crate::specs::Promises::written_bytes))]
pub fn put_book(out: &mut [u8], variables: usize, rules: &[LiteralSet]) -> usize
    requires variables_le_max_variables { variables ≤ max_variables }
    requires few_rules { length rules.now ≤ max_rules }
    requires in_bounds { length (written_bytes variables rules.now) ≤ length out.old }
    ensures { Put out.old 0 (written_bytes variables rules.now) out.new result }
{
    let choices = variables.min(Book::MAX_CHOICES) as u8;
    let headed = put_header(out, variables as u8, choices, rules.len() as u8);
    let costed = put_costs(out, headed, choices);
    let ruled = put_rules(out, costed, rules);
    log_form::put_bytes(out, ruled, &mark::EN)
}
