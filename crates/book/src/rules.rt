// The RL records in a row, each with the WN that may follow it: the rules, each kept as two masks and its window.
ghost use Rattle.std.specs.Prelude.{◌≡◌, ◌≤◌, length};
ghost use Rattle.sets.specs.Sets.{width};
ghost use Rattle.records.specs.Limits.{max_rules};
ghost use Rattle.records.specs.Format.{window_from, rule_from, many};
ghost use Rattle.records.specs.Promises.{read_answer};
ghost use Rattle.book.specs.Answer.{kept_rule, kept_rules};

use dates::Applies;
use records::refusal::Refusal;
use records::rule_list::RuleList;
use records::{Rule, mark, rules, windows};

// The WN record that may stand at a place, after a rule: when the rule applies, and the place after the WN.
fn read_window_from(s: &[u8], from: usize) -> Result<(Applies, usize), Refusal>
    requires { from ≤ length s.now }
    ensures { result ≡ read_answer (λ applies next. (applies, next)) (window_from s.now from) }
{
    if !mark::begins(&s[from..], mark::WN) {
        return Ok((Applies::Always, from));
    }
    let window = windows::read_window(&s[from..]).map_err(|kind| kind.at(from))?;
    Ok((Applies::During(window), from + 15))
}

// The RL record at a place, and the WN that may follow it: the rule, and the place after them.
fn read_rule_from(s: &[u8], n: usize, from: usize) -> Result<(Rule, usize), Refusal>
    requires n_le_width { n ≤ width }
    requires from_in_bounds { from ≤ length s.now }
    ensures { result ≡ read_answer (λ r next. (kept_rule r, next)) (rule_from s.now n from) }
{
    let rule = rules::read_rule(&s[from..], n).map_err(|kind| kind.at(from))?;
    let (applies, next) = read_window_from(s, from + rule.len)?;
    Ok((
        Rule {
            literals: rule.set,
            applies,
        },
        next,
    ))
}

// The rules, from a place on, and the place after them.
pub fn read_rules(
    s: &[u8],
    n: usize,
    count: usize,
    from: usize,
) -> Result<(RuleList, usize), Refusal>
    requires n_le_width { n ≤ width }
    requires count_le_max_rules { count ≤ max_rules }
    requires from_in_bounds { from ≤ length s.now }
    ensures { result ≡ read_answer (λ rs next. (kept_rules rs, next)) (many (λ i. rule_from s.now n) count 1 from) }
{
    let mut rules = RuleList::new();
    let mut place = from;
    for _ in 0..count {
        let (rule, next) = read_rule_from(s, n, place)?;
        rules.push(rule);
        place = next;
    }
    Ok((rules, place))
}
