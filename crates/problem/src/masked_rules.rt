// The rules of a problem, each as two masks, as a list with room for the most that a problem can have.
ghost use Rattle.std.specs.Prelude.{◌≡◌, ◌<◌, ◌≤◌, [], ◌∷◌, ◌++◌, length};
ghost use Rattle.problem.specs.Limits.{most_rules};

use crate::MaskedProblem;
use literals::LiteralSet;
use std::marker::Model;

// A list of its own and not an `ArrayVec`, since a problem is `Copy`. So the rows after the last rule are blank: a list then says all of its array, and a
// copy is made of the list that contracts see.
#[derive(Clone, Copy)]
pub struct MaskedRules {
    count: usize,
    rows: [LiteralSet; MaskedProblem::MAX_RULES],
}

impl Model for MaskedRules {
    ghost use Rattle.std.specs.Prelude.{List, take, length};
    ghost use Rattle.literals.specs.declared.LiteralSet as literals;
    ghost use Rattle.records.specs.Rows.{RowsKept, rows_of};
    ghost use Rattle.records.specs.Laws.Rows.{count_back, rows_back};
    ghost use Rattle.problem.specs.Limits.{most_rules, no_literals};

    ghost Value = { List literals.LiteralSet };

    ghost view = { λ l. take l.count l.rows };

    ghost invariant = { λ l. RowsKept most_rules no_literals l.count l.rows };

    ghost inverse = { λ rules. record { count = length rules; rows = rows_of most_rules no_literals rules } };

    ghost inverse_ok = { λ l kept i. record { count = count_back kept i; rows = rows_back kept i } };
}

impl MaskedRules {
    // The row after the last rule.
    const BLANK: LiteralSet = LiteralSet { yes: 0, no: 0 };

    // No rules.
    pub fn new() -> Self
        ensures { result ≡ [] }
    {
        MaskedRules {
            count: 0,
            rows: [MaskedRules::BLANK; MaskedProblem::MAX_RULES],
        }
    }

    // One rule more, the last.
    pub fn push(&mut self, rule: LiteralSet)
        requires { length self.old < most_rules }
        ensures { self.new ≡ self.old ++ (rule ∷ []) }
    {
        self.rows[self.count] = rule;
        self.count += 1;
    }

    // The rules, in their order.
    pub fn as_slice(&self) -> &[LiteralSet]
        ensures rules { result.now ≡ self.now }
        ensures few_rules { length result.now ≤ most_rules }
    {
        &self.rows[..self.count]
    }
}
