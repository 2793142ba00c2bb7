// The rules of a book, as a list with room for the most that a book can have.
ghost use Rattle.std.specs.Prelude.{◌≡◌, ◌<◌, ◌≤◌, [], ◌∷◌, ◌++◌, length};
ghost use Rattle.records.specs.Limits.{max_rules};

use crate::{Book, Rule};
use dates::Applies;
use literals::LiteralSet;
use std::marker::Model;

// A list of its own and not an `ArrayVec`, since a book is `Copy`. So the rows after the last rule are blank: a list then says all of its array, and a copy
// is made of the list that contracts see.
#[derive(Clone, Copy)]
pub struct RuleList {
    count: usize,
    rows: [Rule; Book::MAX_RULES],
}

impl Model for RuleList {
    ghost use Rattle.std.specs.Prelude.{List, take, length};
    ghost use Rattle.records.specs.declared.Rule as kept;
    ghost use Rattle.records.specs.Limits.{max_rules};
    ghost use Rattle.records.specs.Rows.{RowsKept, rows_of, no_rule};
    ghost use Rattle.records.specs.Laws.Rows.{count_back, rows_back};

    ghost Value = { List kept.Rule };

    ghost view = { λ l. take l.count l.rows };

    ghost invariant = { λ l. RowsKept max_rules no_rule l.count l.rows };

    ghost inverse = { λ rules. record { count = length rules; rows = rows_of max_rules no_rule rules } };

    ghost inverse_ok = { λ l kept i. record { count = count_back kept i; rows = rows_back kept i } };
}

impl RuleList {
    // The row after the last rule.
    const BLANK: Rule = Rule {
        literals: LiteralSet { yes: 0, no: 0 },
        applies: Applies::Always,
    };

    // No rules.
    pub fn new() -> Self
        ensures { result ≡ [] }
    {
        RuleList {
            count: 0,
            rows: [RuleList::BLANK; Book::MAX_RULES],
        }
    }

    // One rule more, the last.
    pub fn push(&mut self, rule: Rule)
        requires { length self.old < max_rules }
        ensures { self.new ≡ self.old ++ (rule ∷ []) }
    {
        self.rows[self.count] = rule;
        self.count += 1;
    }

    // How many rules there are.
    pub fn len(&self) -> usize
        ensures { result ≡ length self.now }
    {
        self.as_slice().len()
    }

    // The rules, in their order.
    pub fn as_slice(&self) -> &[Rule]
        ensures rules { result.now ≡ self.now }
        ensures few_rules { length result.now ≤ max_rules }
    {
        &self.rows[..self.count]
    }
}
