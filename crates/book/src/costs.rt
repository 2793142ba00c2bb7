// The CS records in a row: the costs of the choices, a row of two for each.
ghost use Rattle.std.specs.Prelude.{◌≡◌, ◌≤◌, length};
ghost use Rattle.records.specs.Limits.{max_choices};
ghost use Rattle.records.specs.Format.{cost_from, many};
ghost use Rattle.records.specs.Promises.{read_answer};
ghost use Rattle.book.specs.Answer.{table};

use records::refusal::Refusal;
use records::{Book, costs};

// The CS records of the choices, from a place on: their costs as rows of two, row by variable, column by sign, and the place after them.
pub fn read_costs_from(
    s: &[u8],
    choices: usize,
    from: usize,
) -> Result<([[u16; 2]; Book::MAX_CHOICES], usize), Refusal>
    requires choices_le_max_choices { choices ≤ max_choices }
    requires from_in_bounds { from ≤ length s.now }
    ensures { result ≡ read_answer (λ cs next. (table cs, next)) (many (cost_from s.now) choices 1 from) }
{
    let mut table = [[0u16; 2]; Book::MAX_CHOICES];
    let mut place = from;
    for i in 0..choices {
        table[i] = costs::read_cost(&s[place..], i + 1).map_err(|kind| kind.at(place))?;
        place += 7;
    }
    Ok((table, place))
}
