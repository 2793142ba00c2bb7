// The FA records in a row: the given facts, and EN.
ghost use Rattle.std.specs.Prelude.{◌≡◌, ◌≤◌, suc, length};
ghost use Rattle.sets.specs.Sets.{width};
ghost use Rattle.records.specs.Format.{facts_from};
ghost use Rattle.records.specs.Promises.{read_answer, masks};

use literals::LiteralSet;
use records::refusal::Refusal;
use records::{facts, mark};

// The FA records from a place on, and EN: the facts, and the place after EN.
pub fn read_facts(s: &[u8], u: usize, from: usize) -> Result<(LiteralSet, usize), Refusal>
    requires u_le_width { u ≤ width }
    requires from_in_bounds { from ≤ length s.now }
    ensures { result ≡ read_answer (λ ls next. (masks ls, next)) (facts_from s.now u (suc (length s.now)) 0 from) }
{
    let mut set = LiteralSet::default();
    let mut last: usize = 0;
    let mut place = from;
    // A `while`, since no count says how many facts there are: the first record that is none ends them.
    while mark::begins(&s[place..], mark::FA) {
        let l = facts::read_fact(&s[place..], u, last).map_err(|kind| kind.at(place))?;
        set = set.with(l);
        last = literals::variable(l) as usize;
        place += 3;
    }
    mark::opened(&s[place..], mark::EN, 2).map_err(|kind| kind.at(place))?;
    Ok((set, place + 2))
}
