// Clauses: the literals of one as two masks, and the clauses that are kept.
ghost use Rattle.std.specs.Prelude.{◌≡◌, suc, ◌≤◌, length};
ghost use Rattle.records.specs.Limits.{max_variables, max_rules};
ghost use Rattle.records.specs.Promises.{read_answer};
ghost use Rattle.dimacs.specs.Text.{literals_from, clause_from, clauses_from};
ghost use Rattle.dimacs.specs.Promises.{clause_read, clauses_read, clashes, allowed};

use crate::bytes::Class;
use crate::{bytes, numbers};
use arrayvec::ArrayVec;
use literals::LiteralSet;
use records::Book;
use records::refusal::{Refusal, RefusalKind};

// The most clauses that are kept: a capacity has to be a constant with a name of its own.
pub const MAX_RULES: usize = Book::MAX_RULES;

// The literals of a clause, and the place after its closing 0.
#[derive(Clone, Copy, Debug, PartialEq, Eq)]
struct Clause {
    set: LiteralSet,
    next: usize,
}

// The kept clauses, and the place after all clauses.
#[derive(Drop)]
pub struct Clauses {
    pub kept: ArrayVec<LiteralSet, MAX_RULES>,
    pub next: usize,
}

// Whether a clause holds a literal and its opposite.
#[tactic(auto, unfolding(crate::specs::Promises::clashes, sets::specs::Sets::disjoint))]
fn is_dropped(set: LiteralSet) -> bool
    ensures { result ≡ clashes set }
{
    sets::intersection(set.yes, set.no) != 0
}

// Whether a clause is dropped, or has few enough literals left.
#[tactic(auto, using(log_form::specs::Laws::Lists::list_length_is), unfolding(crate::specs::Promises::allowed, literals::specs::LiteralSets::variables))]
fn is_allowed(set: LiteralSet) -> bool
    ensures { result ≡ allowed set }
{
    is_dropped(set) || sets::count(set.variables()) as usize <= Book::MAX_LITERALS
}

// The literals of a clause over `v` variables, up to its closing 0.
fn read_literals(s: &[u8], v: usize, from: usize) -> Result<Clause, Refusal>
    requires { v ≤ max_variables }
    ensures { result ≡ read_answer clause_read (literals_from s.now v (suc (length s.now)) from) }
{
    let mut set = LiteralSet::EMPTY;
    let mut at = from;
    loop {
        let read = numbers::next_signed(s, v, at)?;
        at = read.next;
        if read.literal == 0 {
            return Ok(Clause { set, next: at });
        }
        set = set.with(read.literal);
    }
}

// A clause over `v` variables, judged at its closing 0.
fn read_clause(s: &[u8], v: usize, from: usize) -> Result<Clause, Refusal>
    requires { v ≤ max_variables }
    ensures { result ≡ read_answer clause_read (clause_from s.now v from) }
{
    let clause = read_literals(s, v, from)?;
    if !is_allowed(clause.set) {
        return Err(RefusalKind::TextLimits.at(bytes::run_end(s, from, Class::Gap)));
    }
    Ok(clause)
}

// So many clauses, from a place on. Those that are dropped are read and not kept.
pub fn read_clauses(s: &[u8], v: usize, count: usize, from: usize) -> Result<Clauses, Refusal>
    requires v_le_max_variables { v ≤ max_variables }
    requires count_le_max_rules { count ≤ max_rules }
    ensures { result ≡ read_answer clauses_read (clauses_from s.now v count from) }
{
    let mut kept = ArrayVec::new();
    let mut next = from;
    for _ in 0..count {
        let clause = read_clause(s, v, next)?;
        next = clause.next;
        if !is_dropped(clause.set) {
            kept.push(clause.set);
        }
    }
    Ok(Clauses { kept, next })
}
