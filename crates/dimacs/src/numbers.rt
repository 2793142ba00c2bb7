// Numbers of a text, and literals.
ghost use Rattle.std.specs.Prelude.{◌≡◌, ◌-◌, ◌≤◌, ◌<◌, min};
ghost use Rattle.records.specs.Limits.{max_variables};
ghost use Rattle.records.specs.Refusals.{number_of};
ghost use Rattle.records.specs.Promises.{read_answer};
ghost use Rattle.dimacs.specs.Text.{numeral, number, number_up_to, signed, next_signed};
ghost use Rattle.dimacs.specs.Promises.{too_large, capped, number_read, literal_read};

use crate::bytes;
use crate::bytes::Class;
use records::refusal::{Refusal, RefusalKind};

// A number this large is over every limit: the digits after it are passed over and change nothing.
const TOO_LARGE: usize = 1000;

// A number, and the place after it.
#[derive(Clone, Copy, Debug, PartialEq, Eq)]
pub struct Number {
    pub value: usize,
    pub next: usize,
}

// A literal of a clause or the closing 0, and the place after it.
#[derive(Clone, Copy, Debug, PartialEq, Eq)]
pub struct Signed {
    pub literal: i8,
    pub next: usize,
}

// The number that digits are, or TOO_LARGE where it is larger.
#[tactic(auto, using(crate::proofs::NumberLaws::summed_none, crate::proofs::NumberLaws::summed_more, crate::proofs::NumberLaws::summed_all))]
fn capped_value(digits: &[u8]) -> usize
    ensures { result ≡ min (numeral 0 digits.now) too_large }
{
    let mut n: usize = 0;
    for &b in digits {
        n = (10 * n + b.saturating_sub(b'0') as usize).min(TOO_LARGE);
    }
    n
}

// A number, or TOO_LARGE for a larger one.
#[tactic(auto, using(crate::proofs::ByteLaws::stands_within, crate::proofs::ByteLaws::after_from, crate::proofs::ByteLaws::after_within, crate::proofs::NumberLaws::number_zero), unfolding(records::specs::Promises::read_answer))]
fn read_number(s: &[u8], place: usize) -> Result<Number, Refusal>
    ensures { result ≡ read_answer capped (number s.now place) }
{
    if bytes::stands(s, place, Class::Is(b'0')) {
        return Ok(Number {
            value: 0,
            next: place + 1,
        });
    }
    if !bytes::stands(s, place, Class::FirstDigit) {
        return Err(RefusalKind::Text.at(place));
    }
    let next = bytes::run_end(s, place, Class::Digit);
    Ok(Number {
        value: capped_value(&s[place..next]),
        next,
    })
}

// A number of at most `most`; a larger one is refused with `over` at this place.
pub fn read_up_to(
    s: &[u8],
    from: usize,
    most: usize,
    over: RefusalKind,
    place: usize,
) -> Result<Number, Refusal>
    requires { most < too_large }
    ensures { result ≡ read_answer number_read (number_up_to s.now most (number_of over) place from) }
{
    let n = read_number(s, from)?;
    if most < n.value {
        return Err(over.at(place));
    }
    Ok(n)
}

// A number of a clause over `v` variables, as the signed byte that it is.
#[tactic(auto, using(crate::proofs::ByteLaws::stands_within))]
fn read_signed(s: &[u8], v: usize, place: usize) -> Result<Signed, Refusal>
    requires { v ≤ max_variables }
    ensures { result ≡ read_answer literal_read (signed s.now v place) }
{
    if !bytes::stands(s, place, Class::Is(b'-')) {
        let n = read_up_to(s, place, v, RefusalKind::Text, place)?;
        return Ok(Signed {
            literal: n.value as i8,
            next: n.next,
        });
    }
    if !bytes::stands(s, place + 1, Class::FirstDigit) {
        return Err(RefusalKind::Text.at(place + 1));
    }
    let n = read_up_to(s, place + 1, v, RefusalKind::Text, place)?;
    Ok(Signed {
        literal: -(n.value as i8),
        next: n.next,
    })
}

// The next number of a clause, after blanks or line ends.
pub fn next_signed(s: &[u8], v: usize, from: usize) -> Result<Signed, Refusal>
    requires { v ≤ max_variables }
    ensures { result ≡ read_answer literal_read (next_signed s.now v from) }
{
    let place = bytes::one_or_more(s, from, Class::Gap)?;
    read_signed(s, v, place)
}
