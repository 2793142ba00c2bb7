// The fillings that obey a book's rules restricted to its choices, as a set: one bit for each filling of the choices.
use crate::fillings;
use samples::reckon::Reckoned;

#[derive(Clone, Copy, Debug, Default, PartialEq, Eq)]
pub struct Restricted {
    bits: [u64; Restricted::WORDS],
}

impl Restricted {
    // The words of a set, which have bits for ten choices.
    pub const WORDS: usize = 16;

    pub const CHOICES: usize = 10;
}

// One filling of the choices more. Where it has no bit, the set stays as it is.
fn with(mut set: Restricted, filling: u64) -> Restricted {
    let word = (filling / 64 % 65536) as usize;
    if word < Restricted::WORDS {
        set.bits[word] |= fillings::power((filling % 64) as usize);
    }
    set
}

// The set of a book, unless it has too many choices, or too many variables to be gone through.
pub fn of_book(b: &Reckoned) -> Option<Restricted> {
    if b.choices > Restricted::CHOICES {
        return None;
    }
    let choices = fillings::first(b.choices);
    let mut set = Restricted::default();
    for filling in 0..fillings::number_of(b.variables)? {
        if fillings::obeys(b.rules.as_slice(), filling) {
            set = with(set, filling & choices);
        }
    }
    Some(set)
}

// Whether two sets are there and are the same.
pub fn same(a: Option<Restricted>, b: Option<Restricted>) -> bool {
    a.is_some() && a == b
}
