// The bytes of a text: what stands at a place, and runs of one kind of bytes.
ghost use Rattle.std.specs.Prelude.{◌≡◌};
ghost use Rattle.records.specs.Promises.{read_answer, place_after};
ghost use Rattle.dimacs.specs.Text.{is_blank, stands, after, one_or_more, word};
ghost use Rattle.dimacs.specs.Promises.{belongs};

use records::refusal::{Refusal, RefusalKind};

// Kinds of bytes: this byte, blanks, blanks and line ends, all but line ends, digits, digits from 1 to 9.
// A test handed over as a closure would be no plainer: each contract would need a clause more, that its calls are the test of specs/Text.
#[derive(Clone, Copy)]
pub enum Class {
    Is(u8),
    Blank,
    Gap,
    InLine,
    Digit,
    FirstDigit,
}

// Whether a byte is 20, 09 or 0D.
#[tactic(auto, unfolding(crate::specs::Text::is_blank))]
fn is_blank(b: u8) -> bool
    ensures { result ≡ is_blank b }
{
    matches!(b, b' ' | b'\t' | b'\r')
}

// Whether a byte is of a class.
#[tactic(auto, unfolding(crate::specs::Text::is_gap, crate::specs::Text::is_line_end, crate::specs::Text::is_digit, crate::specs::Text::is_first_digit))]
fn belongs(class: Class, b: u8) -> bool
    ensures { result ≡ belongs class b }
{
    match class {
        Class::Is(c) => b == c,
        Class::Blank => is_blank(b),
        Class::Gap => is_blank(b) || b == b'\n',
        Class::InLine => b != b'\n',
        Class::Digit => b.is_ascii_digit(),
        Class::FirstDigit => matches!(b, b'1'..=b'9'),
    }
}

// Whether a byte of a class stands at a place.
#[tactic(auto, unfolding(crate::specs::Text::stands))]
pub fn stands(s: &[u8], place: usize, class: Class) -> bool
    ensures { result ≡ stands s.now (belongs class) place }
{
    s.get(place).is_some_and(|&b| belongs(class, b))
}

// The place after the bytes of a class, from a place on.
pub fn run_end(s: &[u8], from: usize, class: Class) -> usize
    ensures { result ≡ after s.now (belongs class) from }
{
    // Not `skip`, which steps over the bytes before, and not `take_while`, which takes longer where the runs are short.
    let left = &s[from.min(s.len())..];
    let mut end = from;
    for &b in left {
        if !belongs(class, b) {
            return end;
        }
        end += 1;
    }
    end
}

// One or more bytes of a class.
#[tactic(auto, unfolding(crate::specs::Text::one_or_more, records::specs::Promises::read_answer))]
pub fn one_or_more(s: &[u8], place: usize, class: Class) -> Result<usize, Refusal>
    ensures { result ≡ read_answer place_after (one_or_more s.now (belongs class) place) }
{
    if !stands(s, place, class) {
        return Err(RefusalKind::Text.at(place));
    }
    Ok(run_end(s, place, class))
}

// The bytes of a word, one after the other.
#[tactic(auto, using(crate::proofs::ByteLaws::stands_within, crate::proofs::ByteLaws::spelled_none, crate::proofs::ByteLaws::spelled_wrong, crate::proofs::ByteLaws::spelled_more, crate::proofs::ByteLaws::spelled_all), unfolding(records::specs::Promises::read_answer))]
pub fn read_word(s: &[u8], w: &[u8], from: usize) -> Result<usize, Refusal>
    ensures { result ≡ read_answer place_after (word s.now w.now from) }
{
    let mut place = from;
    for &b in w {
        if !stands(s, place, Class::Is(b)) {
            return Err(RefusalKind::Text.at(place));
        }
        place += 1;
    }
    Ok(place)
}
