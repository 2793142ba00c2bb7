// Which fillings are models of a text, by the numbers that stand in it, and which are models of a book, by its bytes. Bit
// v - 1 of a filling stands for variable v.
use samples::build;

// Whether a literal is true.
fn is_true(filling: u64, literal: u8) -> bool {
    let bit = build::variable(literal).wrapping_sub(1) % 64;
    let yes = (filling >> bit) % 2 == 1;
    yes == (literal < 128)
}

// Whether a filling satisfies every clause as it stands in the text, repeats and opposites included.
pub fn satisfies(numbers: &[u8], filling: u64) -> bool {
    let mut met = false;
    for &n in numbers {
        if n == 0 && !met {
            return false;
        }
        met = n != 0 && (met || is_true(filling, n));
    }
    true
}

// What the next byte of a book is taken for.
#[derive(Clone, Copy, Debug, PartialEq, Eq)]
enum Awaited {
    FirstLetter,
    SecondLetter,
    Count,
    Literal,
    End,
    Nothing,
}

// A walk over the bytes of a book behind its costs: what the next byte is, how many literals of the rule in hand are to
// come and whether one of them was true, how many rules came, and whether each of them was obeyed.
#[derive(Clone, Copy)]
struct Walk {
    awaited: Awaited,
    left: u8,
    met: bool,
    rules: u8,
    obeyed: bool,
}

// The rule in hand may be at its end.
fn rule_ends(w: Walk) -> Walk {
    if w.left > 0 {
        return w;
    }
    Walk {
        awaited: Awaited::FirstLetter,
        obeyed: w.obeyed && w.met,
        ..w
    }
}

// A rule's count.
fn rule_begins(w: Walk, count: u8) -> Walk {
    rule_ends(Walk {
        awaited: Awaited::Literal,
        left: count,
        met: false,
        rules: w.rules.wrapping_add(1),
        ..w
    })
}

// A rule's literal.
fn literal(w: Walk, filling: u64, b: u8) -> Walk {
    rule_ends(Walk {
        left: w.left.wrapping_sub(1),
        met: w.met || is_true(filling, b),
        ..w
    })
}

// A byte that leads on where it is the one that is due, and to a state of no return where it is not.
fn due(w: Walk, so: bool, awaited: Awaited) -> Walk {
    Walk {
        awaited,
        obeyed: w.obeyed && so,
        ..w
    }
}

fn walked(w: Walk, filling: u64, b: u8) -> Walk {
    match w.awaited {
        Awaited::FirstLetter if b == b'E' => due(w, true, Awaited::End),
        Awaited::FirstLetter => due(w, b == b'R', Awaited::SecondLetter),
        Awaited::SecondLetter => due(w, b == b'L', Awaited::Count),
        Awaited::Count => rule_begins(w, b),
        Awaited::Literal => literal(w, filling, b),
        Awaited::End => due(w, b == b'N', Awaited::Nothing),
        Awaited::Nothing => due(w, false, Awaited::Nothing),
    }
}

// Whether a filling obeys the rules of a book without facts. None does where the bytes are not those of one.
pub fn obeys(book: &[u8], filling: u64) -> bool {
    let mut w = Walk {
        awaited: Awaited::FirstLetter,
        left: 0,
        met: false,
        rules: 0,
        obeyed: true,
    };
    for &b in book.get(build::rules_begin(book)..).unwrap_or_default() {
        w = walked(w, filling, b);
    }
    w.obeyed && w.awaited == Awaited::Nothing && w.rules == build::byte_at(book, 4)
}
