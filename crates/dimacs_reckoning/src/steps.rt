// What one byte does to the state. A fault shows as soon as no byte that could follow would mend it: a number that is too
// large stays so with more digits.
ghost use Rattle.std.specs.Prelude.{◌<◌};

use crate::machine::{Machine, State};
use crate::reckon::Refused;
use samples::{build, limits};

// The most that V and R may be.
const VARIABLES: u64 = limits::VARIABLES as u64;

const CLAUSES: u64 = limits::RULES as u64;

fn is_blank(b: u8) -> bool {
    matches!(b, b' ' | b'\t' | b'\r')
}

fn is_gap(b: u8) -> bool {
    b == b'\n' || is_blank(b)
}

// The value of a digit.
fn digit(b: u8) -> u64
    ensures { result < 256 }
{
    u64::from(b.wrapping_sub(b'0'))
}

// The state that a byte leads to where it may stand.
fn state_if(may_stand: bool, state: State) -> Option<State> {
    if may_stand { Some(state) } else { None }
}

// The state after a byte of the comments, of `p`, of `cnf` or of the blanks behind them, where the byte may stand.
fn word_state(state: State, b: u8) -> Option<State> {
    match state {
        State::Line => match b {
            b'c' => Some(State::Comment),
            b'p' => Some(State::AfterP),
            _ => None,
        },
        State::Comment if b == b'\n' => Some(State::Line),
        State::Comment => Some(State::Comment),
        State::AfterP => state_if(is_blank(b), State::BeforeCnf),
        State::BeforeCnf if b == b'c' => Some(State::AfterC),
        State::BeforeCnf => state_if(is_blank(b), State::BeforeCnf),
        State::AfterC => state_if(b == b'n', State::AfterN),
        State::AfterN => state_if(b == b'f', State::AfterF),
        _ => state_if(is_blank(b), State::BeforeV),
    }
}

// A byte that leads to a state, or may not stand there.
fn move_to(m: &mut Machine, state: Option<State>) -> Result<(), Refused> {
    match state {
        Some(state) => {
            m.state = state;
            Ok(())
        }
        None => Err(m.refused(12, m.at)),
    }
}

// The literal in hand, or the closing 0, as a byte.
fn keep_number(m: &mut Machine) {
    let n = (m.value % 256) as u8;
    let literal = if m.minus { build::negated(n) } else { n };
    m.numbers.set_last(literal);
}

// The number in hand has a digit more: it is what it says so far, or is too large.
fn count(m: &mut Machine) -> Result<(), Refused> {
    match m.state {
        State::InV => {
            m.variables = m.value;
            if m.value > VARIABLES {
                return Err(m.refused(13, m.begin));
            }
        }
        State::InR => {
            m.left = m.value;
            if m.value > CLAUSES {
                return Err(m.refused(13, m.begin));
            }
        }
        _ => {
            keep_number(m);
            if m.value > m.variables {
                return Err(m.refused(12, m.begin));
            }
        }
    }
    Ok(())
}

// The first digit of a number, in a state that is inside of it.
fn begin_number(m: &mut Machine, b: u8, state: State) -> Result<(), Refused> {
    m.state = state;
    m.value = digit(b);
    count(m)
}

// A byte before V or before R.
fn before_number(m: &mut Machine, b: u8, inside: State) -> Result<(), Refused> {
    if is_blank(b) {
        return Ok(());
    }
    if !b.is_ascii_digit() {
        return Err(m.refused(12, m.at));
    }
    m.begin = m.at;
    begin_number(m, b, inside)
}

// A byte after a digit: one digit more, which no 0 has, or what parts the number from the next and leads to a state.
fn in_number(m: &mut Machine, b: u8, next: Option<State>) -> Result<(), Refused> {
    if b.is_ascii_digit() && m.value != 0 {
        m.value = m.value % 1000 * 10 + digit(b);
        return count(m);
    }
    move_to(m, next)
}

// The first digit of a literal, with a minus before it or without.
fn begin_literal(m: &mut Machine, b: u8, minus: bool) -> Result<(), Refused> {
    m.minus = minus;
    m.numbers.begin();
    begin_number(m, b, State::InLiteral)
}

// The 0 that closes a clause.
fn close_clause(m: &mut Machine) {
    m.minus = false;
    m.value = 0;
    m.numbers.begin();
    m.left = m.left.wrapping_sub(1);
    m.state = State::Closed;
}

// The first byte of a literal or of the closing 0.
fn open_number(m: &mut Machine, b: u8) -> Result<(), Refused> {
    m.begin = m.at;
    m.clause_begin = m.clause_begin.or(Some(m.at));
    match b {
        b'-' => m.state = State::Minus,
        b'0' => close_clause(m),
        b'1'..=b'9' => begin_literal(m, b, false)?,
        _ => return Err(m.refused(12, m.at)),
    }
    Ok(())
}

// A byte after a blank or a line end.
fn in_gap(m: &mut Machine, b: u8) -> Result<(), Refused> {
    if is_gap(b) {
        return Ok(());
    }
    if m.left == 0 {
        return Err(m.refused(12, m.at));
    }
    open_number(m, b)
}

// A byte after a minus.
fn after_minus(m: &mut Machine, b: u8) -> Result<(), Refused> {
    match b {
        b'1'..=b'9' => begin_literal(m, b, true),
        _ => Err(m.refused(12, m.at)),
    }
}

// One byte.
pub fn step(m: &mut Machine, b: u8) -> Result<(), Refused> {
    match m.state {
        State::BeforeV => before_number(m, b, State::InV)?,
        State::InV => in_number(m, b, state_if(is_blank(b), State::BeforeR))?,
        State::BeforeR => before_number(m, b, State::InR)?,
        State::InR | State::InLiteral => in_number(m, b, state_if(is_gap(b), State::Gap))?,
        State::Gap => in_gap(m, b)?,
        State::Minus => after_minus(m, b)?,
        State::Closed => move_to(m, state_if(is_gap(b), State::Gap))?,
        _ => move_to(m, word_state(m.state, b))?,
    }
    m.at = m.at.wrapping_add(1);
    Ok(())
}
