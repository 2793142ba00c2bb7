// Numbers, literals and words with them, put into a buffer from a place on. Each function answers the place after what it put.
ghost use Rattle.std.specs.Prelude.{◌++◌, map, ◌+◌, ◌≤◌, length};
ghost use Rattle.literals.specs.Literal.{of_byte};
ghost use Rattle.log_form.specs.Promises.{Put};
ghost use Rattle.printing.specs.Text.{decimal, literal_text, literals_text, line_end};

// A number in decimal: the digits before its last one, where there are any, and its last one.
pub fn put_decimal(out: &mut [u8], at: usize, n: u64) -> usize
    requires { at + length (decimal n) ≤ length out.old }
    ensures { Put out.old at (decimal n) out.new result }
{
    let mut last = at;
    if 10 <= n {
        last = put_decimal(out, at, n / 10);
    }
    out[last] = b'0' + (n % 10) as u8;
    last + 1
}

// A word and the number after it.
pub fn put_field(out: &mut [u8], at: usize, word: &[u8], n: u64) -> usize
    requires { at + length (word.now ++ decimal n) ≤ length out.old }
    ensures { Put out.old at (word.now ++ decimal n) out.new result }
{
    let next = log_form::put_bytes(out, at, word);
    put_decimal(out, next, n)
}

// A literal from its byte in two's complement.
#[tactic(auto, using(crate::proofs::LiteralLaws::yes_text, crate::proofs::LiteralLaws::no_text))]
pub fn put_literal(out: &mut [u8], at: usize, byte: u8) -> usize
    requires { at + length (literal_text (of_byte byte)) ≤ length out.old }
    ensures { Put out.old at (literal_text (of_byte byte)) out.new result }
{
    if byte < 128 {
        return put_decimal(out, at, byte as u64);
    }
    put_field(out, at, b"-", 256 - byte as u64)
}

// Literals from their bytes, each after one space.
pub fn put_literals(out: &mut [u8], at: usize, bytes: &[u8]) -> usize
    requires { at + length (literals_text (map of_byte bytes.now)) ≤ length out.old }
    ensures { Put out.old at (literals_text (map of_byte bytes.now)) out.new result }
{
    let mut next = at;
    for &byte in bytes {
        out[next] = b' ';
        next = put_literal(out, next + 1, byte);
    }
    next
}

// A word and the literals after it.
pub fn put_list(out: &mut [u8], at: usize, word: &[u8], bytes: &[u8]) -> usize
    requires { at + length (word.now ++ literals_text (map of_byte bytes.now)) ≤ length out.old }
    ensures { Put out.old at (word.now ++ literals_text (map of_byte bytes.now)) out.new result }
{
    let next = log_form::put_bytes(out, at, word);
    put_literals(out, next, bytes)
}

// A line of two words with a number after each.
pub fn put_pair(out: &mut [u8], at: usize, first: &[u8], n: u64, second: &[u8], m: u64) -> usize
    requires { at + length (first.now ++ decimal n ++ second.now ++ decimal m ++ line_end) ≤ length out.old }
    ensures { Put out.old at (first.now ++ decimal n ++ second.now ++ decimal m ++ line_end) out.new result }
{
    let half = put_field(out, at, first, n);
    let end = put_field(out, half, second, m);
    log_form::put_bytes(out, end, b"\n")
}
