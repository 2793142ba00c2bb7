// Every text of up to five bytes behind a beginning, the bytes being a few that matter there.
use crate::compare;
use crate::tally::{Group, Tally};
use samples::build;
use samples::build::Draft;

// The bytes: for the words and comments, for V and R, and for the clauses.
const OF_WORDS: [u8; 8] = *b"cpnf \n0\t";

const OF_COUNTS: [u8; 8] = *b"0123 \n9-";

const OF_CLAUSES: [u8; 8] = *b"0123 \n-c";

// How many texts of no byte, one, .. and five there are: the sum of 8 to the power of these.
const TEXTS: u32 = 37449;

// The nth text of these bytes: n written with eight digits of which none stands for nothing, the last first.
fn text(from: Draft, bytes: [u8; 8], n: u32) -> Draft {
    let mut made = from;
    let mut left = n;
    for _ in 0..5 {
        if left > 0 {
            left -= 1;
            made = build::put(made, bytes[(left % 8) as usize]);
            left /= 8;
        }
    }
    made
}

// Every text behind a beginning.
fn behind(t: &mut Tally, group: Group, bytes: [u8; 8], beginning: &[u8]) {
    let from = build::bytes(build::empty(), beginning);
    for n in 0..TEXTS {
        compare::count_draft(t, group, text(from, bytes, n));
    }
}

// Behind several beginnings.
pub fn all(t: &mut Tally) {
    behind(t, Group::Words, OF_WORDS, &[]);
    behind(t, Group::Counts, OF_COUNTS, b"p cnf ");
    behind(t, Group::Counts, OF_COUNTS, b"p cnf 3 12");
    behind(t, Group::Tails, OF_CLAUSES, b"p cnf 2 2");
    behind(t, Group::Tails, OF_CLAUSES, b"p cnf 2 1 ");
    behind(t, Group::Tails, OF_CLAUSES, b"p cnf 12 1 1 -1");
}
