// Good files, each of which shows something else of the form.
use samples::build;
use samples::build::Draft;

// How many there are.
pub const FILES: u8 = 9;

pub fn file(n: u8) -> Draft {
    let none = build::empty();
    match n {
        // As most tools write it.
        0 => build::bytes(
            none,
            b"c a small file\np cnf 4 3\n1 -2 0\n2 -3 4 0\n-4 1 0\n",
        ),
        // Lines that end in CR LF, tabs, no line end at the end.
        1 => build::bytes(none, b"p\tcnf  3\t2\r\n-3\t1 0\r\n2 0"),
        // Two comments, one of them only a c, a clause over two lines, two clauses in one line, blanks at the end.
        2 => build::bytes(
            none,
            b"c\ncnf p 0 9\np cnf 12 4\n10 -11\n12 0 -1 0\n\n 9 8 7 0 0 \n \t\r",
        ),
        // Repeats, opposites, a clause with no literals.
        3 => build::bytes(none, b"p cnf 3 4\n3 1 3 1 0\n2 -1 -2 0\n0\n-3 -3 0\n"),
        // Eight literals and nine with a repeat, over the last variables.
        4 => build::bytes(
            none,
            b"p cnf 48 2 48 -47 46 -45 44 -43 42 -41 0 1 2 3 4 5 6 7 -8 7 0\n",
        ),
        // The same in a file of fewer variables.
        8 => build::bytes(
            none,
            b"p cnf 32 2 32 -31 30 -29 28 -27 26 -25 0 1 2 3 4 5 6 7 -8 7 0\n",
        ),
        // Nine literals in a clause that is dropped, then one that is not.
        5 => build::bytes(none, b"p cnf 10 2\n1 2 3 4 5 6 7 8 9 -1 0 10 0\n"),
        // No clauses.
        6 => build::bytes(none, b"c\np cnf 20 0\n\n"),
        // No variables.
        _ => build::bytes(none, b"p cnf 0 2 0\n0"),
    }
}
