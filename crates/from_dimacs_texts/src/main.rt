// `from_dimacs` on stored texts: each text's name, and what the function that `from_dimacs` calls writes for it.
#![tactic(auto)]

use console::STDOUT;
use std::os::fd::AsRawFd;

// The text in a file of the folder that the program runs in.
fn text(rt: &HostRuntime, path: &str) {
    if let Some(file) = console::open_named(rt, path.as_bytes()) {
        console::convert_file(file.as_raw_fd());
    }
}

// Ends the line of a book's bytes. What `console` writes goes to the descriptor itself, and so does this: a `println!` could come out
// of turn.
fn end_line() {
    io::write_all(STDOUT, b"\n");
}

// Texts that are refused, with 12 and with 13; then a book with lines ended by CR LF, and 70,000 bytes of which the first 65,536 are of the form.
fn main(rt: HostRuntime) {
    for refused in [
        "texts/empty.cnf",
        "texts/no_closing_zero.cnf",
        "texts/number_too_large.cnf",
        "texts/nine_literals.cnf",
    ] {
        text(&rt, refused);
    }
    for taken in ["texts/cr_lf.cnf", "texts/long.cnf"] {
        text(&rt, taken);
        end_line();
    }
}
