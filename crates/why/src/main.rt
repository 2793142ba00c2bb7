// Prints the log of the book on standard input, which begins with the six bytes of a moment.
#![tactic(auto)]

fn main() {
    console::show_file(console::STDIN);
}
