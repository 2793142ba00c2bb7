// Makes a book of the DIMACS CNF text on standard input.
#![tactic(auto)]

fn main() {
    console::convert_file(console::STDIN);
}
