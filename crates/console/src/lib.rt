// Writes to standard output what is printed for an input, a moment and a book, and the book that is made of a DIMACS CNF text;
// opens stored files.
#![tactic(auto)]

use records::Book;
use records::refusal::Refusal;
use std::fs;
use std::fs::File;

// Standard input and standard output.
pub const STDIN: i32 = 0;

pub const STDOUT: i32 = 1;

// The bytes of a DIMACS CNF text that are read, at most.
const MAX_INPUT: usize = 65536;

// The bytes of the line of a refusal, at most.
const MAX_LINE: usize = 36;

// The text for an input, the six bytes of a moment and then a book. It always fits: the buffer has room for the longest.
pub fn show(input: &[u8]) {
    let mut text = [0u8; printing::MAX_TEXT];
    if let Some(size) = printing::print(input, &mut text) {
        io::write_all(STDOUT, &text[..size]);
    }
}

// Reads the first 4,096 bytes at most of an open file, the moment's six included, and writes the text for them. A short read is
// followed by another, up to the end of the file.
pub fn show_file(fd: i32) {
    let mut space = io::buffer();
    let size = io::read_full(fd, &mut space);
    show(&space[..size]);
}

// The same for an open file that has a book alone: the six bytes of a moment are put before what is read, 4,096 bytes at most in all.
pub fn show_book(moment: [u8; printing::MOMENT_SIZE], fd: i32) {
    let mut space = io::buffer();
    space[..printing::MOMENT_SIZE].copy_from_slice(&moment);
    let size = io::read_full(fd, &mut space[printing::MOMENT_SIZE..]);
    show(&space[..printing::MOMENT_SIZE + size]);
}

// The line of a refusal.
fn show_refusal(refused: Refusal) {
    let mut line = [0u8; MAX_LINE];
    let size = printing::put_refusal(&mut line, refused.kind.number(), refused.place);
    io::write_all(STDOUT, &line[..size]);
}

// The bytes of the book that is made of a DIMACS CNF text, or only the refusal.
pub fn convert(text: &[u8]) {
    let mut book = [0u8; Book::MAX_WITHOUT_FACTS];
    match engine::read_dimacs(text, &mut book) {
        Ok(size) => {
            io::write_all(STDOUT, &book[..size]);
        }
        Err(refused) => show_refusal(refused),
    }
}

// Reads the first 65,536 bytes at most of an open file and converts them: a longer file is answered as though it ended there.
pub fn convert_file(fd: i32) {
    let mut space = [0u8; MAX_INPUT];
    let size = io::read_full(fd, &mut space);
    convert(&space[..size]);
}

// Writes the name of a file of the folder that the program runs in, and opens it: nothing is answered where there is none. A name
// is UTF-8 text: other bytes name no file.
pub fn open_named(rt: &HostRuntime, path: &[u8]) -> Option<File> {
    io::write_all(STDOUT, path);
    io::write_all(STDOUT, b":\n");
    let file = match str::from_utf8(path) {
        Ok(name) => fs::open(rt, name).ok(),
        Err(_) => None,
    };
    if file.is_none() {
        io::write_all(STDOUT, b"no such file\n");
    }
    file
}
