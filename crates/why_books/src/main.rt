// `why` on every stored book: each book's name, and what the function that `why` calls prints for it, at noon on 17 November 2026
// unless said.
#![tactic(auto)]

use console::STDOUT;
use samples::{build, counter};
use std::os::fd::AsRawFd;

// The number of the last book of `bench/`.
const LAST: u8 = 55;

// 17 November 2026, noon.
const NOON: [u8; 6] = *b"\x07\xea\x0b\x11\x02\xd0";

// A moment in six bytes.
fn moment(year: u16, month: u8, day: u8, minute: u16) -> [u8; 6] {
    let [year_high, year_low] = year.to_be_bytes();
    let [minute_high, minute_low] = minute.to_be_bytes();
    [year_high, year_low, month, day, minute_high, minute_low]
}

// The book in a file of the folder that the program runs in, at a moment.
fn book_at(rt: &HostRuntime, moment: [u8; 6], path: &[u8]) {
    if let Some(file) = console::open_named(rt, path) {
        console::show_book(moment, file.as_raw_fd());
    }
}

// The same at noon.
fn book(rt: &HostRuntime, path: &[u8]) {
    book_at(rt, NOON, path);
}

// The same at a moment that is named on a line before it. What `console` shows goes to the descriptor itself, and so does this line:
// a `println!` beside it could come out of turn.
fn dated(rt: &HostRuntime, name: &str, moment: [u8; 6], path: &[u8]) {
    io::write_all(STDOUT, name.as_bytes());
    book_at(rt, moment, path);
}

// The input in a file: the six bytes of a moment, and a book.
fn input(rt: &HostRuntime, path: &[u8]) {
    if let Some(file) = console::open_named(rt, path) {
        console::show_file(file.as_raw_fd());
    }
}

// The book of this number in `bench/`.
fn bench(rt: &HostRuntime, n: u8) {
    let mut path = *b"bench/00.book";
    path[6] = b'0' + n / 10;
    path[7] = b'0' + n % 10;
    book(rt, &path);
}

// The book that is refused with this number, of one digit.
fn refused(rt: &HostRuntime, number: u8) {
    let mut path = *b"books/refused-0.book";
    path[14] = b'0' + number % 10;
    book(rt, &path);
}

// The order at the counter of this letter, at noon.
fn order(letter: u8) {
    let mut name = *b"order a:\n";
    name[6] = letter;
    io::write_all(STDOUT, &name);
    let noon = build::bytes(build::empty(), &NOON);
    let input = build::bytes(noon, counter::order(letter).as_slice());
    console::show(input.as_slice());
}

// The books of `bench/`.
fn bench_books(rt: &HostRuntime) {
    for n in 1..=LAST {
        bench(rt, n);
    }
}

// The orders at the counter, a to j.
fn orders() {
    for letter in b'a'..=b'j' {
        order(letter);
    }
}

// A book for each number that `why` can give. 8 is for a log's buffer that is too short, 10 for the next step.
fn refused_books(rt: &HostRuntime) {
    for number in [1, 2, 3, 4, 5, 6, 7, 9] {
        refused(rt, number);
    }
    book(rt, b"books/refused-14.book");
}

// P with a window for its third rule: from 1 March 2024 on and before 1 November, Monday to Friday, from 9:00 on and before 17:30.
// In force on the first day at the first minute, and on the last day at the last minute; out of force a minute before the first one,
// at the end minute, on the day before the first one, on the end day, and on a Saturday.
fn season(rt: &HostRuntime) {
    for (name, moment) in [
        ("1 March 2024, 9:00\n", moment(2024, 3, 1, 540)),
        ("31 October 2024, 17:29\n", moment(2024, 10, 31, 1049)),
        ("1 March 2024, 8:59\n", moment(2024, 3, 1, 539)),
        ("31 October 2024, 17:30\n", moment(2024, 10, 31, 1050)),
        ("29 February 2024, 12:00\n", moment(2024, 2, 29, 720)),
        ("1 November 2024, 12:00\n", moment(2024, 11, 1, 720)),
        ("2 March 2024, 12:00\n", moment(2024, 3, 2, 720)),
    ] {
        dated(rt, name, moment, b"books/season.book");
    }
}

// Moments that cannot be, before a damaged book and before P.
fn impossible_moments(rt: &HostRuntime) {
    let damaged = b"books/refused-6.book";
    dated(
        rt,
        "31 April 2024, 12:00\n",
        moment(2024, 4, 31, 720),
        damaged,
    );
    dated(
        rt,
        "1 March 2024, 24:00\n",
        moment(2024, 3, 1, 1440),
        b"books/p.book",
    );
}

// The first bytes of a moment, so many, and nothing after them: fewer than six are no moment, and after six of them the book has no
// byte.
fn short_inputs() {
    for size in 0..=NOON.len() {
        let mut name = *b"input of 0 bytes:\n";
        name[9] = b'0' + (size % 10) as u8;
        io::write_all(STDOUT, &name);
        console::show(&NOON[..size]);
    }
}

// Then no byte, 5,000 bytes of which the first 3,655 are a book, a book with two reasons of equal cost, P, and windows and moments.
fn main(rt: HostRuntime) {
    orders();
    bench_books(&rt);
    refused_books(&rt);
    book(&rt, b"books/empty.book");
    book(&rt, b"books/long.book");
    book(&rt, b"books/fewer-reasons.book");
    book(&rt, b"books/p.book");
    season(&rt);
    impossible_moments(&rt);
    short_inputs();
    input(&rt, b"books/noon.moment");
}
