// Holds the book reader against an independent reckoning of the format, over books that are built here as bytes, and
// against the numbers and places of documents 01 and 02. One line for a group: how many books, and at how many the two differ.
#![tactic(auto)]

mod boundaries;
mod compare;
mod groups;
mod window_boundaries;
mod window_groups;

use compare::Tally;
use groups::Made;
use made_books::windowed::Windowed;
use made_books::{made, windowed};
use samples::build::Draft;
use samples::{build, counter, limits, windows};

// Where the last rule of the longest book without windows and its third fact begin: without facts it would end with EN where
// its first one is.
const LAST_RULE: usize = limits::WITHOUT_FACTS - 13;

const THIRD_FACT: usize = limits::WITHOUT_FACTS + 4;

// Where the last window of the longest book begins, before the 96 bytes of its facts and EN, and where its first fact ends.
const LAST_WINDOW: usize = limits::BOOK - 98 - limits::WINDOW;

const SECOND_FACT: usize = LAST_WINDOW + limits::WINDOW + 3;

// The line of a group, after which the next one begins.
fn end_group(rt: &impl Print, name: &str, t: &mut Tally) {
    let books = t.books;
    t.begin_group();
    let _ = println!(rt; "{name}: {books}");
}

// The same, where it was expected too what the reader answers.
fn end_expected(rt: &impl Print, name: &str, also: &str, t: &mut Tally) {
    let books = t.books;
    let unexpected = t.unexpected;
    t.begin_group();
    let _ = println!(rt; "{name}: {books}");
    let _ = println!(rt; "{also}: {} tried, {unexpected} differ", books.tried);
}

// How many books were good and how many were refused with each number, so that a reader sees what was tried.
fn answers(rt: &impl Print, t: &Tally) {
    let _ = print!(rt; "reckoned: {} good, refused with 1 to 7 and 14:", t.good);
    for number in [1, 2, 3, 4, 5, 6, 7, 14] {
        let _ = print!(rt; " {}", t.refused[number]);
    }
    let _ = println!(rt; "");
    let _ = println!(rt; "good books with a rule of no literals: {}", t.empty_rules);
    let _ = println!(rt; "good books with a window: {}", t.windows);
}

// Groups of good books with one place changed.
fn near_good_books(rt: &impl Print, t: &mut Tally) {
    let p = counter::order(b'c');
    let middle = made::book(123456789, made::wide_shape(12, 8, 12));
    let longest = build::longest(false);
    groups::truncations(t, p);
    groups::truncations(t, middle);
    end_group(rt, "truncations", t);
    groups::changes(t, p, 0..p.len);
    groups::changes(t, middle, 0..middle.len);
    groups::changes(t, longest, 0..5);
    groups::changes(t, longest, LAST_RULE..THIRD_FACT);
    end_group(rt, "changes", t);
    groups::shifts(t, p);
    end_group(rt, "a byte more or less", t);
    groups::extra_bytes(t, p);
    groups::extra_bytes(t, middle);
    end_group(rt, "extra bytes", t);
}

// Book P with windows for its first rule and its third.
fn windowed_p() -> Draft {
    let plain = counter::book_p();
    let first = Some(windows::nth(77));
    let third = Some(windows::nth(120));
    let windows = [first, None, third, None, None];
    windowed::typed(Windowed { plain, windows })
}

// Groups of good books with windows in which one place is changed.
fn near_windows(rt: &impl Print, t: &mut Tally) {
    let p = windowed_p();
    let longest = build::longest(true);
    groups::truncations(t, p);
    groups::changes(t, p, 0..p.len);
    end_group(rt, "windows, cut short or changed", t);
    groups::shifts(t, p);
    end_group(rt, "windows, a byte more or less", t);
    groups::changes(t, longest, LAST_WINDOW..SECOND_FACT);
    end_group(rt, "windows, the longest book changed", t);
    window_groups::dates(t);
    window_groups::pairs(t);
    end_group(rt, "windows, dates and pairs", t);
}

// Groups of books made up, of few variables and of up to the most.
fn made_up_books(rt: &impl Print, t: &mut Tally, with_windows: bool) {
    let few = |books: u32| Made {
        books,
        variables: 10,
        with_windows,
    };
    let many = |books: u32| Made {
        books,
        variables: limits::VARIABLES,
        with_windows,
    };
    groups::made_up(t, few(4000));
    groups::made_up(t, many(1000));
    end_expected(rt, "made up", "made up, expected", t);
    groups::edited(t, few(16000));
    groups::edited(t, many(4000));
    end_group(rt, "random", t);
}

// A line that standard output does not take is passed over: the next one is tried, and the status is 0.
fn main(rt: HostRuntime) {
    let mut t = Tally::new();
    boundaries::all(&mut t);
    end_expected(&rt, "boundaries", "expected", &mut t);
    window_boundaries::all(&mut t);
    end_expected(&rt, "windows", "windows, expected", &mut t);
    near_good_books(&rt, &mut t);
    near_windows(&rt, &mut t);
    made_up_books(&rt, &mut t, false);
    let _ = println!(rt; "books with windows:");
    made_up_books(&rt, &mut t, true);
    answers(&rt, &t);
}
