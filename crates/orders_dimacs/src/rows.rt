// The table on standard input: texts at the limits of the form, each with the answer that documents 01 and 02 give it. A row
// is a line: the number and the place, or 0 and the book's bytes in hex; then the text between bars, in which a backslash
// and two hex digits stand for a byte.
use crate::compare;
use crate::tally::Tally;
use samples::build;
use samples::build::Draft;
use samples::reckon::Refused;

// Standard input.
const STDIN: i32 = 0;

// What the next byte of the table is taken for.
#[derive(Clone, Copy, Debug, PartialEq, Eq)]
enum Awaited {
    Number,
    Place,
    Book,
    LowOfBook,
    Bar,
    Text,
    HighOfText,
    LowOfText,
    LineEnd,
}

// The row in hand: what the next byte is taken for, the fields so far, the high half of a byte.
#[derive(Clone, Copy)]
struct Row {
    awaited: Awaited,
    number: u64,
    place: u64,
    high: u8,
    book: Draft,
    text: Draft,
}

// The value of a hex digit.
fn hex(b: u8) -> u8 {
    let value = if b < b'A' {
        b.wrapping_sub(b'0')
    } else {
        b.wrapping_sub(b'A' - 10)
    };
    value % 16
}

// A number with one digit more.
fn longer(n: u64, b: u8) -> u64 {
    n % 65536 * 10 + u64::from(hex(b))
}

impl Row {
    fn new() -> Row {
        Row {
            awaited: Awaited::Number,
            number: 0,
            place: 0,
            high: 0,
            book: build::empty(),
            text: build::empty(),
        }
    }

    // A digit of the number, or what parts it from the place or from the book.
    fn number_byte(&mut self, b: u8) {
        if b != b' ' {
            self.number = longer(self.number, b);
        } else if self.number == 0 {
            self.awaited = Awaited::Book;
        } else {
            self.awaited = Awaited::Place;
        }
    }

    // A digit of the place, or what parts it from the text.
    fn place_byte(&mut self, b: u8) {
        if b == b' ' {
            self.awaited = Awaited::Bar;
        } else {
            self.place = longer(self.place, b);
        }
    }

    // The first half of a byte of the book, or what parts the book from the text.
    fn book_byte(&mut self, b: u8) {
        if b == b' ' {
            self.awaited = Awaited::Bar;
        } else {
            self.half(b, Awaited::LowOfBook);
        }
    }

    // The first half of a byte, after which the second is due.
    fn half(&mut self, b: u8, second: Awaited) {
        self.high = hex(b);
        self.awaited = second;
    }

    // The byte of the first half and this one.
    fn joined(&self, b: u8) -> u8 {
        (self.high << 4) | hex(b)
    }

    // A byte more of the text.
    fn put_text(&mut self, b: u8) {
        self.text = build::put(self.text, b);
        self.awaited = Awaited::Text;
    }

    // A byte of the text as it stands, the beginning of another, or the bar behind it.
    fn text_byte(&mut self, b: u8) {
        match b {
            b'\\' => self.awaited = Awaited::HighOfText,
            b'|' => self.awaited = Awaited::LineEnd,
            _ => self.put_text(b),
        }
    }

    // One byte of the table.
    fn step(&mut self, b: u8) {
        match self.awaited {
            Awaited::Number => self.number_byte(b),
            Awaited::Place => self.place_byte(b),
            Awaited::Book => self.book_byte(b),
            Awaited::LowOfBook => {
                self.book = build::put(self.book, self.joined(b));
                self.awaited = Awaited::Book;
            }
            Awaited::Bar => self.awaited = Awaited::Text,
            Awaited::Text => self.text_byte(b),
            Awaited::HighOfText => self.half(b, Awaited::LowOfText),
            Awaited::LowOfText => self.put_text(self.joined(b)),
            Awaited::LineEnd => *self = Row::new(),
        }
    }

    // The answer expected of the whole row, and the answer reckoned.
    fn compare(&self, t: &mut Tally) {
        let text = self.text.as_slice();
        if self.number == 0 {
            compare::writes(t, text, self.book.as_slice());
        } else {
            let due = Refused {
                number: (self.number % 256) as u8,
                place: (self.place % 65536) as usize,
            };
            compare::refuses(t, text, due);
        }
    }
}

// Every row of the table on standard input, read into a fixed buffer, since the lines of the runtime's reader are on the heap. A row is
// whole where its second bar was the last byte.
pub fn all(t: &mut Tally) {
    let mut space = io::large_buffer();
    let size = io::read_full(STDIN, &mut space);
    let mut row = Row::new();
    for b in &space[..size] {
        row.step(*b);
        if row.awaited == Awaited::LineEnd {
            row.compare(t);
        }
    }
}
