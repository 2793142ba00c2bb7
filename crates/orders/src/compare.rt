// The reader's answer held against the reckoning, or against a number and a place.
use readings::counts;
use readings::counts::Counts;
use samples::build::Draft;
use samples::reckon;
use samples::reckon::Refused;

// Of a group: at how many books reader and reckoning differed, and at how many the reader was not as expected. Of all groups:
// how many books were reckoned good, or refused with each number, and how many hold a rule of no literals, or a window.
#[derive(Clone, Copy)]
pub struct Tally {
    pub books: Counts,
    pub unexpected: u64,
    pub good: u64,
    pub refused: [u64; Tally::NUMBERS],
    pub empty_rules: u64,
    pub windows: u64,
}

impl Tally {
    // No number of a refusal is as large.
    const NUMBERS: usize = 16;

    pub fn new() -> Tally {
        Tally {
            books: Counts::default(),
            unexpected: 0,
            good: 0,
            refused: [0; Tally::NUMBERS],
            empty_rules: 0,
            windows: 0,
        }
    }

    // The next group begins.
    pub fn begin_group(&mut self) {
        self.books = Counts::default();
        self.unexpected = 0;
    }

    // One more book, held against the reckoning.
    pub fn count(&mut self, d: &Draft) {
        let s = d.as_slice();
        let due = reckon::reckon(s);
        match &due {
            Ok(b) => {
                counts::count(&mut self.good, true);
                counts::count(&mut self.empty_rules, reckon::has_empty_rule(b));
                counts::count(&mut self.windows, reckon::has_window(b));
            }
            Err(refused) => {
                let place = usize::from(refused.number) % Tally::NUMBERS;
                counts::count(&mut self.refused[place], true);
            }
        }
        self.books.note(readings::agree(&book::read(s), &book::read_costs(s), &due));
    }

    // One more book, held against the reckoning, and against what is expected of it.
    fn expect(&mut self, d: &Draft, due: Result<(), Refused>) {
        let said = book::read(d.as_slice()).map(|_| ());
        counts::count(&mut self.unexpected, said.map_err(readings::refused) != due);
        self.count(d);
    }

    // One more book, which is expected to be read.
    pub fn read(&mut self, d: Draft) {
        self.expect(&d, Ok(()));
    }

    // One more book, which is expected to be refused with this number at this place.
    pub fn refused(&mut self, d: Draft, number: u8, place: usize) {
        self.expect(&d, Err(Refused { number, place }));
    }

    // One more book, which is expected to be refused, or to be read where there is no number.
    pub fn answered(&mut self, d: Draft, number: Option<u8>, place: usize) {
        match number {
            Some(number) => self.refused(d, number, place),
            None => self.read(d),
        }
    }
}
