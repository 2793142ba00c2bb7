// What is counted, group by group.
use dimacs_reckoning::book_bytes::Kinds;
use readings::counts;
use readings::counts::Counts;
use std::fmt;

// What is tried.
#[derive(Clone, Copy, Debug, PartialEq, Eq)]
pub enum Group {
    // Texts at the limits of the form: held against the answers that stand beside them, and against the reckoning.
    Expected,
    Boundaries,
    // Good files cut short, with a byte changed, with a byte more and with a byte less.
    Cut,
    Changed,
    More,
    Less,
    // Files made up, and the same with something wrong.
    Made,
    Wrong,
    // Every text of up to so many bytes of a few kinds: from the beginning on, behind `p cnf`, and behind R.
    Words,
    Counts,
    Tails,
    // Files of many clauses or many bytes.
    Long,
    // Buffers of several lengths, too short and not.
    Buffers,
    // The books of all texts that become one, as the engine reads them.
    Read,
    // Files of few variables: the book, then the fillings that satisfy file and book, and what the engine says of the book.
    Small,
    Fillings,
    Model,
    Consequence,
    Log,
}

impl Group {
    const COUNT: usize = 19;

    // Each group, in the order of its line, and its name there.
    pub const NAMES: [(Group, &'static str); Group::COUNT] = [
        (
            Group::Expected,
            "boundaries, held against the answers of the documents",
        ),
        (Group::Boundaries, "boundaries, held against the reckoning"),
        (Group::Cut, "good files cut short"),
        (Group::Changed, "good files with a byte changed"),
        (Group::More, "good files with a byte more"),
        (Group::Less, "good files with a byte less"),
        (Group::Made, "files made up"),
        (Group::Wrong, "files made up, with something wrong"),
        (Group::Words, "every text of up to five bytes that matter"),
        (
            Group::Counts,
            "every text of up to five bytes that matter behind p cnf",
        ),
        (
            Group::Tails,
            "every text of up to five bytes that matter behind R",
        ),
        (Group::Long, "files of many clauses or many bytes"),
        (Group::Buffers, "buffers of several lengths"),
        (Group::Read, "books of all these texts, read"),
        (Group::Small, "files of up to 8 variables"),
        (
            Group::Fillings,
            "fillings that satisfy the file and obey the book",
        ),
        (Group::Model, "first model of the book"),
        (Group::Consequence, "consequence of the book"),
        (Group::Log, "log of the book, or 9"),
    ];
}

// How often the engine was asked, and how often its answer was not what is due; and how many texts were reckoned to be a book, and
// refused with 8, 12 and 13.
#[derive(Clone, Copy, Debug, Default, PartialEq, Eq)]
pub struct Answers {
    pub counts: Counts,
    written: u64,
    short: u64,
    form: u64,
    limit: u64,
}

impl fmt::Display for Answers {
    fn fmt<W: fmt::Write>(&self, f: &mut fmt::Formatter<W>) -> fmt::Result {
        write!(f, "{}", self.counts)?;
        for (name, n) in [
            ("a book", self.written),
            ("8", self.short),
            ("12", self.form),
            ("13", self.limit),
        ] {
            if n > 0 {
                write!(f, "; {name}: {n}")?;
            }
        }
        Ok(())
    }
}

// The answers of each group. Of all groups: the clauses of the texts that become a book, and how many texts have a clause that is too
// long. Of the files of few variables: those with a model, and without.
#[derive(Clone, Copy)]
pub struct Tally {
    groups: [Answers; Group::COUNT],
    pub kinds: Kinds,
    pub long_clauses: u64,
    pub with_model: u64,
    pub without_model: u64,
}

impl Tally {
    pub fn new() -> Tally {
        Tally {
            groups: [Answers::default(); Group::COUNT],
            kinds: Kinds::default(),
            long_clauses: 0,
            with_model: 0,
            without_model: 0,
        }
    }

    // The answers of a group.
    pub fn group(&self, group: Group) -> Answers {
        self.groups[group as usize]
    }

    // The answers of all groups together.
    pub fn all(&self) -> Counts {
        let mut all = Counts::default();
        for answers in &self.groups {
            all.note_many(answers.counts.tried, answers.counts.differ);
        }
        all
    }

    // So many more answers of a group, of which so many differ.
    pub fn note_many(&mut self, group: Group, tried: u64, differ: u64) {
        self.groups[group as usize].counts.note_many(tried, differ);
    }

    // One more answer of a group.
    pub fn note(&mut self, group: Group, agrees: bool) {
        self.groups[group as usize].counts.note(agrees);
    }

    // One more text of a group, refused with a number or not. The number 0 is no refusal's: a row of the table that names one
    // which is 0 as a byte counts as one of a book.
    pub fn see(&mut self, group: Group, number: Option<u8>) {
        let answers = &mut self.groups[group as usize];
        counts::count(&mut answers.written, number.is_none_or(|n| n == 0));
        counts::count(&mut answers.short, number == Some(8));
        counts::count(&mut answers.form, number == Some(12));
        counts::count(&mut answers.limit, number == Some(13));
    }

    // The clauses of one more text.
    pub fn see_clauses(&mut self, k: Kinds) {
        self.kinds = Kinds {
            clauses: self.kinds.clauses.wrapping_add(k.clauses),
            dropped: self.kinds.dropped.wrapping_add(k.dropped),
            empty: self.kinds.empty.wrapping_add(k.empty),
            repeated: self.kinds.repeated.wrapping_add(k.repeated),
            moved: self.kinds.moved.wrapping_add(k.moved),
        };
    }

    // One more text that is refused, for a clause that is too long or for something else.
    pub fn see_long_clause(&mut self, so: bool) {
        counts::count(&mut self.long_clauses, so);
    }

    // One more file of few variables.
    pub fn see_models(&mut self, some: bool) {
        counts::count(&mut self.with_model, some);
        counts::count(&mut self.without_model, !some);
    }
}
