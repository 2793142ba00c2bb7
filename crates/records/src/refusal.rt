// Refusals: document 01's checks, and the place at which one fails.
ghost use Rattle.std.specs.Prelude.{◌≡◌};
ghost use Rattle.records.specs.Refusals.{number_of};

// The check that fails. Document 01 numbers them.
#[derive(Clone, Copy, Debug, PartialEq, Eq)]
pub enum RefusalKind {
    CutShort = 1,
    Mark = 2,
    Counts = 3,
    Cost = 4,
    LiteralCount = 5,
    Literals = 6,
    AfterEnd = 7,
    ShortBuffer = 8,
    NoFilling = 9,
    KnownSet = 10,
    Text = 12,
    TextLimits = 13,
    Times = 14,
    Beginning = 15,
}

impl RefusalKind {
    // Document 01's number.
    pub fn number(self) -> u8
        ensures { result ≡ number_of self }
    {
        self as u8
    }

    // The refusal at a place.
    pub fn at(self, place: usize) -> Refusal
        ensures { result ≡ record { kind = self; place = place } }
    {
        Refusal { kind: self, place }
    }
}

// A refusal: the check that fails, and where.
#[derive(Clone, Copy, Debug, PartialEq, Eq)]
pub struct Refusal {
    pub kind: RefusalKind,
    pub place: usize,
}
