// How often something was tried, and how often it was not as it should be.
use std::fmt;

#[derive(Clone, Copy, Debug, Default, PartialEq, Eq)]
pub struct Counts {
    pub tried: u64,
    pub differ: u64,
}

impl Counts {
    // One more.
    pub fn note(&mut self, agrees: bool) {
        self.note_many(1, u64::from(!agrees));
    }

    // So many more, of which so many differ.
    pub fn note_many(&mut self, tried: u64, differ: u64) {
        self.tried = self.tried.wrapping_add(tried);
        self.differ = self.differ.wrapping_add(differ);
    }
}

impl fmt::Display for Counts {
    fn fmt<W: fmt::Write>(&self, f: &mut fmt::Formatter<W>) -> fmt::Result {
        write!(f, "{} tried, {} differ", self.tried, self.differ)
    }
}

// One more of something, where it is so.
pub fn count(n: &mut u64, so: bool) {
    *n = n.wrapping_add(u64::from(so));
}
