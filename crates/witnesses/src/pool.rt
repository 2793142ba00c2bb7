// The pool of the models that a search has found, and when it asks a question for the pool alone.
ghost use Rattle.std.specs.Prelude.{◌≡◌, ◌≤◌, [], length, take};
ghost use Rattle.items.specs.Witnesses.{Kept};

use std::marker::Model;

// The looks from one question that is asked for the pool alone to the next.
const LOOKS_A_QUESTION: u32 = 16;

// The models at the front of a lent slice, at most so many as it is long. No promise depends on the rest: the place where the next
// model goes once the pool is full, and the looks since the last question that was asked for the pool alone.
#[derive(Drop)]
pub struct Pool<'a> {
    space: &'a mut [u64],
    used: usize,
    next: usize,
    looks: u32,
}

impl<'a> Model for Pool<'a> {
    ghost use Rattle.std.specs.Prelude.{List, ℕ, ◌≤◌, length, take};

    ghost Value = { List ℕ };

    ghost view = { λ p. take p.used p.space.now };

    ghost invariant = { λ p. p.used ≤ length p.space.now };
}

impl<'a> Pool<'a> {
    // No models.
    pub fn new(space: &'a mut [u64]) -> Pool<'a>
        ensures { result ≡ [] }
    {
        Pool {
            used: 0,
            next: 0,
            looks: 0,
            space,
        }
    }

    // The models that stand at the front of a slice, so many.
    pub fn of_models(space: &'a mut [u64], used: usize) -> Pool<'a>
        requires { used ≤ length space.old }
        ensures { result ≡ take used space.old }
    {
        Pool {
            used,
            next: 0,
            looks: 0,
            space,
        }
    }

    // The models.
    pub fn models(&self) -> &[u64]
        ensures { result.now ≡ self.now }
    {
        &self.space[..self.used]
    }

    // Puts a model into the pool: into free room, and once there is none over the one that stands there longest.
    pub fn store(&mut self, model: u64)
        ensures { Kept self.old model self.new }
    {
        if self.used < self.space.len() {
            self.space[self.used] = model;
            self.used += 1;
        } else {
            self.replace_oldest(model);
        }
    }

    // Puts a model over the one that stands in the full pool longest.
    fn replace_oldest(&mut self, model: u64)
        ensures { Kept self.old model self.new }
    {
        let oldest = if self.next < self.used { self.next } else { 0 };
        if oldest < self.used {
            self.space[oldest] = model;
            self.next = oldest + 1;
        }
    }

    // One look more, until a question for the pool alone is due.
    pub fn count_look(&mut self)
        ensures { self.new ≡ self.old }
    {
        if self.looks < LOOKS_A_QUESTION {
            self.looks += 1;
        }
    }

    // Whether a question for the pool alone is due. If so, the looks are counted anew.
    pub fn question_due(&mut self) -> bool
        ensures { self.new ≡ self.old }
    {
        let due = LOOKS_A_QUESTION <= self.looks;
        if due {
            self.looks = 0;
        }
        due
    }
}
