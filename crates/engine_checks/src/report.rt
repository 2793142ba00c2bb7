// The lines of a tally: a group that was tried, a kind that was seen, and the logs by their steps.
use crate::tally::{Group, Kind, Tally};
use retyped_books::Way;
use std::fmt::Display;
use std::io;

// How often each group that was tried was tried, and differed.
fn groups(rt: &impl Print, t: &Tally) -> io::Result<()> {
    for (group, name) in Group::NAMES {
        let counts = t.group(group);
        if counts.tried > 0 {
            println!(rt; "{name}: {counts}")?;
        }
    }
    Ok(())
}

// How many of each kind were seen, where there were any.
fn kinds(rt: &impl Print, t: &Tally) -> io::Result<()> {
    for (kind, name) in Kind::NAMES {
        let count = t.kind(kind);
        if count > 0 {
            println!(rt; "{name}: {count}")?;
        }
    }
    Ok(())
}

fn logs_by_steps(rt: &impl Print, t: &Tally) -> io::Result<()> {
    print!(rt; "reckoned logs of 0 steps, 1, .. 6, and more:")?;
    for count in t.logs {
        print!(rt; " {count}")?;
    }
    println!(rt; "")
}

// How many models there were in all books together.
fn models(rt: &impl Print, t: &Tally) -> io::Result<()> {
    let m = t.models;
    println!(rt;
        "models found in all: {}, of the reckoned runs: {}, at most: {}",
        m.found, m.reckoned, m.most
    )
}

// The name of a way in which a book is retyped.
fn way_name(way: Way) -> &'static str {
    match way {
        Way::Order => "rules in another order",
        Way::Repeated => "rules repeated",
        Way::Implied => "implied rules put in",
        Way::Forced => "rules of one forced literal put in",
        Way::Longer => "rules put in with a literal more than others",
        Way::WithoutLonger => "rules left out that include others",
        Way::Moved => "helpers under other names",
        Way::Flipped => "helpers with the opposite meaning",
        Way::Added => "helpers put in",
        Way::LeftOut => "helpers left out",
        Way::Split => "long rules split by helpers defined in one direction",
        Way::SplitBoth => "long rules split by helpers defined in both directions",
        Way::Several => "several of these",
    }
}

// The pairs of each way, and how many of them have other bytes.
fn ways(rt: &impl Print, t: &Tally) -> io::Result<()> {
    for (n, pairs) in t.ways.iter().enumerate() {
        let name = way_name(retyped_books::nth(n));
        println!(rt;
            "{name}: {} pairs, {} with other bytes",
            pairs.all, pairs.changed
        )?;
    }
    Ok(())
}

// Pairs in which the logs should differ, and do in most.
fn others(rt: &impl Print, t: &Tally) -> io::Result<()> {
    let o = t.others;
    println!(rt;
        "pairs with other fillings of the choices: {}, and as expected the logs differ at {} of them",
        o.pairs, o.differ
    )?;
    println!(rt;
        "pairs left out, with the same fillings of the choices: {}",
        o.left_out
    )
}

// All of them under a heading, with an empty line after them. The first failure of the output ends it and is handed back.
pub fn all(rt: &impl Print, heading: &str, t: &Tally) -> io::Result<()> {
    println!(rt; "{heading}")?;
    groups(rt, t)?;
    if t.group(Group::ModelsReckoned).tried > 0 {
        models(rt, t)?;
    }
    kinds(rt, t)?;
    if t.group(Group::WholeLog).tried > 0 {
        logs_by_steps(rt, t)?;
    }
    if t.group(Group::SameTerms).tried > 0 {
        ways(rt, t)?;
    }
    if t.others.pairs > 0 {
        others(rt, t)?;
    }
    println!(rt; "")
}

// An output whose failures are passed over: what comes next is tried all the same.
#[derive(Clone, Copy)]
struct PassedOver<R>(R);

impl<R: Print> Print for PassedOver<R> {
    fn print<D: Display + Drop>(&self, value: D) -> io::Result<()> {
        let _ = self.0.print(value);
        Ok(())
    }

    fn println<D: Display + Drop>(&self, value: D) -> io::Result<()> {
        let _ = self.0.println(value);
        Ok(())
    }

    fn write_all(&self, bytes: &[u8]) -> io::Result<()> {
        let _ = self.0.write_all(bytes);
        Ok(())
    }
}

// All of them likewise, each line tried whatever the output took before.
pub fn show(rt: &impl Print, heading: &str, t: &Tally) {
    let _ = all(&PassedOver(rt), heading, t);
}

#[cfg(test)]
mod tests {
    use super::*;
    use std::cell::Cell;
    use std::io::ErrorKind;

    // An output that takes so many texts and no more, and how many it was handed.
    #[derive(Drop)]
    struct Output {
        takes: usize,
        handed: Cell<usize>,
    }

    impl Output {
        fn new(takes: usize) -> Output {
            Output {
                takes,
                handed: Cell::new(0),
            }
        }

        fn take(&self) -> io::Result<()> {
            let before = self.handed.get();
            self.handed.set(before.wrapping_add(1));
            if before < self.takes {
                Ok(())
            } else {
                Err(io::Error::from(ErrorKind::BrokenPipe))
            }
        }
    }

    impl Print for Output {
        fn print<D: Display + Drop>(&self, value: D) -> io::Result<()> {
            self.take()
        }

        fn println<D: Display + Drop>(&self, value: D) -> io::Result<()> {
            self.take()
        }

        fn write_all(&self, bytes: &[u8]) -> io::Result<()> {
            self.take()
        }
    }

    // A tally of which a report has each of its parts.
    fn of_each_part() -> Tally {
        let mut t = Tally::new();
        t.note(Group::ModelsReckoned, true);
        t.see(Kind::Tied, true);
        t.note(Group::WholeLog, true);
        t.note(Group::SameTerms, true);
        t.others.pairs = 1;
        t
    }

    // The texts of a report that an output takes whole.
    fn texts(t: &Tally) -> Option<usize> {
        let output = Output::new(usize::MAX);
        all(&output, "heading", t).ok()?;
        Some(output.handed.get())
    }

    #[test]
    fn first_failure_ends_it_and_is_handed_back() -> Result<(), &'static str> {
        let t = of_each_part();
        for takes in 0..texts(&t).ok_or("a failure where all is taken")? {
            let output = Output::new(takes);
            if all(&output, "heading", &t).is_ok() || output.handed.get() != takes.wrapping_add(1) {
                return Err("a failure that is not handed back, or does not end it");
            }
        }
        Ok(())
    }

    #[test]
    fn each_line_is_tried() -> Result<(), &'static str> {
        let t = of_each_part();
        let texts = texts(&t).ok_or("a failure where all is taken")?;
        for takes in 0..texts {
            let output = Output::new(takes);
            show(&output, "heading", &t);
            if output.handed.get() != texts {
                return Err("a text that is not tried, or one more");
            }
        }
        Ok(())
    }
}
