// What was compared, group by group, and what was met.
use crate::met::Met;
use readings::counts::Counts;

#[derive(Clone, Copy)]
pub struct Run {
    pub carried: Counts,
    pub wrong: Counts,
    pub over: Counts,
    pub short: Counts,
    pub without: Counts,
    pub refused: Counts,
    pub left_out: u64,
    pub met: Met,
}

impl Run {
    pub fn new() -> Run {
        let nothing = Counts::default();
        Run {
            carried: nothing,
            wrong: nothing,
            over: nothing,
            short: nothing,
            without: nothing,
            refused: nothing,
            left_out: 0,
            met: Met::new(),
        }
    }

    // What was seen, under a heading, with an empty line after it. A line where something was tried.
    pub fn show(&self, rt: &impl Print, heading: &str) {
        let _ = println!(rt; "{heading}");
        for (name, counts) in [
            ("broken log carried on", self.carried),
            ("wrong byte before the break, 15", self.wrong),
            ("number over the log's length, 15", self.over),
            ("short buffer with any number, 8", self.short),
            ("no model with any number, 9", self.without),
            ("book or moment refused, with any number", self.refused),
        ] {
            if counts.tried > 0 {
                let _ = println!(rt; "{name}: {counts}");
            }
        }
        if self.left_out > 0 {
            let _ = println!(rt; "books left out: {}", self.left_out);
        }
        self.met.show(rt);
        let _ = println!(rt; "");
    }
}
