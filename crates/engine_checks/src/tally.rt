// What is counted, group by group.
use readings::counts;
use readings::counts::Counts;

// What is tried.
#[derive(Clone, Copy, Debug, PartialEq, Eq)]
pub enum Group {
    // The book and its costs, the first model, the consequence.
    Reading,
    Model,
    Consequence,
    // What is written here of the orders at the counter: the reckoned logs, the engine's steps and logs.
    Worked,
    CounterSteps,
    CounterLogs,
    // Steps on the way from the facts to the consequence, "nothing left" at its end included.
    OnTheWay,
    // Steps from the facts and any of the consequence.
    FromAny,
    // Known sets that are refused: without a fact, with a literal outside the consequence, with a variable both ways, with a
    // variable that is no choice.
    FactMissing,
    TooMuch,
    BothWays,
    NoChoice,
    // Steps of books without a model, and of books that are refused.
    WithoutModel,
    Refused,
    // Logs, buffers that are too short for one, and logs of books without a model or refused.
    WholeLog,
    ShortBuffer,
    NoLog,
    // Two books that were typed differently: the same choices, costs and facts, the same fillings of the choices; the same
    // first model over the choices, the same consequence, the same step from a known set, the same answer to any two masks, the same
    // log, and 8 for one whose buffer is too short.
    SameTerms,
    SameFillings,
    SameModel,
    SameConsequence,
    SameStep,
    SameAtMasks,
    SameLog,
    OneShort,
    // Models found for the consequence: by the engine and by the reckoned run, each held against its bounds; one more than the
    // choices, and with facts one more than the choices that they leave open; the same of the reckoned run.
    ModelsFound,
    ModelsReckoned,
    OneMore,
    OneMoreGiven,
    OneMoreReckoned,
}

impl Group {
    pub const COUNT: usize = 30;

    // Each group, in the order of its line, and its name there.
    pub const NAMES: [(Group, &'static str); Group::COUNT] = [
        (Group::Reading, "book and costs"),
        (Group::Model, "first model"),
        (Group::Consequence, "consequence"),
        (Group::Worked, "reckoned log"),
        (Group::CounterSteps, "step"),
        (Group::CounterLogs, "log"),
        (Group::OnTheWay, "step on the way"),
        (Group::FromAny, "step from any known set"),
        (Group::FactMissing, "known set without a fact"),
        (Group::TooMuch, "known set outside the consequence"),
        (Group::BothWays, "known set with a variable both ways"),
        (Group::NoChoice, "known set with no choice"),
        (Group::WithoutModel, "step without a model"),
        (Group::Refused, "step of refused books"),
        (Group::WholeLog, "log"),
        (Group::ShortBuffer, "log into a short buffer"),
        (Group::NoLog, "log without a model or of refused books"),
        (Group::SameTerms, "same choices, costs and facts"),
        (Group::SameFillings, "same fillings of the choices"),
        (
            Group::SameModel,
            "same first model over the choices, or 9 for both",
        ),
        (Group::SameConsequence, "same consequence"),
        (Group::SameStep, "same step from a known set"),
        (Group::SameAtMasks, "same answer to masks drawn at random"),
        (
            Group::SameLog,
            "same log, into buffers of different lengths and contents",
        ),
        (
            Group::OneShort,
            "8 for a short buffer, whatever the other is answered",
        ),
        (Group::ModelsFound, "models found, within their bounds"),
        (
            Group::ModelsReckoned,
            "models of a reckoned run, within their bounds, and what it keeps",
        ),
        (Group::OneMore, "models found, one more than the choices"),
        (
            Group::OneMoreGiven,
            "models found, one more than the choices that the facts leave open",
        ),
        (
            Group::OneMoreReckoned,
            "models of a reckoned run, one more than the choices left open",
        ),
    ];
}

// What was met on the way, as reckoned.
#[derive(Clone, Copy, Debug, PartialEq, Eq)]
pub enum Kind {
    // Steps on the way at which several candidates have the least cost.
    Tied,
    // Steps on the way that were others in the order before E6, and books with such a step: their logs were others.
    ChangedSteps,
    ChangedBooks,
    // Books that are refused, that have no model, that have a consequence with more than the facts.
    BadBooks,
    NoModel,
    WithMore,
    // Books with no variables, with no choices, with no rules, with a rule of no literals.
    NoVariables,
    NoChoices,
    NoRules,
    EmptyRule,
    // Books that are left out: more fillings obey their rules than there is room for.
    LeftOut,
    // Pairs of books without a model, with a rule of no literals, with a log of at least one step, with one of at least three;
    // masks that are refused with 10.
    PairsNoModel,
    PairsEmptyRule,
    PairsWithStep,
    PairsWithThree,
    MasksRefused,
}

impl Kind {
    pub const COUNT: usize = 16;

    // Each kind, in the order of its line, and its name there.
    pub const NAMES: [(Kind, &'static str); Kind::COUNT] = [
        (
            Kind::Tied,
            "steps with several candidates of the least cost",
        ),
        (
            Kind::ChangedSteps,
            "steps that were others in the order before E6",
        ),
        (Kind::ChangedBooks, "books with such a step"),
        (Kind::BadBooks, "books refused"),
        (Kind::NoModel, "books without a model"),
        (
            Kind::WithMore,
            "books with a consequence of more than the facts",
        ),
        (Kind::NoVariables, "books with no variables"),
        (Kind::NoChoices, "books with no choices"),
        (Kind::NoRules, "books with no rules"),
        (Kind::EmptyRule, "books with a rule of no literals"),
        (Kind::LeftOut, "books left out"),
        (Kind::PairsNoModel, "pairs without a model"),
        (
            Kind::PairsEmptyRule,
            "pairs with a rule of no literals in one or both",
        ),
        (Kind::PairsWithStep, "pairs with a log of at least one step"),
        (
            Kind::PairsWithThree,
            "pairs with a log of at least three steps",
        ),
        (Kind::MasksRefused, "masks refused with 10"),
    ];
}

// Of the books retyped in one way, how many pairs there are, and those with other bytes.
#[derive(Clone, Copy, Debug, Default, PartialEq, Eq)]
pub struct Pairs {
    pub all: u64,
    pub changed: u64,
}

// Pairs of books with other fillings of the choices, those of them with other logs, and pairs left out since the fillings
// are the same.
#[derive(Clone, Copy, Debug, Default, PartialEq, Eq)]
pub struct Others {
    pub pairs: u64,
    pub differ: u64,
    pub left_out: u64,
}

// Models of all books together: those that the engine found, those of the reckoned run, and the most that may be found.
#[derive(Clone, Copy, Debug, Default, PartialEq, Eq)]
pub struct Models {
    pub found: u64,
    pub reckoned: u64,
    pub most: u64,
}

// Of each group: how often the engine was asked, and how often its answer was not what is due. Of each kind of book or step,
// as reckoned: how many there were. The logs by their steps: of none, of one, .. and of seven or more.
#[derive(Clone, Copy)]
pub struct Tally {
    groups: [Counts; Group::COUNT],
    kinds: [u64; Kind::COUNT],
    pub logs: [u64; Tally::LOGS],
    pub ways: [Pairs; retyped_books::WAYS],
    pub others: Others,
    pub models: Models,
}

impl Tally {
    const LOGS: usize = 8;

    pub fn new() -> Tally {
        Tally {
            groups: [Counts::default(); Group::COUNT],
            kinds: [0; Kind::COUNT],
            logs: [0; Tally::LOGS],
            ways: [Pairs::default(); retyped_books::WAYS],
            others: Others::default(),
            models: Models::default(),
        }
    }

    // One more answer of a group.
    pub fn note(&mut self, group: Group, agrees: bool) {
        self.groups[group as usize].note(agrees);
    }

    // One more of a kind, where it is of that kind.
    pub fn see(&mut self, kind: Kind, so: bool) {
        counts::count(&mut self.kinds[kind as usize], so);
    }

    // One more log of so many steps.
    pub fn see_log(&mut self, steps: u64) {
        let place = steps.min(7) as usize;
        counts::count(&mut self.logs[place], true);
    }

    // One more pair of books of a way of retyping, counted from 0.
    pub fn see_way(&mut self, way: usize, changed: bool) {
        if let Some(pairs) = self.ways.get_mut(way) {
            counts::count(&mut pairs.all, true);
            counts::count(&mut pairs.changed, changed);
        }
    }

    // How often a group was tried.
    pub fn group(&self, group: Group) -> Counts {
        self.groups[group as usize]
    }

    // How many of a kind there were.
    pub fn kind(&self, kind: Kind) -> u64 {
        self.kinds[kind as usize]
    }
}
