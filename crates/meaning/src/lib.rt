// The types that every crate shares. What they mean, and every other definition that a promise cites, is in specs/.
// The theorems about those definitions are in proofs/.
#![tactic(auto)]

ghost use Rattle.std.specs.Prelude.{◌≡◌};
ghost use Rattle.meaning.specs.Refusal.{on_call};
ghost use Rattle.meaning.specs.Rules.{number_of, refusal_on};

// Every bound of document 01, by name; specs/Bounds.antt has the same numbers with the document's sentences.
pub const MOST_ITEMS: usize = 512;

pub const MOST_LINKS: usize = 4096;

pub const MOST_NAME: usize = 63;

pub const MOST_ROLE: usize = 31;

// Document 02, §5: the name that means withdrawn.
pub const WITHDRAWN: usize = 63;

pub const MOST_LEVELS: usize = 17;

pub const MOST_NODES: usize = 64;

pub const MOST_THRESHOLDS: usize = 16;

pub const MOST_Q: usize = 1000;

pub const MOST_SIZE: usize = 60;

pub const MOST_STEPS: usize = 64;

// In a map: a written node that goes nowhere, and one that is dropped.
pub const NOWHERE: usize = 65535;

pub const DROPPED: usize = 65534;

// Document 01, "Refusal numbers": the side that a refusal is on.
#[derive(Clone, Copy, Debug, PartialEq, Eq)]
pub enum Side {
    Register,
    Requirement,
    Call,
}

// The rows of the document's table, each with its number there: what is wrong where one is broken.
#[derive(Clone, Copy, Debug, PartialEq, Eq)]
pub enum Rule {
    CutShort = 1,
    Version = 2,
    Length = 3,
    Count = 4,
    NoSuchEnd = 5,
    Order = 6,
    RoleAbove = 7,
    LeftOver = 8,
    TooDeep = 9,
    TooManyNodes = 10,
    NotPlain = 11,
    TooManyThresholds = 12,
    NoComparison = 13,
    TooLarge = 14,
    OutOfRange = 15,
    MapTooShort = 16,
    StepsBeyondLog = 17,
    LogFull = 18,
    NothingToUndo = 19,
    NoPlaceForLink = 20,
    OutputTooShort = 21,
    NoRequirement = 22,
    DenominatorOut = 23,
    AboveOne = 24,
    NotLowest = 25,
    Withdrawn = 26,
}

// What is wrong in an input whose side its reader knows: a rule that is broken, and the byte place from the input's first byte.
#[derive(Clone, Copy, Debug, PartialEq, Eq)]
pub struct Fault {
    pub rule: Rule,
    pub place: usize,
}

// A refusal: its side, its number in the document's table, and the byte place from that side's first byte.
#[derive(Clone, Copy, Debug, PartialEq, Eq)]
pub struct Refusal {
    pub side: Side,
    pub number: usize,
    pub place: usize,
}

impl Rule {
    // Its number in the document's table.
    pub fn number(self) -> usize
        ensures { result ≡ number_of self }
    {
        self as usize
    }

    // It is broken at a place.
    pub fn at(self, place: usize) -> Fault
        ensures { result ≡ record { rule = self; place = place } }
    {
        Fault { rule: self, place }
    }

    // A call breaks it: its side has no bytes, so the place is 0.
    pub fn of_call(self) -> Refusal
        ensures { result ≡ on_call (number_of self) }
    {
        self.at(0).on(Side::Call)
    }
}

impl Fault {
    // The refusal that it is on a side.
    pub fn on(self, side: Side) -> Refusal
        ensures { result ≡ refusal_on side self }
    {
        Refusal {
            side,
            number: self.rule.number(),
            place: self.place,
        }
    }
}

// Document 01, "Session": a fact, "which is either a name on an item or a link".
#[derive(Clone, Copy, Debug, PartialEq, Eq)]
pub enum Fact {
    Name { item: usize, name: usize },
    Link { from: usize, role: usize, to: usize },
}

// A step of a session: its fact, "and whether that fact was there before".
#[derive(Clone, Copy, Debug, PartialEq, Eq)]
pub struct Step {
    pub fact: Fact,
    pub was: bool,
}
