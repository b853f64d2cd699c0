// What was compared and how often the answers differ, by kind; and how often each answer was given.
use crate::same;
use data::{Refusal, Which};

// What is compared.
#[derive(Clone, Copy, PartialEq, Eq)]
pub enum Comparison {
    Texts,
    Damaged,
    Writings,
    Runs,
    Records,
    Needed,
    Steps,
    Plain,
    Strong,
    Additions,
    Even,
    Lower,
    LentReads,
    LentShort,
    LentWritings,
    LentRuns,
    LentNeeded,
    LentSteps,
    LentPlain,
    LentStrong,
    Drawn,
    LowerStrong,
    StrongPlain,
    NeededDrawn,
    NotsKept,
    EvenInverted,
    DrawnInverted,
}

// What is answered.
#[derive(Clone, Copy, PartialEq, Eq)]
pub enum Answer {
    PlainPass,
    PlainOpen,
    SetsClosed,
    SetsOpen,
    StepsMade,
    StrongPass,
    StrongOpen,
    PassInverted,
}

// Where a judgement is counted: on values, over a list, its passes, and the sets of a pass, also of one that inverted randoms give.
#[derive(Clone, Copy)]
pub struct Places {
    pub values: Comparison,
    pub list: Comparison,
    pub pass: Answer,
    pub open: Answer,
    pub meant: Comparison,
    pub inverted: Comparison,
}

pub fn places_of(which: Which) -> Places {
    match which {
        Which::Plain => Places {
            values: Comparison::Plain,
            list: Comparison::LentPlain,
            pass: Answer::PlainPass,
            open: Answer::PlainOpen,
            meant: Comparison::Even,
            inverted: Comparison::EvenInverted,
        },
        Which::Strong => Places {
            values: Comparison::Strong,
            list: Comparison::LentStrong,
            pass: Answer::StrongPass,
            open: Answer::StrongOpen,
            meant: Comparison::Drawn,
            inverted: Comparison::DrawnInverted,
        },
    }
}

// For each comparison how often it was made and how often it differs; how often each answer was given, and each refusal by its number (0: none).
#[derive(Clone, Copy, PartialEq, Eq)]
pub struct Tally {
    compared: [u64; 27],
    differ: [u64; 27],
    answers: [u64; 8],
    refusals: [u64; 17],
}

fn at(counts: &[u64], i: usize) -> u64 {
    counts.get(i).copied().unwrap_or(0)
}

fn add(counts: &mut [u64], i: usize, by: u64) {
    if let Some(count) = counts.get_mut(i) {
        *count = count.wrapping_add(by);
    }
}

impl Tally {
    pub fn new() -> Tally {
        Tally {
            compared: [0; 27],
            differ: [0; 27],
            answers: [0; 8],
            refusals: [0; 17],
        }
    }

    pub fn compared_of(&self, kind: Comparison) -> u64 {
        at(&self.compared, kind as usize)
    }

    pub fn differ_of(&self, kind: Comparison) -> u64 {
        at(&self.differ, kind as usize)
    }

    pub fn answers_of(&self, answer: Answer) -> u64 {
        at(&self.answers, answer as usize)
    }

    pub fn refusals_of(&self, number: usize) -> u64 {
        at(&self.refusals, number)
    }

    // One comparison of a kind, by which the answers were the same or not.
    pub fn compared(&mut self, kind: Comparison, same: bool) {
        add(&mut self.compared, kind as usize, 1);
        add(&mut self.differ, kind as usize, u64::from(!same));
    }

    // What a kind gained since `before`, counted under another kind too.
    pub fn also(&mut self, before: &Tally, kind: Comparison, other: Comparison) {
        let gained = self
            .compared_of(kind)
            .wrapping_sub(before.compared_of(kind));
        let worse = self.differ_of(kind).wrapping_sub(before.differ_of(kind));
        add(&mut self.compared, other as usize, gained);
        add(&mut self.differ, other as usize, worse);
    }

    // An answer, by the number of its refusal.
    pub fn refused(&mut self, refusal: Option<Refusal>) {
        let number = refusal.map_or(0, same::number_of);
        add(&mut self.refusals, number as usize, 1);
    }

    // So many answers.
    pub fn answered(&mut self, answer: Answer, by: u64) {
        add(&mut self.answers, answer as usize, by);
    }

    // How many answers differ in all.
    pub fn differences(&self) -> u64 {
        self.differ.iter().fold(0, |sum, n| sum.wrapping_add(*n))
    }
}
