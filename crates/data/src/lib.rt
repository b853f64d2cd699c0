// The data that all crates share: wire records, probe sets, steps, answers and refusals; and how probe sets are built.
// What probe sets and refusals mean is defined in specs/, all else in the crate `document`; the numbers are those of the sentences in
// docs/SPECIFICATION.md.
#![tactic(auto)]

ghost use Rattle.std.specs.Prelude.{◌≡◌, ◌+◌, ◌≤◌, ◌<◌, min, take, get_or};
ghost use Rattle.data.specs.ProbeSets.{ascending, empty_set, may_add, adding};
ghost use Rattle.data.specs.Refusals.{number_of};
ghost use Rattle.data.specs.Placing.{rank};

// 1.3, 8.9: bytes by name: what parts the fields of a text, what closes a line, what parts printed fields, and the digit 0.
pub const TAB: u8 = 9;

pub const LF: u8 = 10;

pub const SPACE: u8 = 32;

pub const ZERO: u8 = 48;

// 1.24: what makes a wire.
#[derive(Clone, Copy, PartialEq, Eq)]
pub enum Kind {
    Share,
    Rand,
    Pub,
    Xor,
    And,
    Not,
}

// 1.24: a wire record has its kind, two operands (of a share: secret and share number) and the output mark.
#[derive(Clone, Copy, PartialEq, Eq)]
pub struct Wire {
    pub kind: Kind,
    pub a: u8,
    pub b: u8,
    pub out: bool,
}

// 6.1: the sizes of a routine, S secrets of D shares each and n wires.
#[derive(Clone, Copy, PartialEq, Eq)]
pub struct Shape {
    pub s: usize,
    pub d: usize,
    pub n: usize,
}

// 6.2: a routine by value has its sizes, and its records, of which the first n matter.
#[derive(Clone, Copy, PartialEq, Eq)]
pub struct Listing {
    pub shape: Shape,
    pub wires: [Wire; 128],
}

// 1.8: the words that a line may begin with.
#[derive(Clone, Copy, PartialEq, Eq)]
pub enum Word {
    Routine,
    Rand,
    Pub,
    Xor,
    And,
    Not,
    Out,
}

// 1.9: a line by its form, its word and its numbers.
#[derive(Clone, Copy, PartialEq, Eq)]
pub enum Line {
    Head(usize, usize),
    Rand(usize),
    Pub(usize),
    Xor(usize, usize, usize),
    And(usize, usize, usize),
    Not(usize, usize),
    Out(usize),
}

// 7.1 to 7.16: the refusals by their numbers.
#[derive(Clone, Copy, PartialEq, Eq)]
pub enum Refusal {
    Length = 1,
    Byte = 2,
    Header = 3,
    Range = 4,
    Form = 5,
    Next = 6,
    Operand = 7,
    Ceiling = 8,
    Output = 9,
    Lent = 10,
    Records = 11,
    Order = 12,
    Probes = 13,
    Bits = 14,
    Buffer = 15,
    Steps = 16,
}

// 1.41: what was read so far, S, D, n, how many randoms, publics and outputs, one above the last output (0 before any), and the records.
#[derive(Clone, Copy, PartialEq, Eq)]
pub struct State {
    pub s: usize,
    pub d: usize,
    pub n: usize,
    pub rands: usize,
    pub pubs: usize,
    pub outs: usize,
    pub low: usize,
    pub wires: [Wire; 128],
}

// 1.36: a read routine, or a refusal with the line at fault.
// A struct and no Result: a refused one has sizes and records too (7.23, theorem refused_reading).
#[derive(Clone, Copy, PartialEq, Eq)]
pub struct Read {
    pub outcome: Result<(), Refusal>,
    pub line: usize,
    pub listing: Listing,
}

// 6.7: what became of a read into a lent list, which has the records.
// A struct and no Result: a refused one has sizes too (7.23, theorem refused_read).
#[derive(Clone, Copy, PartialEq, Eq)]
pub struct Filled {
    pub outcome: Result<(), Refusal>,
    pub line: usize,
    pub shape: Shape,
}

// 6.11: what became of a writing, and how many bytes it wrote.
// A struct and no Result: a refused one has a length too (7.24, theorem refused_write).
#[derive(Clone, Copy, PartialEq, Eq)]
pub struct Written {
    pub outcome: Result<(), Refusal>,
    pub len: usize,
}

// 2.7: what became of a run, and how many bytes it wrote.
// A struct and no Result: a refused one has a length too (7.24, theorem refused_run).
#[derive(Clone, Copy, PartialEq, Eq)]
pub struct Ran {
    pub outcome: Result<(), Refusal>,
    pub len: usize,
}

// 4.1: up to four wire numbers, in the first `len` places.
#[derive(Clone, Copy, PartialEq, Eq)]
pub struct ProbeSet {
    pub places: [u8; 4],
    pub len: usize,
}

// 4.5: a set handed back by an addition, with what became of the addition.
// A struct and no Result: a refused one hands its set back too (7.27, theorem refused_add).
#[derive(Clone, Copy, PartialEq, Eq)]
pub struct Added {
    pub outcome: Result<(), Refusal>,
    pub set: ProbeSet,
}

// 3.19: a padding step, wire w made a leaf by its operand r.
#[derive(Clone, Copy, PartialEq, Eq)]
pub struct Step {
    pub w: u8,
    pub r: u8,
}

// 5.22, 5.23: the needed shares of one set, bit k for wire k; undecided says that the set is plain-open at the order.
// A struct and no Result: a refused one has a word and a flag too (7.26, theorem refused_needs).
#[derive(Clone, Copy, PartialEq, Eq)]
pub struct Needed {
    pub outcome: Result<(), Refusal>,
    pub shares: u64,
    pub undecided: bool,
}

// 5.22, 5.25: the steps of one set, in the first `len` pairs; the others are 0, 0.
// A struct and no Result: a refused one has steps and a flag too (7.26, theorem refused_pads). No heap: an array with its length.
#[derive(Clone, Copy, PartialEq, Eq)]
pub struct Padded {
    pub outcome: Result<(), Refusal>,
    pub steps: [Step; 128],
    pub len: usize,
    pub undecided: bool,
}

// 5.3, 5.4: which judgement is asked for.
#[derive(Clone, Copy, PartialEq, Eq)]
pub enum Which {
    Plain,
    Strong,
}

// 5.13, 5.14: the verdict of a judgement, with the count of sets judged, the open one included.
#[derive(Clone, Copy, PartialEq, Eq)]
pub enum Verdict {
    Pass(u64),
    Open(u64),
    Refused(Refusal),
}

// 5.14, 5.15: a judgement's answer; the set is empty unless the verdict is open.
#[derive(Clone, Copy, PartialEq, Eq)]
pub struct Judged {
    pub verdict: Verdict,
    pub set: ProbeSet,
}

impl Refusal {
    // 7.1 to 7.16: its number.
    pub fn number(self) -> u64
        ensures { result ≡ number_of self }
    {
        self as u64
    }
}

// 4.3: each held wire is above the one before it.
#[tactic(auto, using(crate::proofs::Laws::Placing::ascends_on, crate::proofs::Laws::Placing::ascends_not, crate::proofs::Laws::Placing::ascends_end))]
pub fn is_ascending(held: &[u8]) -> bool
    ensures { result ≡ ascending held.now }
{
    for i in 1..held.len() {
        if held[i] <= held[i - 1] {
            return false;
        }
    }
    true
}

// How many held wires stand before the first that is above w.
#[tactic(auto, using(crate::proofs::Laws::Placing::rank_here, crate::proofs::Laws::Placing::rank_later, crate::proofs::Laws::Placing::rank_none))]
fn rank_of(held: &[u8], w: u8) -> usize
    ensures { result ≡ rank w held.now }
{
    for (i, p) in held.iter().enumerate() {
        if w < *p {
            return i;
        }
    }
    held.len()
}

// 4.6: an addition is not refused.
#[tactic(auto, using(crate::proofs::Laws::Placing::full_refused, crate::proofs::Laws::Placing::high_refused, crate::proofs::Laws::Placing::contained_refused, crate::proofs::Laws::Placing::not_contained_decides))]
fn may_add(set: &ProbeSet, w: usize) -> bool
    ensures { result ≡ may_add set.now w }
{
    if 4 <= set.len {
        return false;
    }
    if 127 < w {
        return false;
    }
    let held = &set.places[..set.len];
    !held.contains(&(w as u8)) && is_ascending(held)
}

impl ProbeSet {
    // 4.4: the set that a building starts with.
    pub fn empty() -> ProbeSet
        ensures { result ≡ empty_set }
    {
        ProbeSet {
            places: [0; 4],
            len: 0,
        }
    }

    // 4.5 to 4.10: the set with w put in at its place, or as it came.
    #[tactic(auto, using(crate::proofs::Laws::Placing::may_add_room, crate::proofs::Laws::Placing::may_add_low, crate::proofs::Laws::Placing::rank_fits, crate::proofs::Laws::Placing::held_long, crate::proofs::Laws::Placing::added, crate::proofs::Laws::Placing::not_added))]
    pub fn add(self, w: usize) -> Added
        ensures { result ≡ adding self w }
    {
        if !may_add(&self, w) {
            return Added {
                outcome: Err(Refusal::Probes),
                set: self,
            };
        }
        let ProbeSet { mut places, len } = self;
        let w = w as u8;
        let k = rank_of(&places[..len], w);
        // those from k on move up by one
        places.copy_within(k..len, k + 1);
        places[k] = w;
        Added {
            outcome: Ok(()),
            set: ProbeSet {
                places,
                len: len + 1,
            },
        }
    }
}
