// The padding rule by search over the whole state: live by sweeps until nothing changes, consumers counted by looking at each wire.
use crate::{adding, shares};
use compare_lines::wires;
use compare_texts::marks::Marks;
use compare_texts::spelling;
use data::{Kind, Listing, Needed, Padded, ProbeSet, Refusal, Shape, Step, Wire};

// ---- one wire

// The wires that it computes from; of a not its one, twice.
fn operands(x: Wire) -> Option<(u8, u8)> {
    match x.kind {
        Kind::Share | Kind::Rand | Kind::Pub => None,
        Kind::Xor | Kind::And => Some((x.a, x.b)),
        Kind::Not => Some((x.a, x.a)),
    }
}

fn computes_from(x: Wire, r: u8) -> bool {
    operands(x).is_some_and(|(a, b)| a == r || b == r)
}

// Whether the value turns with that of either operand: an xor's of two wires, a not's of its one.
fn turns(x: Wire) -> bool {
    match x.kind {
        Kind::Share | Kind::Rand | Kind::Pub | Kind::And => false,
        Kind::Xor => x.a != x.b,
        Kind::Not => true,
    }
}

// ---- the rule

// The records, the probed wires, and the wires that are leaves and live.
#[derive(Clone, Copy)]
struct State<'a> {
    wires: &'a [Wire],
    probe: Marks<2>,
    leaf: Marks<2>,
    live: Marks<2>,
}

impl<'a> State<'a> {
    // The first leaves are the randoms.
    fn begun(wires: &'a [Wire], probe: Marks<2>) -> State<'a> {
        let mut leaf = Marks::none();
        for (w, x) in wires.iter().enumerate() {
            if x.kind == Kind::Rand {
                leaf.set(w);
            }
        }
        State {
            wires,
            probe,
            leaf,
            live: probe,
        }
    }

    // Whether the wire is live and no leaf, so that what it computes from is live.
    fn is_computed(&self, w: usize) -> bool {
        self.live.has(w) && !self.leaf.has(w)
    }

    // The live wires and what they compute from, from the last wire to the first.
    fn sweep(&mut self) {
        for (w, x) in self.wires.iter().enumerate().rev() {
            if self.is_computed(w) {
                if let Some((a, b)) = operands(*x) {
                    self.live.set(usize::from(a));
                    self.live.set(usize::from(b));
                }
            }
        }
    }

    // A sweep that changes something makes a wire live, so 128 are enough.
    fn spread(&mut self) {
        self.live = self.probe;
        for _ in 0..129 {
            let before = self.live;
            self.sweep();
            if before == self.live {
                return;
            }
        }
    }

    // How many live wires that are no leaves compute from r.
    fn consumers(&self, r: u8) -> usize {
        self.wires
            .iter()
            .enumerate()
            .filter(|(w, x)| self.is_computed(*w) && computes_from(**x, r))
            .count()
    }

    // Whether r serves as the pad of a wire that computes from it.
    fn serves(&self, r: u8) -> bool {
        let w = usize::from(r);
        !self.probe.has(w) && self.leaf.has(w) && self.consumers(r) == 1
    }

    // The step at w, if w can be padded: by its lower operand, or else by the other one.
    fn step_at(&self, w: usize, x: Wire) -> Option<Step> {
        if !turns(x) || !self.is_computed(w) {
            return None;
        }
        let (a, b) = operands(x)?;
        let w = wires::low_byte(w);
        [a.min(b), a.max(b)]
            .iter()
            .find(|r| self.serves(**r))
            .map(|r| Step { w, r: *r })
    }

    fn next_step(&self) -> Option<Step> {
        self.wires
            .iter()
            .enumerate()
            .find_map(|(w, x)| self.step_at(w, *x))
    }
}

// All steps of a set, and the wires that are live at their end.
#[derive(Clone, Copy)]
pub struct Padding {
    pub len: usize,
    pub steps: [Step; 128],
    pub live: Marks<2>,
}

// Every step makes one more wire a leaf, so 128 are enough.
pub fn pad_all(wires: &[Wire], probe: Marks<2>) -> Padding {
    let mut state = State::begun(wires, probe);
    let mut steps = [Step { w: 0, r: 0 }; 128];
    for len in 0..128 {
        state.spread();
        let live = state.live;
        let Some(step) = state.next_step() else {
            return Padding { len, steps, live };
        };
        steps[len] = step;
        state.leaf.set(usize::from(step.w));
    }
    state.spread();
    Padding {
        len: 128,
        steps,
        live: state.live,
    }
}

// ---- sets

pub fn probe_marks(set: &ProbeSet) -> Marks<2> {
    let mut probe = Marks::none();
    for w in adding::held(set) {
        probe.set(usize::from(*w));
    }
    probe
}

// The live shares as a word.
pub fn share_word(shape: Shape, live: Marks<2>) -> u64 {
    shares::word_of(wires::shares(shape.s, shape.d), |k| live.has(k))
}

// What the two calls on one set answer.
#[derive(Clone, Copy)]
pub struct Answers {
    pub needed: Needed,
    pub padded: Padded,
}

fn refused(refusal: Refusal) -> Answers {
    let outcome = Err(refusal);
    Answers {
        needed: Needed {
            outcome,
            shares: 0,
            undecided: false,
        },
        padded: Padded {
            outcome,
            steps: [Step { w: 0, r: 0 }; 128],
            len: 0,
            undecided: false,
        },
    }
}

fn answered(shape: Shape, t: usize, p: Padding) -> Answers {
    let outcome = Ok(());
    let Padding { len, steps, live } = p;
    let word = share_word(shape, live);
    let undecided = shares::is_over(shape, word, t);
    Answers {
        needed: Needed {
            outcome,
            shares: word,
            undecided,
        },
        padded: Padded {
            outcome,
            steps,
            len,
            undecided,
        },
    }
}

// The refusals of every call at an order, in their order.
pub fn may_judge(listing: &Listing, t: usize) -> Result<(), Refusal> {
    if !spelling::could_be_read(*listing) {
        return Err(Refusal::Records);
    }
    if t < 1 || 4 < t || listing.shape.d <= t {
        return Err(Refusal::Order);
    }
    Ok(())
}

fn may_judge_set(listing: &Listing, t: usize, set: &ProbeSet) -> Result<(), Refusal> {
    may_judge(listing, t)?;
    let fits = set.len != 0 && set.len <= t;
    if fits && adding::is_ascending(set) && adding::is_below(set, listing.shape.n) {
        return Ok(());
    }
    Err(Refusal::Probes)
}

pub fn judge_set(listing: &Listing, t: usize, set: &ProbeSet) -> Answers {
    match may_judge_set(listing, t, set) {
        Ok(()) => answered(
            listing.shape,
            t,
            pad_all(wires::of(listing), probe_marks(set)),
        ),
        Err(refusal) => refused(refusal),
    }
}
