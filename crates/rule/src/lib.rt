// The padding rule run to its end for a set of observed wires, and the two calls on one probe set.
#![tactic(auto)]

ghost use Rattle.std.specs.Prelude.{◌≡◌, ◌*◌, ◌<◌, ◌≤◌, take};
ghost use Rattle.data.specs.Basics.{at};
ghost use Rattle.document.specs.Reading.{routine_in};
ghost use Rattle.document.specs.Padding.{live, word};
ghost use Rattle.document.specs.Lent.{lent_needing, lent_padding};
ghost use Rattle.marks.specs.Passes.{only_wires};
ghost use Rattle.shares.specs.Words.{Shares};
ghost use Rattle.asking.specs.Checks.{checked};
ghost use Rattle.rule.specs.Run.{Wired, noted, run_of, needed_by};
ghost use Rattle.rule.specs.Calls.{observed_of, observed_if};

use data::{Listing, Needed, Padded, ProbeSet, Refusal, Step};
use marks::Wires;

// What stands behind the steps of a run.
const NO_STEP: Step = Step { w: 0, r: 0 };

// A run of the rule so far: the leaves, and the steps noted.
#[derive(Clone, Copy)]
pub struct Run {
    pub leaf: [bool; 128],
    pub steps: [Step; 128],
    pub len: usize,
}

// What one set comes to: its run, its needed shares, and whether it is plain-open at the order.
#[derive(Clone, Copy)]
pub struct Observed {
    pub run: Run,
    pub shares: u64,
    pub undecided: bool,
}

impl Run {
    // One step more: its wire is made a leaf, and the step is noted.
    fn make(&mut self, step: Step)
        requires { (self.old.len < 128) × (step.w < 128) }
        ensures { self.new ≡ noted self.old step }
    {
        self.leaf[usize::from(step.w)] = true;
        self.steps[self.len] = step;
        self.len += 1;
    }
}

// The wires of a listing alone.
fn wires_of(listing: &Listing) -> Wires<'_>
    requires { Wired listing.now.shape.n listing.now.wires }
    ensures { result.list.now ≡ take listing.now.shape.n listing.now.wires }
{
    Wires {
        list: &listing.wires[..listing.shape.n],
    }
}

// The run of the rule to its end; no run has more steps than there are wires.
fn run_to_end(wires: Wires, probe: &[bool; 128]) -> Run
    ensures { result ≡ run_of (only_wires wires.entry.list.now) probe.now }
{
    let leaf = marks::first_leaves(wires);
    let mut run = Run {
        leaf,
        steps: [NO_STEP; 128],
        len: 0,
    };
    for _ in 0..wires.list.len() {
        match step::next_step(wires, probe, &run.leaf) {
            Some(step) => run.make(step),
            None => return run,
        }
    }
    run
}

// The input shares, as many as are said, that are live once these leaves are the last.
fn live_shares(wires: Wires, many: usize, probe: &[bool; 128], leaf: &[bool; 128]) -> u64
    requires { many ≤ 64 }
    ensures { result ≡ word many (at (live (only_wires wires.entry.list.now) probe.now leaf.now)) }
{
    let alive = marks::live_marks(wires, probe, leaf);
    shares::share_word(&alive, many)
}

// The needed shares of the observed wires, which are marked.
pub fn needed_word(listing: Listing, probe: [bool; 128]) -> u64
    requires { Wired listing.shape.n listing.wires × Shares listing.shape.s listing.shape.d }
    ensures { result ≡ needed_by (routine_in listing) probe }
{
    let wires = wires_of(&listing);
    let run = run_to_end(wires, &probe);
    live_shares(wires, listing.shape.s * listing.shape.d, &probe, &run.leaf)
}

// The run of a set to its end, and what it comes to at the order, or the refusal of the first test that fails; the list of steps has room for every run.
fn observe(listing: Listing, t: usize, set: ProbeSet) -> Result<Observed, Refusal>
    ensures { result ≡ observed_if (checked listing.shape listing.wires t set) (observed_of (routine_in listing) t set) }
{
    asking::check_set(listing, t, set)?;
    let wires = wires_of(&listing);
    let probe = marks::probe_marks(set);
    let run = run_to_end(wires, &probe);
    let shares = live_shares(wires, listing.shape.s * listing.shape.d, &probe, &run.leaf);
    let undecided = shares::over(listing.shape.s, listing.shape.d, shares, t);
    Ok(Observed {
        run,
        shares,
        undecided,
    })
}

// The needed shares of one set, and whether it is plain-open at the order.
pub fn needs(listing: Listing, t: usize, set: ProbeSet) -> Needed
    ensures { result ≡ lent_needing listing.shape listing.wires t set }
{
    match observe(listing, t, set) {
        Ok(seen) => Needed {
            outcome: Ok(()),
            shares: seen.shares,
            undecided: seen.undecided,
        },
        Err(refusal) => Needed {
            outcome: Err(refusal),
            shares: 0,
            undecided: false,
        },
    }
}

// The steps of one set, and whether it is plain-open at the order.
pub fn pads(listing: Listing, t: usize, set: ProbeSet) -> Padded
    ensures { result ≡ lent_padding listing.shape listing.wires t set }
{
    match observe(listing, t, set) {
        Ok(seen) => {
            let steps = seen.run.steps;
            Padded {
                outcome: Ok(()),
                steps,
                len: seen.run.len,
                undecided: seen.undecided,
            }
        }
        Err(refusal) => Padded {
            outcome: Err(refusal),
            steps: [NO_STEP; 128],
            len: 0,
            undecided: false,
        },
    }
}
