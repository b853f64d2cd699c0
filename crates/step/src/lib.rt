// One step of the padding rule: the search for the lowest wire that can be padded, and by what.
#![tactic(auto)]

ghost use Rattle.std.specs.Prelude.{◌≡◌, [], ◌∷◌, ◌<◌, length};
ghost use Rattle.std.proofs.Math.Option.{none};
ghost use Rattle.document.specs.Padding.{pads_of, first_pad, next_step};
ghost use Rattle.data.specs.declared.Kind.TheVariants.{Xor};
ghost use Rattle.marks.specs.Passes.{only_wires};
ghost use Rattle.consumers.specs.Consumers.{Consumers};
ghost use Rattle.step.specs.Next.{step_in};

use data::{Kind, Step};
use marks::Wires;

// What a search for the next step goes by: the marks of this state, and how many live consumers that are no leaves each wire has.
#[derive(Clone, Copy)]
struct Search<'a> {
    wires: Wires<'a>,
    probe: &'a [bool; 128],
    leaf: &'a [bool; 128],
    alive: &'a [bool; 128],
    counts: &'a [u8; 128],
    ghost told: { Consumers wires.list.now leaf.now alive.now 0 counts.now },
}

impl Search<'_> {
    ghost use Rattle.step.specs.Searching.{serves_in, pad_in, lowest_in};

    // The operand is a leaf, is not probed, and has one live consumer that is not a leaf.
    #[tactic(auto, unfolding(crate::specs::Next::serves_by))]
    fn can_serve(&self, r: usize) -> bool
        requires { r < 128 }
        ensures { result ≡ serves_in self.now r }
    {
        self.leaf[r] & !self.probe[r] & (self.counts[r] == 1)
    }

    // The step of w by r, if r can serve: all there is for a not, and the second choice of an xor.
    #[tactic(auto, using(crate::proofs::Laws::Next::pad_one))]
    fn pad_by(&self, w: usize, r: usize) -> Option<Step>
        requires { (w < 128) × (r < 128) }
        ensures { step_in result ≡ first_pad (serves_in self.now) w (r ∷ []) none }
    {
        self.can_serve(r).then_some(Step {
            w: w as u8,
            r: r as u8,
        })
    }

    // The step of an xor with these operands: by the lower one, or else by the higher one.
    #[tactic(auto, using(crate::proofs::Laws::Next::pad_same, crate::proofs::Laws::Next::pad_two))]
    fn pad_by_two(&self, w: usize, a: usize, b: usize) -> Option<Step>
        requires { (w < 128) × (a < 128) × (b < 128) }
        ensures { step_in result ≡ first_pad (serves_in self.now) w (pads_of Xor a b) none }
    {
        if a == b {
            return None;
        }
        self.pad_by(w, a.min(b)).or(self.pad_by(w, a.max(b)))
    }

    // The step of wire w, if it is live and no leaf, and its record and its operands allow one.
    #[tactic(auto, using(crate::proofs::Laws::Next::pad_out, crate::proofs::Laws::Next::pad_xor, crate::proofs::Laws::Next::pad_not, crate::proofs::Laws::Next::pad_other))]
    fn pad(&self, w: usize) -> Option<Step>
        requires { w < length self.now.wires.list.now }
        ensures { step_in result ≡ pad_in self.now w }
    {
        if !self.alive[w] | self.leaf[w] {
            return None;
        }
        let x = self.wires.list[w];
        match x.kind {
            Kind::Xor => self.pad_by_two(w, usize::from(x.a), usize::from(x.b)),
            Kind::Not => self.pad_by(w, usize::from(x.a)),
            _ => None,
        }
    }

    // The lowest wire that can be padded, and by what.
    #[tactic(auto, using(crate::proofs::Laws::Next::lowest_found, crate::proofs::Laws::Next::lowest_on, crate::proofs::Laws::Next::lowest_end))]
    fn lowest_pad(&self) -> Option<Step>
        ensures { step_in result ≡ lowest_in self.now (length self.now.wires.list.now) 0 }
    {
        for w in 0..self.wires.list.len() {
            if let Some(step) = self.pad(w) {
                return Some(step);
            }
        }
        None
    }
}

// The next step, from the live wires and the counts of consumers of this state.
pub fn next_step(wires: Wires, probe: &[bool; 128], leaf: &[bool; 128]) -> Option<Step>
    ensures { step_in result ≡ next_step (only_wires wires.entry.list.now) probe.now leaf.now }
{
    let alive = marks::live_marks(wires, probe, leaf);
    let counts = consumers::consumer_counts(wires, leaf, &alive);
    let search = Search {
        wires,
        probe,
        leaf,
        alive: &alive,
        counts: &counts,
    };
    search.lowest_pad()
}
