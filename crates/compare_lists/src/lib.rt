// Arrays by value, lent as the list of each call over a lent list, so that a program can run those calls.
// Reading takes lists of 130 records and of 127, which is too short; the other calls take one of 100, too short for a routine of more wires.
#![tactic(auto)]

ghost use Rattle.std.specs.Prelude.{◌≡◌};
ghost use Rattle.document.specs.Judgements.{judgement_of};
ghost use Rattle.document.specs.Lent.{lent_needing, lent_padding, lent_judged, ReadsInto, WritesInto, RunsInto};

use data::{Filled, Judged, Needed, Padded, ProbeSet, Ran, Shape, Which, Wire, Written};

// ---- reading

// After a read: its answer, and the list.
#[derive(Clone, Copy)]
pub struct After<const N: usize> {
    pub answer: Filled,
    pub list: [Wire; N],
}

// Reads a routine text into a list of N records.
pub fn read<const N: usize>(text: &[u8], list: [Wire; N]) -> After<N>
    ensures { ReadsInto text.now list.entry result.answer result.list }
{
    let mut own = list;
    let answer = lent::read(text, &mut own);
    After { answer, list: own }
}

// ---- writing and running

pub fn write(shape: Shape, list: [Wire; 100], buf: &mut [u8]) -> Written
    ensures { WritesInto shape list buf.old result buf.new }
{
    lent::write(shape, &list, buf)
}

pub fn run(
    shape: Shape,
    list: [Wire; 100],
    shares: u64,
    randoms: u64,
    publics: u64,
    buf: &mut [u8],
) -> Ran
    ensures { RunsInto shape list shares randoms publics buf.old result buf.new }
{
    lent::run(shape, &list, shares, randoms, publics, buf)
}

// ---- one probe set

pub fn needs(shape: Shape, list: [Wire; 100], t: usize, set: ProbeSet) -> Needed
    ensures { result ≡ lent_needing shape list t set }
{
    lent::needs(shape, &list, t, set)
}

pub fn pads(shape: Shape, list: [Wire; 100], t: usize, set: ProbeSet) -> Padded
    ensures { result ≡ lent_padding shape list t set }
{
    lent::pads(shape, &list, t, set)
}

// ---- the judgements

pub fn judge(shape: Shape, list: [Wire; 100], which: Which, t: usize) -> Judged
    ensures { result ≡ lent_judged (judgement_of which) shape list t }
{
    lent::judge(shape, &list, which, t)
}
