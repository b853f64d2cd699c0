// The calls over a lent list of wire records.
// Every function that has the list is straight-line and tests nothing: `copies` copies records to and from listings, and functions that
// have those decide.
#![tactic(auto)]

ghost use Rattle.std.specs.Prelude.{◌≡◌};
ghost use Rattle.document.specs.Judgements.{judgement_of};
ghost use Rattle.document.specs.Lent.{lent_needing, lent_padding, lent_judged, ReadsInto, WritesInto, RunsInto};

use data::{Filled, Judged, Needed, Padded, ProbeSet, Ran, Shape, Which, Wire, Written};

// ---- reading

// Reads a routine text into the list. Refused, it has n = 0, so that no record is stored.
pub fn read(text: &[u8], list: &mut [Wire]) -> Filled
    ensures { ReadsInto text.now list.old result list.new }
{
    let r = filling::read_for(text, list.len());
    copies::store(filling::wires_of(r), filling::size_of(r), list);
    filling::answer_of(r)
}

// ---- writing and running

// Writes the text of the routine.
pub fn write(shape: Shape, list: &[Wire], buf: &mut [u8]) -> Written
    ensures { WritesInto shape list.now buf.old result buf.new }
{
    writer::write(copies::listing_of(shape, list), buf)
}

// Runs the routine.
pub fn run(
    shape: Shape,
    list: &[Wire],
    shares: u64,
    randoms: u64,
    publics: u64,
    buf: &mut [u8],
) -> Ran
    ensures { RunsInto shape list.now shares randoms publics buf.old result buf.new }
{
    runner::run(
        copies::listing_of(shape, list),
        shares,
        randoms,
        publics,
        buf,
    )
}

// ---- one probe set

// The needed shares of a set, and whether it is plain-open at order t.
pub fn needs(shape: Shape, list: &[Wire], t: usize, set: ProbeSet) -> Needed
    ensures { result ≡ lent_needing shape list.now t set }
{
    rule::needs(copies::listing_of(shape, list), t, set)
}

// The padding steps of a set, and whether it is plain-open at order t.
pub fn pads(shape: Shape, list: &[Wire], t: usize, set: ProbeSet) -> Padded
    ensures { result ≡ lent_padding shape list.now t set }
{
    rule::pads(copies::listing_of(shape, list), t, set)
}

// ---- the judgements

// The judgement of order t that is asked for.
pub fn judge(shape: Shape, list: &[Wire], which: Which, t: usize) -> Judged
    ensures { result ≡ lent_judged (judgement_of which) shape list.now t }
{
    judge::judge(copies::listing_of(shape, list), which, t)
}
