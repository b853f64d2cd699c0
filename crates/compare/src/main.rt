// Random routines from a fixed seed: every public call of the product compared with an answer found by other means.
#![tactic(auto)]

use compare_answers::tally::{Answer, Comparison, Tally};
use compare_calls::texts;
use compare_judging::{judged, sets};
use compare_making::{chance, inverting, making, spoiling};
use compare_texts::spelling;
use data::Listing;
use std::io;
use std::io::{BufWriter, Write};

const SEED: u64 = 20261115;

const ROUTINES: u64 = 2400;

const LARGE: u64 = 160;

// ---- printing

// What is compared, as it is printed.
const KINDS: [(&str, Comparison); 27] = [
    ("texts read", Comparison::Texts),
    ("damaged texts read", Comparison::Damaged),
    ("routines written", Comparison::Writings),
    ("routines run", Comparison::Runs),
    ("lists of records tested", Comparison::Records),
    ("additions to a set", Comparison::Additions),
    ("sets, needed shares", Comparison::Needed),
    ("sets, steps", Comparison::Steps),
    ("plain judgements", Comparison::Plain),
    ("strong judgements", Comparison::Strong),
    ("texts read into a lent list", Comparison::LentReads),
    ("texts read into too short a list", Comparison::LentShort),
    ("routines written from a list", Comparison::LentWritings),
    ("routines run from a list", Comparison::LentRuns),
    ("sets of a list, needed shares", Comparison::LentNeeded),
    ("sets of a list, steps", Comparison::LentSteps),
    ("plain judgements of a list", Comparison::LentPlain),
    ("strong judgements of a list", Comparison::LentStrong),
    ("sets of a plain pass, starts counted", Comparison::Even),
    ("sets of a strong pass, drawings counted", Comparison::Drawn),
    ("sets, drawings counted", Comparison::NeededDrawn),
    (
        "sets of a plain pass by inverted randoms, starts counted",
        Comparison::EvenInverted,
    ),
    (
        "sets of a strong pass by inverted randoms, drawings counted",
        Comparison::DrawnInverted,
    ),
    (
        "judgements also made with no not padded",
        Comparison::NotsKept,
    ),
    ("orders above a plain judgement", Comparison::Lower),
    ("orders above a strong judgement", Comparison::LowerStrong),
    (
        "orders of a strong judgement, plain",
        Comparison::StrongPlain,
    ),
];

// How often each answer was given, likewise.
const ANSWERS: [(&str, Answer); 8] = [
    ("plain judgements that pass", Answer::PlainPass),
    ("plain judgements that are open", Answer::PlainOpen),
    ("strong judgements that pass", Answer::StrongPass),
    ("strong judgements that are open", Answer::StrongOpen),
    (
        "judgements that pass by inverted randoms",
        Answer::PassInverted,
    ),
    ("sets that are not open", Answer::SetsClosed),
    ("sets that are open", Answer::SetsOpen),
    ("steps made", Answer::StepsMade),
];

fn say_kinds(out: &mut impl Write, t: &Tally) -> io::Result<()> {
    for (words, kind) in KINDS {
        let compared = t.compared_of(kind);
        let differ = t.differ_of(kind);
        writeln!(out, "{words}: compared {compared}, differ {differ}")?;
    }
    Ok(())
}

fn say_answers(out: &mut impl Write, t: &Tally) -> io::Result<()> {
    for (words, answer) in ANSWERS {
        writeln!(out, "{words}: {}", t.answers_of(answer))?;
    }
    Ok(())
}

// How often each refusal was given, from 1 to 15.
fn say_refusals(out: &mut impl Write, t: &Tally) -> io::Result<()> {
    write!(out, "refusals 1 to 15:")?;
    for number in 1..16 {
        write!(out, " {}", t.refusals_of(number))?;
    }
    writeln!(out)
}

fn say_all(out: &mut impl Write, t: &Tally) -> io::Result<()> {
    writeln!(out, "routines judged at every order: {ROUTINES}")?;
    writeln!(out, "routines up to the ceilings: {LARGE}")?;
    writeln!(out, "routines about one ceiling: {LARGE}")?;
    say_kinds(out, t)?;
    say_answers(out, t)?;
    say_refusals(out, t)
}

// The routine's text, if the answers differ in more than before it.
fn show(out: &mut impl Write, before: &Tally, t: &Tally, g: &Listing) -> io::Result<()> {
    if before.differences() == t.differences() {
        return Ok(());
    }
    let mut text = [32u8; 4096];
    spelling::text(*g, &mut text);
    writeln!(
        out,
        "answers differ at this routine, or at what was made of it:"
    )?;
    out.write_all(&text)
}

// ---- the routines

// Every call but the judgements, on the routine and on what a spoiling makes of it.
fn compare_calls(t: &mut Tally, g: &Listing, seed: u64, sets: u64) {
    texts::compare_reading(t, *g, chance::draw(seed, 1));
    texts::compare_writing(t, *g, chance::draw(seed, 2));
    texts::compare_running(t, *g, chance::draw(seed, 3));
    texts::compare_records(t, *g);
    sets::compare_sets(t, g, chance::draw(seed, 4), sets);
    sets::compare_additions(t, chance::draw(seed, 5));
    compare_spoiled(t, g, chance::draw(seed, 6));
}

fn compare_spoiled(t: &mut Tally, g: &Listing, seed: u64) {
    let h = spoiling::spoiled(*g, seed);
    texts::compare_text(t, h);
    texts::compare_records(t, h);
    texts::compare_writing(t, h, seed);
    texts::compare_running(t, h, seed);
    texts::compare_records(t, spoiling::spoiled(h, chance::draw(seed, 7)));
    sets::compare_sets(t, &h, seed, 1);
}

// What `calls` counts of a routine, and its text where answers differ in it.
fn watched<F: FnOnce(&mut Tally)>(
    out: &mut impl Write,
    t: &mut Tally,
    g: &Listing,
    calls: F,
) -> io::Result<()>
    requires { F.IsAlwaysCallable calls }
{
    let before = *t;
    calls(t);
    show(out, &before, t, g)
}

fn compare_small(out: &mut impl Write, t: &mut Tally, seed: u64) -> io::Result<()> {
    let g = inverting::routine(chance::draw(seed, 8));
    watched(out, t, &g, |t: &mut Tally| {
        compare_calls(t, &g, seed, 10);
        judged::compare_orders(t, &g, seed);
        sets::compare_draws(t, &g, chance::draw(seed, 11), 20);
    })
}

// Routines up to the ceilings are judged at order 1 only; order 5 is refused also where D is above it.
fn compare_large(out: &mut impl Write, t: &mut Tally, seed: u64) -> io::Result<()> {
    let g = inverting::large(chance::draw(seed, 9));
    watched(out, t, &g, |t: &mut Tally| {
        compare_calls(t, &g, seed, 4);
        judged::compare_order(t, &spoiling::spoiled(g, seed), 1);
        judged::compare_order(t, &g, 5);
    })
}

fn compare_crowded(out: &mut impl Write, t: &mut Tally, seed: u64) -> io::Result<()> {
    let g = making::crowded(chance::draw(seed, 10));
    watched(out, t, &g, |t: &mut Tally| {
        compare_calls(t, &g, seed, 2);
        texts::compare_next(t, g);
    })
}

fn compare_all(out: &mut impl Write, t: &mut Tally) -> io::Result<()> {
    for k in 0..ROUTINES {
        compare_small(out, t, chance::draw(SEED, k))?;
    }
    for k in 0..LARGE {
        compare_large(out, t, chance::draw(SEED ^ 1, k))?;
        compare_crowded(out, t, chance::draw(SEED ^ 2, k))?;
    }
    Ok(())
}

fn main(rt: HostRuntime) -> io::Result<()> {
    let mut out = BufWriter::new(rt.alloc(), io::writer(&rt))?;
    let mut t = Tally::new();
    compare_all(&mut out, &mut t)?;
    say_all(&mut out, &t)?;
    out.flush()
}
