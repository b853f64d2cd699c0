// Routines from standard input, each ended by a zero byte: what the judgements and the set calls answer for each, and some additions, printed.
#![tactic(auto)]

use data::{Listing, ProbeSet, Shape, Which};
use std::io;
use std::io::{BufWriter, Write};
use test_show::{Answer, Wires, outcome_number};

// ---- sets

// An addition: its outcome, and all places of the set that came back.
fn show_added(out: &mut impl Write, set: ProbeSet, w: usize) -> io::Result<ProbeSet> {
    let added = set.add(w);
    let back = added.set;
    let number = outcome_number(added.outcome);
    write!(out, "add {w}: {number}; {}:", back.len)?;
    for place in &back.places {
        write!(out, " {place}")?;
    }
    writeln!(out)?;
    Ok(back)
}

// Sets that no building gives.
fn show_unbuilt(out: &mut impl Write) -> io::Result<()> {
    for (a, b, c, d, len) in [
        (5, 7, 9, 11, 1),
        (5, 5, 9, 11, 3),
        (1, 2, 4, 6, 5),
        (1, 2, 4, 6, 4),
    ] {
        let places = [a, b, c, d];
        show_added(out, ProbeSet { places, len }, 3)?;
    }
    Ok(())
}

// Up to four wires, one already there, one above 127, a fifth; and sets that no building gives.
fn show_additions(out: &mut impl Write) -> io::Result<()> {
    let mut set = ProbeSet::empty();
    for w in [3, 1, 3, 128, 127, 2, 5] {
        // in two steps: of a call whose result goes straight into a local that holds an array no proof is generated
        let next = show_added(out, set, w)?;
        set = next;
    }
    show_unbuilt(out)
}

// ---- one set

// The needed shares of the set, whether it is open at the order of its size, and its steps as they were made.
fn show_set(out: &mut impl Write, listing: &Listing, set: ProbeSet) -> io::Result<()> {
    let needed = rule::needs(*listing, set.len, set);
    let padded = rule::pads(*listing, set.len, set);
    write!(out, "set{}:", Wires(set))?;
    if let Err(refusal) = needed.outcome {
        return writeln!(out, " refused {}", refusal.number());
    }
    let open = if needed.undecided { " open" } else { "" };
    write!(out, " {}{open};", needed.shares)?;
    for step in padded.steps.iter().take(padded.len) {
        write!(out, " {} {}", step.w, step.r)?;
    }
    writeln!(out)
}

// ---- the sets of one, two and three wires

fn show_singles(out: &mut impl Write, listing: &Listing, n: u8) -> io::Result<()> {
    for a in 0..n {
        let places = [a, 0, 0, 0];
        show_set(out, listing, ProbeSet { places, len: 1 })?;
    }
    Ok(())
}

fn show_pairs(out: &mut impl Write, listing: &Listing, n: u8) -> io::Result<()> {
    for a in 0..n {
        for b in a + 1..n {
            let places = [a, b, 0, 0];
            show_set(out, listing, ProbeSet { places, len: 2 })?;
        }
    }
    Ok(())
}

// The set where it needs three shares.
fn show_if_three(out: &mut impl Write, listing: &Listing, set: ProbeSet) -> io::Result<()> {
    if rule::needs(*listing, 3, set).shares.count_ones() == 3 {
        writeln!(out, "three shares:{}", Wires(set))?;
    }
    Ok(())
}

fn show_threes(out: &mut impl Write, listing: &Listing, n: u8) -> io::Result<()> {
    for a in 0..n {
        for b in a + 1..n {
            for c in b + 1..n {
                let places = [a, b, c, 0];
                show_if_three(out, listing, ProbeSet { places, len: 3 })?;
            }
        }
    }
    Ok(())
}

// ---- one routine

// Both judgements of orders 0 to 5.
fn show_orders(out: &mut impl Write, listing: &Listing) -> io::Result<()> {
    for t in 0..6 {
        for (word, which) in [("plain", Which::Plain), ("strong", Which::Strong)] {
            let answer = Answer(judge::judge(*listing, which, t));
            writeln!(out, "{word} {t} {answer}")?;
        }
    }
    Ok(())
}

fn show_routine(out: &mut impl Write, listing: &Listing) -> io::Result<()> {
    let Shape { s, d, n } = listing.shape;
    writeln!(out, "routine {s} {d} {n}")?;
    show_orders(out, listing)?;
    if n <= 16 {
        let wires = n as u8;
        show_singles(out, listing, wires)?;
        show_pairs(out, listing, wires)?;
        if d == 4 {
            show_threes(out, listing, wires)?;
        }
    }
    Ok(())
}

// Each routine's text ends in a zero byte.
fn show_all(out: &mut impl Write, texts: &[u8]) -> io::Result<()> {
    for part in texts.split_inclusive(|b| *b == 0) {
        let r = reader::read(test_show::text_of(part));
        show_routine(out, &r.listing)?;
    }
    Ok(())
}

fn main(rt: HostRuntime) -> io::Result<()> {
    let mut out = BufWriter::new(rt.alloc(), io::writer(&rt))?;
    let texts = test_show::input(rt.stdin(), rt.alloc())?;
    show_all(&mut out, &texts)?;
    show_additions(&mut out)?;
    out.flush()
}
