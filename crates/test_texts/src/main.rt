// Texts from standard input, parted by a zero byte: what reading, writing and running answer for each, printed.
#![tactic(auto)]

use data::{Listing, Shape};
use std::io;
use std::io::{BufWriter, Write};
use test_show::outcome_number;

// What every buffer is filled with.
const FILL: u8 = 42;

// How many bytes are not the one that the buffer was filled with.
fn altered(buf: &[u8]) -> usize {
    buf.iter().filter(|b| **b != FILL).count()
}

// ---- the calls

// `write`: outcome, length, whether the text came back, how many later bytes were altered.
fn show_write(out: &mut impl Write, listing: &Listing, text: &[u8]) -> io::Result<()> {
    let mut buf = [FILL; 4096];
    let r = writer::write(*listing, &mut buf);
    let back = if buf.starts_with(text) {
        "same"
    } else {
        "other"
    };
    write!(out, "write {} {} {back}", outcome_number(r.outcome), r.len)?;
    if let Some(later) = buf.get(r.len..) {
        write!(out, " {}", altered(later))?;
    }
    writeln!(out)
}

// `write` into a buffer that is one byte too short: outcome, length, how many bytes were altered.
fn show_short_write(out: &mut impl Write, listing: &Listing, text: &[u8]) -> io::Result<()> {
    let mut buf = [FILL; 4096];
    if text.is_empty() {
        return Ok(());
    }
    let room = buf.len().min(text.len() - 1);
    let r = writer::write(*listing, &mut buf[..room]);
    writeln!(
        out,
        "write short {} {} {}",
        outcome_number(r.outcome),
        r.len,
        altered(&buf)
    )
}

// The three words that a routine is run from, and how many bytes it may write.
#[derive(Clone, Copy)]
struct Run {
    shares: u64,
    randoms: u64,
    publics: u64,
    room: usize,
}

// `run`: outcome, length, and the buffer's bytes for the wires and one more.
fn show_run(out: &mut impl Write, listing: &Listing, r: Run) -> io::Result<()> {
    let mut buf = [FILL; 130];
    let room = buf.len().min(r.room);
    let a = runner::run(*listing, r.shares, r.randoms, r.publics, &mut buf[..room]);
    write!(out, "run {} {}:", outcome_number(a.outcome), a.len)?;
    for b in buf.iter().take(listing.shape.n.saturating_add(1)) {
        write!(out, " {b}")?;
    }
    writeln!(out)
}

// From words of several kinds, and twice into one byte too few.
fn show_runs(out: &mut impl Write, listing: &Listing) -> io::Result<()> {
    let n = listing.shape.n;
    if n < 1 || 128 < n {
        return Ok(());
    }
    for (shares, randoms, publics, room) in [
        (0, 0, 0, n + 2),
        (1, 0, 0, n + 2),
        (2, 1, 0, n + 2),
        (0, 2, 1, n + 2),
        (0, 0, 0, n - 1),
        (9223372036854775808, 0, 0, n - 1),
    ] {
        let r = Run {
            shares,
            randoms,
            publics,
            room,
        };
        show_run(out, listing, r)?;
    }
    Ok(())
}

// ---- records that no read gives

// With another secret number at wire 0.
fn spoiled(listing: &Listing) -> Listing {
    let mut other = *listing;
    other.wires[0].a = 1;
    other
}

// `run` of sizes and records that may be spoiled: outcome, and how many bytes were altered.
fn show_refused_run(out: &mut impl Write, listing: Listing) -> io::Result<()> {
    let mut buf = [FILL; 256];
    let a = runner::run(listing, 0, 0, 0, &mut buf);
    write!(out, " {} {}", outcome_number(a.outcome), altered(&buf))
}

// One wire more than was read, 129 wires, no secret, nine shares, and a record that is not its place's.
fn show_spoiled(out: &mut impl Write, listing: &Listing) -> io::Result<()> {
    let Listing { shape, wires } = *listing;
    let Shape { s, d, n } = shape;
    write!(out, "spoiled")?;
    if n <= 128 {
        let shape = Shape { s, d, n: n + 1 };
        show_refused_run(out, Listing { shape, wires })?;
    }
    for shape in [
        Shape { s, d, n: 129 },
        Shape { s: 0, d, n },
        Shape { s, d: 9, n },
    ] {
        show_refused_run(out, Listing { shape, wires })?;
    }
    show_refused_run(out, spoiled(listing))?;
    writeln!(out)
}

// ---- one text

fn show_text(out: &mut impl Write, text: &[u8]) -> io::Result<()> {
    let r = reader::read(text);
    let Shape { s, d, n } = r.listing.shape;
    writeln!(
        out,
        "read {} {} {s} {d} {n}",
        outcome_number(r.outcome),
        r.line
    )?;
    if r.outcome.is_ok() {
        show_write(out, &r.listing, text)?;
        show_short_write(out, &r.listing, text)?;
        show_runs(out, &r.listing)?;
        show_spoiled(out, &r.listing)?;
    }
    Ok(())
}

// Each text ends in a zero byte.
fn show_all(out: &mut impl Write, texts: &[u8]) -> io::Result<()> {
    for part in texts.split_inclusive(|b| *b == 0) {
        show_text(out, test_show::text_of(part))?;
    }
    Ok(())
}

fn main(rt: HostRuntime) -> io::Result<()> {
    let mut out = BufWriter::new(rt.alloc(), io::writer(&rt))?;
    let texts = test_show::input(rt.stdin(), rt.alloc())?;
    show_all(&mut out, &texts)?;
    out.flush()
}
