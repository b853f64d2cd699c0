// Texts read, routines written and run, and the test of refusal 11, each by both.
use crate::lists;
use compare_answers::same;
use compare_answers::tally::{Comparison, Tally};
use compare_lines::parts::first;
use compare_lines::{splitting, wires};
use compare_making::{chance, damaging, lending};
use compare_texts::running::Bits;
use compare_texts::{running, spelling};
use data::{Kind, Listing, Refusal, Shape};

// ---- reading

fn compare_read(t: &mut Tally, kind: Comparison, text: &[u8]) {
    let r = reader::read(text);
    let own = splitting::read(text);
    t.compared(kind, same::same_read(r, own));
    lists::compare_read(t, text, own);
    t.refused(own.err().map(|f| f.refusal));
}

fn compare_damaged(t: &mut Tally, text: &[u8], seed: u64) {
    let mut one = [0u8; 4200];
    let len = damaging::damaged(text, seed, &mut one);
    let once = first(&one, len);
    compare_read(t, Comparison::Damaged, once);
    if chance::one_in(seed, 40, 3) {
        let mut two = [0u8; 4200];
        let len = damaging::damaged(once, chance::draw(seed, 41), &mut two);
        compare_read(t, Comparison::Damaged, first(&two, len));
    }
}

pub fn compare_reading(t: &mut Tally, g: Listing, seed: u64) {
    let mut buf = [0u8; 4200];
    let len = spelling::text(g, &mut buf);
    let text = first(&buf, len);
    compare_read(t, Comparison::Texts, text);
    for k in 0..4 {
        compare_damaged(t, text, chance::draw(seed, k));
    }
}

// The text of records that may be spoiled.
pub fn compare_text(t: &mut Tally, g: Listing) {
    let mut buf = [0u8; 4200];
    let len = spelling::text(g, &mut buf);
    compare_read(t, Comparison::Damaged, first(&buf, len));
}

// The text with one line more: the next wire.
pub fn compare_next(t: &mut Tally, g: Listing) {
    let mut buf = [0u8; 4200];
    let len = spelling::text(g, &mut buf);
    let end = spelling::with_wire(g.wires[2], g.shape.n, len, &mut buf);
    compare_read(t, Comparison::Texts, first(&buf, end));
}

// ---- writing and running, on values and from a list

// What both calls put into `room` bytes: their buffers are compared whole, also behind it and after a refusal. The refusal, if it is one.
fn compare_put<
    P: FnOnce(&mut [u8]) -> (Result<(), Refusal>, usize),
    O: FnOnce(&mut [u8]) -> Result<usize, Refusal>,
>(t: &mut Tally, kind: Comparison, room: usize, product: P, other: O) -> Option<Refusal>
    requires product { P.IsAlwaysCallable product }
    requires other { O.IsAlwaysCallable other }
{
    let mut x = [42u8; 4096];
    let mut y = [42u8; 4096];
    let end = room.min(4096);
    let (outcome, len) = product(&mut x[..end]);
    let own = other(&mut y[..end]);
    let same_answer = outcome.err() == own.err() && len == own.unwrap_or(0);
    t.compared(kind, same_answer && x == y);
    own.err()
}

fn compare_written(t: &mut Tally, g: Listing, room: usize) {
    let product = |buf: &mut [u8]| {
        let r = writer::write(g, buf);
        (r.outcome, r.len)
    };
    let other = |buf: &mut [u8]| spelling::write(g, buf);
    let refusal = compare_put(t, Comparison::Writings, room, product, other);
    t.refused(refusal);
}

fn compare_written_list(t: &mut Tally, g: Listing, room: usize) {
    let product = |buf: &mut [u8]| {
        let r = compare_lists::write(g.shape, lending::few(g.wires), buf);
        (r.outcome, r.len)
    };
    let other = |buf: &mut [u8]| spelling::write(lending::held(g), buf);
    compare_put(t, Comparison::LentWritings, room, product, other);
}

// Into so many bytes as the text has, one more or one less.
pub fn compare_writing(t: &mut Tally, g: Listing, seed: u64) {
    let mut text = [0u8; 4096];
    let len = spelling::text(g, &mut text);
    let room = len.wrapping_add(1).wrapping_sub(chance::below(seed, 42, 3));
    if room <= 4096 {
        compare_written(t, g, room);
        compare_written_list(t, g, room);
    }
}

// A word of random bits: mostly only the first `count`.
fn bits_drawn(seed: u64, k: u64, count: usize) -> u64 {
    let x = chance::draw(seed, k);
    if chance::one_in(seed, k ^ 64, 20) || 64 <= count {
        x
    } else {
        x & !(u64::MAX << count)
    }
}

fn compare_ran(t: &mut Tally, g: Listing, b: Bits, room: usize) {
    let product = |buf: &mut [u8]| {
        let r = runner::run(g, b.shares, b.randoms, b.publics, buf);
        (r.outcome, r.len)
    };
    let other = |buf: &mut [u8]| running::run(g, b, buf);
    let refusal = compare_put(t, Comparison::Runs, room, product, other);
    t.refused(refusal);
}

fn compare_ran_list(t: &mut Tally, g: Listing, b: Bits, room: usize) {
    let product = |buf: &mut [u8]| {
        let list = lending::few(g.wires);
        let r = compare_lists::run(g.shape, list, b.shares, b.randoms, b.publics, buf);
        (r.outcome, r.len)
    };
    let other = |buf: &mut [u8]| running::run(lending::held(g), b, buf);
    compare_put(t, Comparison::LentRuns, room, product, other);
}

// Into so many bytes as there are wires, a few more, or one less.
pub fn compare_running(t: &mut Tally, g: Listing, seed: u64) {
    let Shape { s, d, n } = g.shape;
    let room = n.wrapping_add(chance::below(seed, 46, 9)).wrapping_sub(1);
    if 140 < room {
        return;
    }
    let ws = wires::of(&g);
    let b = Bits {
        shares: bits_drawn(seed, 43, wires::shares(s, d)),
        randoms: bits_drawn(seed, 44, wires::count_of(ws, Kind::Rand)),
        publics: bits_drawn(seed, 45, wires::count_of(ws, Kind::Pub)),
    };
    compare_ran(t, g, b, room);
    compare_ran_list(t, g, b, room);
}

// ---- records

pub fn compare_records(t: &mut Tally, g: Listing) {
    let fit = records::records_fit(g);
    t.compared(Comparison::Records, fit == spelling::could_be_read(g));
}
