// Additions to probe sets, the needed shares and the steps of one set, each by both; and what needed shares mean, by counting.
use compare_answers::tally::{Answer, Comparison, Tally};
use compare_making::{chance, lending};
use compare_rules::starts::{Small, Table};
use compare_rules::{adding, judging, padding, starts};
use data::{Listing, ProbeSet};

// ---- sets at random

// Up to `size` wires below n.
fn ascending(seed: u64, n: usize, size: usize) -> ProbeSet {
    let mut set = judging::EMPTY;
    for k in (60..).take(size) {
        set = adding::add(set, chance::below(seed, k, n)).set;
    }
    set
}

fn byte_drawn(seed: u64, k: u64, n: usize) -> u8 {
    (chance::below(seed, k, n) % 256) as u8
}

// Any four places and any length: mostly no set.
fn malformed(seed: u64) -> ProbeSet {
    let places = [
        byte_drawn(seed, 70, 140),
        byte_drawn(seed, 71, 140),
        byte_drawn(seed, 72, 256),
        byte_drawn(seed, 73, 256),
    ];
    ProbeSet {
        places,
        len: chance::below(seed, 74, 7),
    }
}

// Mostly a set of up to `size` wires below n.
fn set_drawn(seed: u64, n: usize, size: usize) -> ProbeSet {
    if chance::one_in(seed, 75, 12) {
        return malformed(seed);
    }
    ascending(seed, n, chance::below(seed, 76, size).wrapping_add(1))
}

// ---- additions

fn compare_addition(t: &mut Tally, set: ProbeSet, w: usize) {
    t.compared(Comparison::Additions, set.add(w) == adding::add(set, w));
}

pub fn compare_additions(t: &mut Tally, seed: u64) {
    let n = chance::below(seed, 77, 128).wrapping_add(1);
    let small = set_drawn(chance::draw(seed, 79), 6, 3);
    compare_addition(t, set_drawn(seed, n, 4), chance::below(seed, 78, 132));
    compare_addition(t, small, chance::below(seed, 80, 8));
}

// ---- one set

fn order_drawn(seed: u64, d: usize) -> usize {
    if chance::one_in(seed, 81, 16) {
        return chance::below(seed, 82, 10);
    }
    if d < 2 {
        return 1;
    }
    chance::below(seed, 82, d - 1).wrapping_add(1)
}

// Now and then more wires than the order.
fn size_drawn(seed: u64, order: usize) -> usize {
    if chance::one_in(seed, 83, 12) {
        return 4;
    }
    order
}

// Over a lent list: the other answers are those of the routine with all its records, or of a list that does not hold it.
fn compare_listed(t: &mut Tally, g: &Listing, order: usize, set: ProbeSet, all: padding::Answers) {
    let list = lending::few(g.wires);
    let needed = compare_lists::needs(g.shape, list, order, set);
    let padded = compare_lists::pads(g.shape, list, order, set);
    let own = if g.shape.n <= 100 {
        all
    } else {
        padding::judge_set(&lending::held(*g), order, &set)
    };
    t.compared(Comparison::LentNeeded, needed == own.needed);
    t.compared(Comparison::LentSteps, padded == own.padded);
}

fn compare_set(t: &mut Tally, g: &Listing, order: usize, set: ProbeSet) {
    let own = padding::judge_set(g, order, &set);
    let needed = rule::needs(*g, order, set);
    let padded = rule::pads(*g, order, set);
    t.compared(Comparison::Needed, needed == own.needed);
    t.compared(Comparison::Steps, padded == own.padded);
    compare_listed(t, g, order, set, own);
    t.refused(own.needed.outcome.err());
    if own.needed.outcome.is_ok() {
        let is_open = own.needed.undecided;
        t.answered(
            if is_open {
                Answer::SetsOpen
            } else {
                Answer::SetsClosed
            },
            1,
        );
        t.answered(Answer::StepsMade, own.padded.len as u64);
    }
}

pub fn compare_sets(t: &mut Tally, g: &Listing, seed: u64, count: u64) {
    for k in 0..count {
        let own = chance::draw(seed, k);
        let order = order_drawn(own, g.shape.d);
        let set = set_drawn(own, g.shape.n, size_drawn(own, order));
        compare_set(t, g, order, set);
    }
}

// ---- drawings

// 9.29: how often the randoms give each pattern of the set depends on needed shares alone, those that the product gives.
fn compare_drawn(t: &mut Tally, r: &Small, table: &Table, order: usize, set: ProbeSet) {
    let own = padding::judge_set(&r.listing, order, &set);
    if own.needed.outcome.is_err() {
        return;
    }
    let needed = rule::needs(r.listing, order, set).shares;
    let dependent = table.dependent(r, &set);
    t.compared(Comparison::NeededDrawn, dependent | needed == needed);
}

// Of a small routine, with some public bits.
pub fn compare_draws(t: &mut Tally, g: &Listing, seed: u64, count: u64) {
    let Some(r) = starts::starts_of(g).filter(|r| starts::can_draw(r)) else {
        return;
    };
    let table = Table::of(&r, chance::draw(seed, 91));
    for k in 0..count {
        let own = chance::draw(seed, k);
        let order = order_drawn(own, g.shape.d);
        let set = set_drawn(own, g.shape.n, order);
        compare_drawn(t, &r, &table, order, set);
    }
}
