// Whole judgements by both, and what a pass means by counting wherever a small routine passes.
use compare_answers::tally;
use compare_answers::tally::{Answer, Comparison, Tally};
use compare_lines::wires;
use compare_making::{chance, lending};
use compare_rules::judging::Sets;
use compare_rules::starts::{Small, Table};
use compare_rules::{judging, shares, starts};
use data::{Judged, Kind, Listing, ProbeSet, Verdict, Which};

// ---- starts

// A small routine that passes a judgement, and its starts at some publics.
#[derive(Clone, Copy)]
struct Pass<'a> {
    routine: &'a Small,
    which: Which,
    table: &'a Table,
}

impl Pass<'_> {
    // 9.33: how often the randoms give each pattern depends on no more shares of a secret than the set has inner wires.
    fn few_depend(&self, set: &ProbeSet) -> bool {
        let listing = &self.routine.listing;
        let word = self.table.dependent(self.routine, set);
        let inner = judging::inner(wires::of(listing), set);
        !shares::is_over(listing.shape, word, inner)
    }

    // What the pass says of one set.
    fn observe_set(&self, t: &mut Tally, set: &ProbeSet) {
        match self.which {
            Which::Plain => {
                let even = self.table.is_even(self.routine.listing.shape.s, set);
                t.compared(Comparison::Even, even);
            }
            Which::Strong => t.compared(Comparison::Drawn, self.few_depend(set)),
        }
    }

    // Every set of a size is observed.
    fn observe_size(&self, t: &mut Tally, size: usize) {
        for set in Sets::of_size(size, self.routine.listing.shape.n) {
            self.observe_set(t, &set);
        }
    }

    // The empty set first: of a plain pass, that each choice of the secrets has as many starts as another.
    fn observe_sizes(&self, t: &mut Tally, top: usize) {
        self.observe_set(t, &judging::EMPTY);
        for size in 1..=top {
            self.observe_size(t, size);
        }
    }
}

// A pass is held to what it means, with the public bits fixed at each of their values.
fn observe(t: &mut Tally, g: &Listing, which: Which, order: usize) {
    let small = starts::starts_of(g);
    let Some(routine) = small.filter(|r| which == Which::Plain || starts::can_draw(r)) else {
        return;
    };
    let pubs = wires::count_of(wires::of(g), Kind::Pub);
    let values: u64 = 1 << (pubs % 3);
    for publics in 0..values {
        let pass = Pass {
            routine: &routine,
            which,
            table: &Table::of(&routine, publics),
        };
        pass.observe_sizes(t, order);
    }
}

// ---- judgements

// Over a lent list: the other answer is that of the routine with all its records, or of a list that does not hold it.
fn compare_listed(t: &mut Tally, g: &Listing, which: Which, order: usize, all: Judged) {
    let list = lending::few(g.wires);
    let product = compare_lists::judge(g.shape, list, which, order);
    let own = if g.shape.n <= 100 {
        all
    } else {
        judging::judge(&lending::held(*g), which, order)
    };
    t.compared(tally::places_of(which).list, product == own);
}

// Whether it has a not, and starts that can be counted.
fn has_nots(g: &Listing) -> bool {
    starts::starts_of(g).is_some() && wires::count_of(wires::of(g), Kind::Not) != 0
}

// The place of the first open set.
fn open_place(verdict: Verdict) -> Option<u64> {
    match verdict {
        Verdict::Open(count) => Some(count),
        Verdict::Pass(_) | Verdict::Refused(_) => None,
    }
}

// The product's judgement with no not padded has its first open set no later. A pass is held to what it means, and counted apart where padded nots give it.
fn compare_kept(t: &mut Tally, g: &Listing, which: Which, order: usize, place: Option<u64>) {
    let kept = open_place(judge::judge(judging::with_nots_kept(g), which, order).verdict);
    let no_later = place.is_none_or(|open| kept.is_some_and(|first| first <= open));
    t.compared(Comparison::NotsKept, no_later);
    if place.is_some() {
        return;
    }
    let before = *t;
    observe(t, g, which, order);
    if kept.is_some() {
        let places = tally::places_of(which);
        t.answered(Answer::PassInverted, 1);
        t.also(&before, places.meant, places.inverted);
    }
}

fn compare_judgement(t: &mut Tally, g: &Listing, which: Which, order: usize) {
    let places = tally::places_of(which);
    let product = judge::judge(*g, which, order);
    let own = judging::judge(g, which, order);
    t.compared(places.values, product == own);
    compare_listed(t, g, which, order, own);
    if let Verdict::Refused(refusal) = own.verdict {
        t.refused(Some(refusal));
        return;
    }
    t.refused(None);
    let is_open = open_place(own.verdict).is_some();
    t.answered(if is_open { places.open } else { places.pass }, 1);
    if has_nots(g) {
        compare_kept(t, g, which, order, open_place(product.verdict));
    } else if !is_open {
        observe(t, g, which, order);
    }
}

// ---- orders

// Which judgements are open, at an order or at some order below it.
#[derive(Clone, Copy)]
struct Opened {
    plain: bool,
    strong: bool,
}

impl Opened {
    // Those of the last order, by what is counted before and after it.
    fn between(before: &Tally, after: &Tally) -> Opened {
        let is_new = |answer| before.answers_of(answer) != after.answers_of(answer);
        Opened {
            plain: is_new(Answer::PlainOpen),
            strong: is_new(Answer::StrongOpen),
        }
    }

    fn or(self, other: Opened) -> Opened {
        Opened {
            plain: self.plain || other.plain,
            strong: self.strong || other.strong,
        }
    }
}

pub fn compare_order(t: &mut Tally, g: &Listing, order: usize) {
    compare_judgement(t, g, Which::Plain, order);
    compare_judgement(t, g, Which::Strong, order);
}

// 9.13, 9.32: an order that passes has no lower one that is open. 9.31: nor is the plain judgement where the strong one passes.
fn compare_passes(t: &mut Tally, lower: Opened, own: Opened) {
    t.compared(Comparison::Lower, own.plain || !lower.plain);
    t.compared(Comparison::LowerStrong, own.strong || !lower.strong);
    t.compared(Comparison::StrongPlain, own.strong || !own.plain);
}

// Every order that is judged, from 1 to the lower of 4 and D - 1.
fn compare_judged(t: &mut Tally, g: &Listing) {
    let mut lower = Opened {
        plain: false,
        strong: false,
    };
    for order in 1..g.shape.d.min(5) {
        let before = *t;
        compare_order(t, g, order);
        let own = Opened::between(&before, t);
        compare_passes(t, lower, own);
        lower = lower.or(own);
    }
}

// Order 0, order 5 and one at D or above are refused.
pub fn compare_orders(t: &mut Tally, g: &Listing, seed: u64) {
    let above = g.shape.d.wrapping_add(chance::below(seed, 90, 3));
    compare_order(t, g, 0);
    compare_order(t, g, 5);
    compare_order(t, g, above);
    compare_judged(t, g);
}
