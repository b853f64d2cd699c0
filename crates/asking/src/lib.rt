// The tests before a call on one set, in their order.
#![tactic(auto)]

ghost use Rattle.std.specs.Prelude.{◌≡◌, ◌≤◌, ltb, take};
ghost use Rattle.data.specs.Basics.{each};
ghost use Rattle.asking.specs.Checks.{order_in, probes_in, checked};

use data::{Listing, ProbeSet, Refusal};

// The order is 1 to 4 and below D.
pub fn order_fits(d: usize, t: usize) -> bool
    ensures { result ≡ order_in d t }
{
    (1 <= t) & (t <= 4) & (t < d)
}

// Each held number is a wire's.
fn all_named(held: &[u8], n: usize) -> bool
    ensures { result ≡ each (λ w. ltb w n) held.now }
{
    for w in held {
        if n <= *w as usize {
            return false;
        }
    }
    true
}

// The set is not empty, no larger than the order, ascending, and names wires only.
#[tactic(auto, using(crate::proofs::Laws::Checks::empty_refused, crate::proofs::Laws::Checks::large_refused, crate::proofs::Laws::Checks::unordered_refused, crate::proofs::Laws::Checks::named_decides))]
fn probes_fit(set: ProbeSet, n: usize, t: usize) -> bool
    requires { t ≤ 4 }
    ensures { result ≡ probes_in n t set }
{
    if set.len == 0 {
        return false;
    }
    if t < set.len {
        return false;
    }
    let held = &set.places[..set.len];
    data::is_ascending(held) && all_named(held, n)
}

// The tests of a call on one set, in their order: the first refusal, or none.
#[tactic(auto, using(crate::proofs::Laws::Checks::order_high, crate::proofs::Laws::Checks::check_records, crate::proofs::Laws::Checks::check_order, crate::proofs::Laws::Checks::check_probes, crate::proofs::Laws::Checks::check_passes))]
pub fn check_set(listing: Listing, t: usize, set: ProbeSet) -> Result<(), Refusal>
    ensures { result ≡ checked listing.shape listing.wires t set }
{
    if !records::records_fit(listing) {
        return Err(Refusal::Records);
    }
    if !order_fits(listing.shape.d, t) {
        return Err(Refusal::Order);
    }
    if !probes_fit(set, listing.shape.n, t) {
        return Err(Refusal::Probes);
    }
    Ok(())
}
