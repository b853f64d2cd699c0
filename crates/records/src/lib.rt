// The test behind refusal 11: whether S, D, n and the first n records are what a read could have given.
#![tactic(auto)]

ghost use Rattle.std.specs.Prelude.{◌≡◌, ◌≤◌, length};
ghost use Rattle.data.specs.Basics.{all};
ghost use Rattle.document.specs.Routine.{records_fit};
ghost use Rattle.counts.specs.Counting.{record_at};
ghost use Rattle.records.specs.Records.{Ranged, fits_at};

use data::{Kind, Listing, Shape, Wire};

// The record x is one that wire w of a routine of S and D could have.
#[tactic(auto, unfolding(crate::specs::Records::fits_at, document::specs::Routine::fits))]
fn record_fits(s: usize, d: usize, w: usize, x: Wire) -> bool
    requires { Ranged s d }
    ensures { result ≡ fits_at s d w x }
{
    let first = s * d;
    let a = usize::from(x.a);
    let b = usize::from(x.b);
    match x.kind {
        Kind::Share => w < first && a == w / d && b == w % d,
        Kind::Rand | Kind::Pub => first <= w && a == 0 && b == 0,
        Kind::Xor | Kind::And => first <= w && a < w && b < w,
        Kind::Not => first <= w && a < w && b == 0,
    }
}

// Each of the records is one that its wire could have.
fn all_fit(s: usize, d: usize, ws: &[Wire]) -> bool
    requires { Ranged s d }
    ensures { result ≡ all (length ws.now) (λ w. fits_at s d w (record_at ws.now w)) }
{
    for (w, x) in ws.iter().enumerate() {
        if !record_fits(s, d, w, *x) {
            return false;
        }
    }
    true
}

// S, D, n and the first n records are what a read could have given.
pub fn records_fit(listing: Listing) -> bool
    ensures { result ≡ records_fit listing.shape listing.wires }
{
    let Shape { s, d, n } = listing.shape;
    if 128 < n || !listing::in_range(s, d) {
        return false;
    }
    let shares = s * d;
    if n < shares {
        return false;
    }
    let first = &listing.wires[..n];
    counts::count_records(first).ceilings_met() && all_fit(s, d, first)
}
