// Records copied between a lent list and an array by value.
// Every function that has the list is straight-line, and tests nothing: functions that have an array or numbers decide.
#![tactic(auto)]

ghost use Rattle.std.specs.Prelude.{◌≡◌, ◌++◌, ◌≤◌, length, take, drop};
ghost use Rattle.copies.specs.First.{fetched, clipped, listing_of};

use data::{Listing, Shape, Wire};

// The first k records of the list, and blanks behind them.
fn fetch(list: &[Wire], k: usize) -> [Wire; 128]
    requires { (k ≤ 128) × (k ≤ length list.now) }
    ensures { result ≡ fetched k list.now }
{
    let mut ws = listing::blank_wires();
    ws[..k].copy_from_slice(&list[..k]);
    ws
}

// The first n records become those of the array; later ones keep their content.
pub fn store(ws: [Wire; 128], n: usize, list: &mut [Wire])
    requires { (n ≤ 128) × (n ≤ length list.old) }
    ensures { list.new ≡ take n ws ++ drop n list.old }
{
    list[..n].copy_from_slice(&ws[..n]);
}

// How many records stand for n in an array: none where the list is shorter than n or n is above 128.
#[tactic(auto, unfolding(crate::specs::First::clipped))]
fn clip(len: usize, n: usize) -> usize
    ensures { (result ≡ clipped len n) × (result ≤ 128) × (result ≤ len) }
{
    if n <= len && n <= 128 { n } else { 0 }
}

// The first n records by value, or only blank ones where there are not so many: no read gives those, so that a call refuses them as 11.
#[tactic(auto, unfolding(crate::specs::First::first_of))]
pub fn listing_of(shape: Shape, list: &[Wire]) -> Listing
    ensures { result ≡ listing_of shape list.now }
{
    let k = clip(list.len(), shape.n);
    Listing {
        shape,
        wires: fetch(list, k),
    }
}
