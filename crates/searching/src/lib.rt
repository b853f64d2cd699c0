// The search of the sets in order, up to the first open one.
#![tactic(auto)]

ghost use Rattle.std.specs.Prelude.{◌≡◌, ◌-◌, ◌≤◌};
ghost use Rattle.data.specs.ProbeSets.{held};
ghost use Rattle.growing.specs.Growing.{opens_in};
ghost use Rattle.searching.specs.Search.{grow, found_up_to, Searching};

use growing::{Found, Grown, Question};

// The first open set among those that grow from g by `places` of the wires from `from` on, or the count of the sets judged.
fn grow(q: Question, g: Grown, places: usize, from: usize, count: u64) -> Result<u64, Found>
    requires { Searching q places from g count }
    ensures { result ≡ grow (opens_in q.entry) places (q.entry.listing.now.shape.n - from) from (held g.set) count }
{
    if places == 0 {
        return opening::judge_set(q, g, count);
    }
    let n = q.listing.shape.n;
    let at = g.next_wire(places, from, n, q.cones);
    let passed = count + (at - from) as u64;
    if n <= at {
        return Ok(passed);
    }
    let more = g.with(at, q.cones[at]);
    let judged = grow(q, more, places - 1, at + 1, passed)?;
    grow(q, g, places, at + 1, judged)
}

// What is found among the sets of 1 to `top` wires, size after size.
pub fn search_sizes(q: Question, top: usize) -> Result<u64, Found>
    requires { top ≤ 4 }
    ensures { result ≡ found_up_to (opens_in q.entry) top q.entry.listing.now.shape.n }
{
    let mut count = 0;
    for size in 0..top {
        count = grow(q, Grown::nothing(), size + 1, 0, count)?;
    }
    Ok(count)
}
