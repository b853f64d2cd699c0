// Whether a set of a judgement is open.
#![tactic(auto)]

ghost use Rattle.std.specs.Prelude.{◌≡◌, ◌+◌, ◌^◌, ◌<◌};
ghost use Rattle.data.specs.ProbeSets.{held};
ghost use Rattle.growing.specs.Growing.{opens_in, judged_set, Asked};

use data::Shape;
use growing::{Found, Grown, Question};

// The set is open. One with an own random is not, where no smaller set is; nor is one whose cones hold no more than the bound. Only the rest is run.
fn set_open(q: Question, g: Grown) -> bool
    requires { Asked q g }
    ensures { result ≡ opens_in q.entry (held g.set) }
{
    if g.cone.own != 0 {
        return false;
    }
    let bound = q.bound_of(g.set);
    let Shape { s, d, .. } = q.listing.shape;
    if !shares::over(s, d, g.cone.shares, bound) {
        return false;
    }
    let needed = rule::needed_word(*q.listing, marks::probe_marks(g.set));
    shares::over(s, d, needed, bound)
}

// The grown set judged, as one set more.
pub fn judge_set(q: Question, g: Grown, count: u64) -> Result<u64, Found>
    requires { Asked q g × (count + 1 < 2 ^ 63) }
    ensures { result ≡ judged_set (opens_in q.entry) (held g.set) count }
{
    if set_open(q, g) {
        return Err(Found {
            count: count + 1,
            set: g.set,
        });
    }
    Ok(count + 1)
}
