// The judgements: what is found among their sets, as an answer.
#![tactic(auto)]

ghost use Rattle.std.specs.Prelude.{◌≡◌};
ghost use Rattle.document.specs.Judgements.{judged_not, judgement_of};
ghost use Rattle.document.specs.Lent.{lent_judged};
ghost use Rattle.judge.specs.Answers.{answer_of};

use data::{Judged, Listing, ProbeSet, Refusal, Verdict, Which};
use growing::{Found, Question};

#[tactic(auto, unfolding(crate::specs::Answers::answer_of))]
fn answer_of(found: Result<u64, Found>) -> Judged
    ensures { result ≡ answer_of found }
{
    match found {
        Ok(count) => Judged {
            verdict: Verdict::Pass(count),
            set: ProbeSet::empty(),
        },
        Err(Found { count, set }) => Judged {
            verdict: Verdict::Open(count),
            set,
        },
    }
}

fn refusal(f: Refusal) -> Judged
    ensures { result ≡ judged_not f }
{
    Judged {
        verdict: Verdict::Refused(f),
        set: ProbeSet::empty(),
    }
}

// A judgement of order t: its verdict with the count, beside the first open set.
pub fn judge(listing: Listing, which: Which, t: usize) -> Judged
    ensures { result ≡ lent_judged (judgement_of which) listing.shape listing.wires t }
{
    if !records::records_fit(listing) {
        return refusal(Refusal::Records);
    }
    if !asking::order_fits(listing.shape.d, t) {
        return refusal(Refusal::Order);
    }
    let cones = cones::cones_of(listing);
    let q = Question {
        which,
        listing: &listing,
        t,
        cones: &cones,
    };
    answer_of(searching::search_sizes(q, t))
}
