// Probe sets: whether they ascend, and the addition of a wire.
use data::{Added, ProbeSet, Refusal};

// The wires of the set: all four places where its length says more.
pub fn held(set: &ProbeSet) -> &[u8] {
    &set.places[..set.len.min(4)]
}

// Whether the set holds at most four places, each above the one before it.
pub fn is_ascending(set: &ProbeSet) -> bool {
    set.len <= 4 && held(set).is_sorted_by(|a, b| *a < *b)
}

// Whether every held number is below n.
pub fn is_below(set: &ProbeSet, n: usize) -> bool {
    held(set).iter().all(|w| usize::from(*w) < n)
}

// The set with one wire more, sorted anew.
fn with_wire(set: ProbeSet, w: usize) -> Result<ProbeSet, Refusal> {
    let ProbeSet { mut places, len } = set;
    if 127 < w || 3 < len || !is_ascending(&set) {
        return Err(Refusal::Probes);
    }
    let wire = w as u8;
    if held(&set).contains(&wire) {
        return Err(Refusal::Probes);
    }
    places[len] = wire;
    places[..len + 1].sort_unstable();
    Ok(ProbeSet {
        places,
        len: len + 1,
    })
}

// A refused addition hands the set back as it came.
pub fn add(set: ProbeSet, w: usize) -> Added {
    match with_wire(set, w) {
        Ok(larger) => Added {
            outcome: Ok(()),
            set: larger,
        },
        Err(refusal) => Added {
            outcome: Err(refusal),
            set,
        },
    }
}
