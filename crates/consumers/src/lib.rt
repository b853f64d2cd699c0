// How many live consumers that are no leaves each wire has.
#![tactic(auto)]

ghost use Rattle.std.specs.Prelude.{◌≡◌, ◌<◌, get_or};
ghost use Rattle.marks.specs.Passes.{Low};
ghost use Rattle.consumers.specs.Consumers.{bumped, bumped_two, counted_with, Spare, Consumers};

use data::{Kind, Wire};
use marks::Wires;

// One more at both places; a consumer that names an operand twice counts once.
#[tactic(auto, unfolding(crate::specs::Consumers::bumped, crate::specs::Consumers::bumped_two))]
fn count_two(counts: &mut [u8; 128], a: usize, b: usize)
    requires { (a < 128) × (b < 128) × Spare counts.old }
    ensures { counts.new ≡ bumped_two a b counts.old }
{
    counts[a] += 1;
    if b != a {
        counts[b] += 1;
    }
}

// One more for each operand of a wire.
#[tactic(auto, unfolding(crate::specs::Consumers::bumped, crate::specs::Consumers::counted_with))]
fn count_operands(counts: &mut [u8; 128], x: Wire)
    requires { Low x × Spare counts.old }
    ensures { counts.new ≡ counted_with x.kind x.a x.b counts.old }
{
    match x.kind {
        Kind::Xor | Kind::And => count_two(counts, usize::from(x.a), usize::from(x.b)),
        Kind::Not => counts[usize::from(x.a)] += 1,
        _ => {}
    }
}

// How many live consumers that are no leaves each wire has.
pub fn consumer_counts(wires: Wires, leaf: &[bool; 128], alive: &[bool; 128]) -> [u8; 128]
    ensures { Consumers wires.entry.list.now leaf.now alive.now 0 result }
{
    let mut counts = [0u8; 128];
    for u in (0..wires.list.len()).rev() {
        if alive[u] && !leaf[u] {
            count_operands(&mut counts, wires.list[u]);
        }
    }
    counts
}
