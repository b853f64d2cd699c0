// The marks of the padding rule: the first leaves, the probed wires and the live ones.
#![tactic(auto)]

ghost use Rattle.std.specs.Prelude.{◌≡◌};
ghost use Rattle.data.specs.Basics.{mark};
ghost use Rattle.data.specs.ProbeSets.{held};
ghost use Rattle.document.specs.Routine.{operands_of};
ghost use Rattle.document.specs.Padding.{probed, first_leaves, live};
ghost use Rattle.marks.specs.Passes.{only_wires, Low, Marked, LowProbes};

use data::{Kind, ProbeSet, Wire};

// The wires of a routine alone, at most 128 of them, with operands that are marks' places.
#[derive(Clone, Copy)]
pub struct Wires<'a> {
    pub list: &'a [Wire],
    pub ghost marked: { Marked list.now },
}

// Every random wire as a leaf.
pub fn first_leaves(wires: Wires) -> [bool; 128]
    ensures { result ≡ first_leaves (only_wires wires.entry.list.now) }
{
    let mut leaf = [false; 128];
    for (u, x) in wires.list.iter().enumerate() {
        if x.kind == Kind::Rand {
            leaf[u] = true;
        }
    }
    leaf
}

// The probed wires marked.
pub fn probe_marks(set: ProbeSet) -> [bool; 128]
    requires { LowProbes set }
    ensures { result ≡ probed (held set) }
{
    let mut m = [false; 128];
    for w in &set.places[..set.len] {
        m[usize::from(*w)] = true;
    }
    m
}

// The operands of a wire marked.
fn mark_operands(m: &mut [bool; 128], x: Wire)
    requires { Low x }
    ensures { m.new ≡ mark (operands_of x.kind x.a x.b) m.old }
{
    match x.kind {
        Kind::Xor | Kind::And => {
            m[usize::from(x.a)] = true;
            m[usize::from(x.b)] = true;
        }
        Kind::Not => m[usize::from(x.a)] = true,
        _ => {}
    }
}

// The live wires: going down from the last wire meets each after all its consumers.
pub fn live_marks(wires: Wires, probe: &[bool; 128], leaf: &[bool; 128]) -> [bool; 128]
    ensures { result ≡ live (only_wires wires.entry.list.now) probe.now leaf.now }
{
    let mut m = *probe;
    for u in (0..wires.list.len()).rev() {
        if m[u] && !leaf[u] {
            mark_operands(&mut m, wires.list[u]);
        }
    }
    m
}
