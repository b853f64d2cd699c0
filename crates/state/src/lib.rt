// What one line may do to the state of a read: the tests before it, and the state with a wire or an output more.
#![tactic(auto)]

ghost use Rattle.std.specs.Prelude.{◌≡◌, true, ◌<◌};
ghost use Rattle.document.specs.Reading.{made, marked, is_next, earlier, has_room};
ghost use Rattle.state.specs.Ceilings.{UnderCeilings};

use data::{Kind, State, Wire};

// The state with the next wire made.
#[tactic(auto, using(crate::proofs::Laws::room_is, std::proofs::lemmas::Bool::Decides::nat_tests), unfolding(document::specs::Reading::made))]
pub fn with_wire(mut st: State, kind: Kind, a: u8, b: u8) -> State
    requires { has_room st kind ≡ true }
    ensures { result ≡ made st kind a b }
{
    st.wires[st.n] = Wire {
        kind,
        a,
        b,
        out: false,
    };
    st.n += 1;
    st.rands += usize::from(kind == Kind::Rand);
    st.pubs += usize::from(kind == Kind::Pub);
    st
}

// The state with wire w marked as output.
#[tactic(auto, unfolding(document::specs::Reading::marked))]
pub fn with_mark(mut st: State, w: usize) -> State
    requires { (w < 128) × (st.outs < 128) }
    ensures { result ≡ marked st w }
{
    st.wires[w].out = true;
    st.outs += 1;
    st.low = w + 1;
    st
}

// 6: w is the next wire, and no `out` came before.
#[tactic(auto, using(std::proofs::lemmas::Bool::Decides::nat_tests), unfolding(document::specs::Reading::is_next))]
pub fn is_next(st: State, w: usize) -> bool
    ensures { result ≡ is_next st w }
{
    w == st.n && st.outs == 0
}

// 7: the operands that a wire of this kind has are earlier wires.
#[tactic(auto, using(std::proofs::lemmas::Bool::Decides::nat_tests), unfolding(document::specs::Reading::earlier, document::specs::Routine::operands_of, data::specs::Basics::each))]
pub fn is_earlier(w: usize, k: Kind, a: usize, b: usize) -> bool
    ensures { result ≡ earlier w k a b }
{
    match k {
        Kind::Share | Kind::Rand | Kind::Pub => true,
        Kind::Xor | Kind::And => a < w && b < w,
        Kind::Not => a < w,
    }
}

// 8: the ceilings leave room for one more wire of this kind.
#[tactic(auto, using(std::proofs::lemmas::Bool::Decides::nat_tests), unfolding(document::specs::Reading::has_room))]
pub fn has_room(st: State, k: Kind) -> bool
    requires { UnderCeilings st }
    ensures { result ≡ has_room st k }
{
    st.n < 128
        && st.rands + usize::from(k == Kind::Rand) <= 64
        && st.pubs + usize::from(k == Kind::Pub) <= 16
}
