// One line of a routine text against what was read before it.
#![tactic(auto)]

ghost use Rattle.std.specs.Prelude.{◌≡◌, true};
ghost use Rattle.document.specs.Reading.{make, mark_out, take_line};
ghost use Rattle.state.specs.Ceilings.{UnderCeilings};
ghost use Rattle.taking.specs.Operands.{unused_zero};

use data::{Kind, Line, Refusal, State};

// A wire line. Where it is in order each operand is below 128, so the casts keep it.
#[tactic(auto, using(crate::proofs::LineLaws::in_order), unfolding(document::specs::Reading::make))]
fn make_wire(st: State, w: usize, k: Kind, a: usize, b: usize) -> Result<State, Refusal>
    requires { UnderCeilings st × (unused_zero k a b ≡ true) }
    ensures { result ≡ make st w k a b }
{
    if !state::is_next(st, w) {
        return Err(Refusal::Next);
    }
    if !state::is_earlier(w, k, a, b) {
        return Err(Refusal::Operand);
    }
    if !state::has_room(st, k) {
        return Err(Refusal::Ceiling);
    }
    Ok(state::with_wire(st, k, a as u8, b as u8))
}

// An `out` line: 8 comes before 9.
#[tactic(auto, using(std::proofs::lemmas::Bool::Decides::nat_tests), unfolding(document::specs::Reading::mark_out))]
fn mark_wire(st: State, w: usize) -> Result<State, Refusal>
    requires { UnderCeilings st }
    ensures { result ≡ mark_out st w }
{
    if 64 <= st.outs {
        return Err(Refusal::Ceiling);
    }
    if st.n <= w || w < st.low {
        return Err(Refusal::Output);
    }
    Ok(state::with_mark(st, w))
}

// A later line, against what was read so far: the state behind it.
#[tactic(auto, unfolding(document::specs::Reading::take_line))]
pub fn take_line(st: State, line: Option<Line>) -> Result<State, Refusal>
    requires { UnderCeilings st }
    ensures { result ≡ take_line st line }
{
    match line {
        None | Some(Line::Head(_, _)) => Err(Refusal::Form),
        Some(Line::Rand(w)) => make_wire(st, w, Kind::Rand, 0, 0),
        Some(Line::Pub(w)) => make_wire(st, w, Kind::Pub, 0, 0),
        Some(Line::Xor(w, a, b)) => make_wire(st, w, Kind::Xor, a, b),
        Some(Line::And(w, a, b)) => make_wire(st, w, Kind::And, a, b),
        Some(Line::Not(w, a)) => make_wire(st, w, Kind::Not, a, 0),
        Some(Line::Out(w)) => mark_wire(st, w),
    }
}
