// Running a routine: 0 or 1 for each of its wires, written into a lent buffer.
#![tactic(auto)]

ghost use Rattle.std.specs.Prelude.{◌≡◌, ◌++◌, ◌≤◌, ◌<◌, length, get_or, take, drop, set};
ghost use Rattle.document.specs.Lent.{RunsInto};
ghost use Rattle.document.specs.Running.{bits};
ghost use Rattle.runner.specs.Run.{ran_not, value_from, values};

use counts::Counts;
use data::{Listing, Ran, Refusal, Shape, Wire};
use values::Inputs;

// The value of wire u, if it is one of the w wires that have theirs.
fn earlier_value(buf: &[u8], w: usize, u: u8) -> u8
    requires { w ≤ length buf.now }
    ensures { result ≡ get_or (take w buf.now) u 0 }
{
    let u = usize::from(u);
    if u < w { buf[u] } else { 0 }
}

// Writes the value of wire w, whose record is x, with c counted before it.
fn put_value(w: usize, x: Wire, c: Counts, inputs: Inputs, buf: &mut [u8])
    requires { w < length buf.old }
    ensures { buf.new ≡ set buf.old w (value_from buf.old w x (get_or (bits 64 inputs.shares) w 0)
        (get_or (bits 64 inputs.randoms) c.rands 0) (get_or (bits 64 inputs.publics) c.pubs 0)) }
{
    let a = earlier_value(buf, w, x.a);
    let b = earlier_value(buf, w, x.b);
    buf[w] = inputs.value(x.kind, w, c, a, b);
}

// A refused run wrote nothing. What `writer` has like it is of another type (2.7, 6.11).
fn not_run(f: Refusal) -> Ran
    ensures { result ≡ ran_not f }
{
    Ran {
        outcome: Err(f),
        len: 0,
    }
}

// Writes the value of each wire, the randoms and publics counted on the way.
fn put_values(ws: &[Wire], inputs: Inputs, buf: &mut [u8])
    requires few { length ws.now ≤ 128 }
    requires room { length ws.now ≤ length buf.old }
    ensures { let n = length ws.now in
        buf.new ≡ values n ws.now inputs.shares inputs.randoms inputs.publics n ++ drop n buf.old }
{
    let mut c = Counts::none();
    for (w, x) in ws.iter().enumerate() {
        put_value(w, *x, c, inputs, buf);
        c = c.with(*x);
    }
}

// Runs a routine.
pub fn run(listing: Listing, shares: u64, randoms: u64, publics: u64, buf: &mut [u8]) -> Ran
    ensures { RunsInto listing.shape listing.wires shares randoms publics buf.old result buf.new }
{
    if !records::records_fit(listing) {
        return not_run(Refusal::Records);
    }
    let Shape { s, d, n } = listing.shape;
    let ws = &listing.wires[..n];
    let inputs = Inputs {
        shares,
        randoms,
        publics,
    };
    let counts = counts::count_records(ws);
    if !inputs.fit(s * d, counts) {
        return not_run(Refusal::Bits);
    }
    if buf.len() < n {
        return not_run(Refusal::Buffer);
    }
    put_values(ws, inputs, buf);
    Ran {
        outcome: Ok(()),
        len: n,
    }
}
