// The first line of a text, and the lines behind it one by one.
#![tactic(auto)]

ghost use Rattle.std.specs.Prelude.{◌≡◌, true, ◌≤◌, ◌<◌};
ghost use Rattle.document.specs.Routine.{in_range};
ghost use Rattle.document.specs.Lines.{lines_in};
ghost use Rattle.document.specs.Reading.{not_read, read_all, read_lines, share_records, begun, from_header};
ghost use Rattle.state.specs.Ceilings.{UnderCeilings};

use data::{Kind, LF, Line, Listing, Read, Refusal, Shape, State, Wire};

// Refusal f at this line.
pub fn refuse(f: Refusal, line: usize) -> Read
    ensures { result ≡ not_read f line }
{
    let shape = Shape { s: 0, d: 0, n: 0 };
    let wires = listing::blank_wires();
    Read {
        outcome: Err(f),
        line,
        listing: Listing { shape, wires },
    }
}

fn finish(st: State) -> Read
    ensures { result ≡ read_all st }
{
    let State { s, d, n, wires, .. } = st;
    let shape = Shape { s, d, n };
    Read {
        outcome: Ok(()),
        line: 0,
        listing: Listing { shape, wires },
    }
}

// The lines of the text, of which the first has number 2.
#[tactic(auto, using(crate::proofs::Laws::turns))]
fn read_lines(text: &[u8], start: State) -> Read
    requires { UnderCeilings start }
    ensures { result ≡ read_lines 2 start (lines_in text.now) }
{
    let mut rest = text;
    let mut k = 2;
    let mut st = start;
    while let Some((bytes, behind)) = fields::split_once(rest, LF) {
        match taking::take_line(st, line::line_of(bytes)) {
            Ok(next) => st = next,
            Err(f) => return refuse(f, k),
        }
        rest = behind;
        k += 1;
    }
    finish(st)
}

// The records of the first n wires, shares of secrets of d shares each.
#[tactic(auto, using(crate::proofs::Laws::shares_next), unfolding(document::specs::Reading::share_records))]
fn share_records(n: usize, d: usize) -> [Wire; 128]
    requires { (n ≤ 128) × (0 < d) × (d ≤ 8) }
    ensures { result ≡ share_records d n }
{
    let mut wires = listing::blank_wires();
    for i in 0..n {
        wires[i] = Wire {
            kind: Kind::Share,
            a: (i / d) as u8,
            b: (i % d) as u8,
            out: false,
        };
    }
    wires
}

// What is read when the first line is.
#[tactic(auto, using(crate::proofs::Laws::in_few), unfolding(document::specs::Reading::begun))]
fn begin(s: usize, d: usize) -> State
    requires { in_range s d ≡ true }
    ensures { result ≡ begun s d }
{
    let n = s * d;
    State {
        s,
        d,
        n,
        rands: 0,
        pubs: 0,
        outs: 0,
        low: 0,
        wires: share_records(n, d),
    }
}

// 3, 4, and the lines behind the first.
#[tactic(auto, using(crate::proofs::Laws::begun_bounded), unfolding(document::specs::Reading::from_header))]
pub fn from_header(header: Option<Line>, rest: &[u8]) -> Read
    ensures { result ≡ from_header header (lines_in rest.now) }
{
    match header {
        Some(Line::Head(s, d)) if listing::in_range(s, d) => read_lines(rest, begin(s, d)),
        Some(Line::Head(_, _)) => refuse(Refusal::Range, 1),
        _ => refuse(Refusal::Header, 1),
    }
}
