// The lines of a routine's text, one wire at a time.
#![tactic(auto)]

ghost use Rattle.std.specs.Prelude.{◌∷◌, ◌≤◌, length};
ghost use Rattle.document.specs.Lines.{tab, decimal};
ghost use Rattle.pieces.specs.Pieces.{line, of_kind, of_mark, piece};

use buffer::Sink;
use data::{Kind, Wire};

// The two groups of lines behind the first: those that make wires, and the `out` lines. An enum and no closure: `section` and `piece`, which say
// what stands in each, take it too, and a closure's clause would have to name one of them beside it.
#[derive(Clone, Copy)]
pub enum Part {
    Wires,
    Outputs,
}

// A tab and a number. A byte has three digits at most, so that a text is spared the turns of `put_number`.
#[tactic(auto, unfolding(document::specs::Lines::decimal))]
fn put_field<S: Sink>(n: u8, out: &mut S)
    requires { length (tab ∷ decimal n) ≤ S.room out.old }
    ensures { S.puts out.old (tab ∷ decimal n) out.new }
{
    let ones = data::ZERO + n % 10;
    if n < 10 {
        out.put_word(&[data::TAB, ones]);
    } else if n < 100 {
        out.put_word(&[data::TAB, data::ZERO + n / 10, ones]);
    } else {
        out.put_word(&[
            data::TAB,
            data::ZERO + n / 100,
            data::ZERO + n / 10 % 10,
            ones,
        ]);
    }
}

// The word, each number behind a tab, and LF.
pub fn put_line<S: Sink>(word: &[u8], numbers: &[u8], out: &mut S)
    requires { length (line word.now numbers.now) ≤ S.room out.old }
    ensures { S.puts out.old (line word.now numbers.now) out.new }
{
    out.put_word(word);
    for n in numbers {
        put_field(*n, out);
    }
    out.put_byte(data::LF);
}

// The line that makes wire w; a share has none.
#[tactic(auto, unfolding(crate::specs::Pieces::of_kind))]
fn put_kind<S: Sink>(k: Kind, w: u8, a: u8, b: u8, out: &mut S)
    requires { length (of_kind w k a b) ≤ S.room out.old }
    ensures { S.puts out.old (of_kind w k a b) out.new }
{
    match k {
        Kind::Share => {}
        Kind::Rand => put_line(b"rand", &[w], out),
        Kind::Pub => put_line(b"pub", &[w], out),
        Kind::Xor => put_line(b"xor", &[w, a, b], out),
        Kind::And => put_line(b"and", &[w, a, b], out),
        Kind::Not => put_line(b"not", &[w, a], out),
    }
}

// The `out` line of wire w, if it is an output.
#[tactic(auto, unfolding(crate::specs::Pieces::of_mark))]
fn put_mark<S: Sink>(w: u8, marked: bool, out: &mut S)
    requires { length (of_mark w marked) ≤ S.room out.old }
    ensures { S.puts out.old (of_mark w marked) out.new }
{
    if marked {
        put_line(b"out", &[w], out);
    }
}

// What a part of the text has of wire w, whose record is x.
#[tactic(auto, unfolding(crate::specs::Pieces::piece))]
pub fn put_piece<S: Sink>(p: Part, w: u8, x: Wire, out: &mut S)
    requires { length (piece p w x) ≤ S.room out.old }
    ensures { S.puts out.old (piece p w x) out.new }
{
    match p {
        Part::Wires => put_kind(x.kind, w, x.a, x.b, out),
        Part::Outputs => put_mark(w, x.out, out),
    }
}
