// The lines that the desk prints: numbers, fields, the line of an answer and the line of a refused text.
#![tactic(auto)]

ghost use Rattle.std.specs.Prelude.{◌∷◌, ◌++◌, ◌+◌, ◌≤◌, length};
ghost use Rattle.buffer.specs.Sinks.{Puts, page_room};
ghost use Rattle.data.specs.ProbeSets.{held};
ghost use Rattle.document.specs.Desk.{printed, verdict_fields, answer_line};
ghost use Rattle.printer.specs.Fields.{spaced, number_field, wire_fields, refused_line};
ghost use Rattle.printer.specs.Rooms.{number_room, counted_room, wires_room, verdict_room, word_room, answer_room, refused_room};

use buffer::{Page, Sink};
use data::{Judged, ProbeSet, Refusal, Verdict};

// A space and a number.
fn put_spaced(n: u64, out: &mut Page)
    requires { number_room ≤ page_room out.old }
    ensures { Puts out.old (number_field n) out.new }
{
    out.put_byte(data::SPACE);
    buffer::put_number(n, out);
}

// The order, the word of the verdict, which has its space, and the count.
fn put_counted(t: u64, word: &[u8], count: u64, out: &mut Page)
    requires { length word.now + counted_room ≤ page_room out.old }
    ensures { Puts out.old ((number_field t ++ word.now) ++ number_field count) out.new }
{
    put_spaced(t, out);
    out.put_word(word);
    put_spaced(count, out);
}

// The wires of a set.
fn put_wires(set: ProbeSet, out: &mut Page)
    requires { wires_room ≤ page_room out.old }
    ensures { Puts out.old (wire_fields (held set)) out.new }
{
    let wires = &set.places[..set.len.min(4)];
    for w in wires {
        put_spaced(u64::from(*w), out);
    }
}

// The order and the verdict with its count or number, and of an open one the wires of the set.
fn put_verdict(t: u64, verdict: Verdict, set: ProbeSet, out: &mut Page)
    requires { verdict_room ≤ page_room out.old }
    ensures { Puts out.old (spaced (printed t ∷ verdict_fields verdict (held set))) out.new }
{
    match verdict {
        Verdict::Pass(count) => put_counted(t, b" pass", count, out),
        Verdict::Open(count) => {
            put_counted(t, b" open", count, out);
            put_wires(set, out);
        }
        Verdict::Refused(f) => put_counted(t, b" refused", f.number(), out),
    }
}

// The line of a judgement's answer at order t.
pub fn put_answer(word: &[u8], t: usize, answer: Judged, out: &mut Page)
    requires { (length word.now ≤ word_room) × (answer_room ≤ page_room out.old) }
    ensures { Puts out.old (answer_line word.now t answer) out.new }
{
    out.put_word(word);
    put_verdict(t as u64, answer.verdict, answer.set, out);
    out.put_byte(data::LF);
}

// The line of a refused text.
pub fn put_refused(f: Refusal, line: usize, out: &mut Page)
    requires { refused_room ≤ page_room out.old }
    ensures { Puts out.old (refused_line f line) out.new }
{
    out.put_word(b"refused");
    put_spaced(f.number(), out);
    put_spaced(line as u64, out);
    out.put_byte(data::LF);
}
