// Writing a routine: its text, put into a lent buffer.
#![tactic(auto)]

ghost use Rattle.std.specs.Prelude.{◌≡◌, ◌+◌, ◌*◌, ◌≤◌, length};
ghost use Rattle.document.specs.Lent.{WritesInto};
ghost use Rattle.records.specs.Records.{Fit};
ghost use Rattle.writer.specs.Parts.{section, text_parts, written_not};

use buffer::{Count, Page, Sink};
use data::{Listing, Refusal, Shape, Wire, Written};
use pieces::Part;

// What a part of the text has of the m wires from `first` on. No slice of them: a line has the number of its wire, so `first` would stay beside it.
#[tactic(auto, unfolding(crate::specs::Parts::section))]
fn put_section<S: Sink>(p: Part, first: usize, m: usize, ws: [Wire; 128], out: &mut S)
    requires { (first + m ≤ 128) × (length (section p ws first m) ≤ S.room out.old) }
    ensures { S.puts out.old (section p ws first m) out.new }
{
    for i in 0..m {
        let w = first + i;
        pieces::put_piece(p, w as u8, ws[w], out);
    }
}

// The first line, the wires but the shares, and the outputs.
#[tactic(auto, using(crate::proofs::Laws::Sections::text_long), unfolding(crate::specs::Parts::text_parts))]
fn put_text<S: Sink>(listing: Listing, out: &mut S)
    requires { Fit listing.shape listing.wires × (length (text_parts listing.shape listing.wires) ≤ S.room out.old) }
    ensures { S.puts out.old (text_parts listing.shape listing.wires) out.new }
{
    let Shape { s, d, n } = listing.shape;
    let first = s * d;
    pieces::put_line(b"routine", &[s as u8, d as u8], out);
    put_section(Part::Wires, first, n - first, listing.wires, out);
    put_section(Part::Outputs, 0, n, listing.wires, out);
}

// A refused writing wrote nothing. What `runner` has like it is of another type (6.11, 2.7).
fn not_written(f: Refusal) -> Written
    ensures { result ≡ written_not f }
{
    Written {
        outcome: Err(f),
        len: 0,
    }
}

// Writes the text of a routine.
pub fn write(listing: Listing, buf: &mut [u8]) -> Written
    ensures { WritesInto listing.shape listing.wires buf.old result buf.new }
{
    if !records::records_fit(listing) {
        return not_written(Refusal::Records);
    }
    // The length is known before a byte is put: a text that does not fit leaves the buffer as it came.
    let mut count = Count { len: 0 };
    put_text(listing, &mut count);
    if buf.len() < count.len {
        return not_written(Refusal::Buffer);
    }
    let mut page = Page { bytes: buf, at: 0 };
    put_text(listing, &mut page);
    Written {
        outcome: Ok(()),
        len: page.at,
    }
}
