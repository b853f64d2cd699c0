// The report on a routine text: what the desk program prints for it.
#![tactic(auto)]

ghost use Rattle.std.specs.Prelude.{◌≡◌, ◌-◌, ◌≤◌, min, length};
ghost use Rattle.buffer.specs.Sinks.{Puts, page_room};
ghost use Rattle.document.specs.Desk.{text_lines};
ghost use Rattle.report.specs.Reports.{report_room, Reported};

use buffer::Page;
use data::Read;

// The bytes of a buffer for a report; 1,104 are the most that one has (report_room).
pub const ROOM: usize = 2048;

// How many orders are judged: the lower of 4 and D − 1.
fn orders(d: usize) -> usize
    ensures { result ≡ min 4 (d - 1) }
{
    d.saturating_sub(1).min(4)
}

// The lines of what was read, or of the refusal.
fn put_read(got: Read, out: &mut Page)
    requires { (got.outcome ≡ Ok tt → got.listing.shape.n ≤ length got.listing.wires) × (report_room ≤ page_room out.old) }
    ensures { Puts out.old (text_lines got.outcome got) out.new }
{
    match got.outcome {
        Ok(()) => answers::put_orders(got.listing, orders(got.listing.shape.d), out),
        Err(f) => printer::put_refused(f, got.line, out),
    }
}

// Puts what the desk prints for the text, any bytes and any number of them, and gives its length.
pub fn report(text: &[u8], out: &mut [u8; ROOM]) -> usize
    ensures { Reported text.now out.old result out.new }
{
    let mut page = Page { bytes: out, at: 0 };
    put_read(reader::read(text), &mut page);
    page.at
}
