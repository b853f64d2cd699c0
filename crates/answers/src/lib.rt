// The lines of the answers, order by order, put on a page.
#![tactic(auto)]

ghost use Rattle.std.specs.Prelude.{◌≡◌, ◌*◌, ◌≤◌, length};
ghost use Rattle.buffer.specs.Sinks.{Puts, page_room};
ghost use Rattle.document.specs.Routine.{routine_of};
ghost use Rattle.document.specs.Desk.{order_lines};
ghost use Rattle.printer.specs.Rooms.{answer_room};
ghost use Rattle.answers.specs.Orders.{judgement_word, judgement_line, order_pair, order_room};

use buffer::Page;
use data::{Listing, Which};

// The word of a judgement.
fn word_of(which: Which) -> &'static [u8]
    ensures { result.now ≡ judgement_word which }
{
    match which {
        Which::Plain => b"plain",
        Which::Strong => b"strong",
    }
}

// The line of one judgement of order t.
fn put_judgement(listing: Listing, which: Which, t: usize, out: &mut Page)
    requires { (listing.shape.n ≤ length listing.wires) × (answer_room ≤ page_room out.old) }
    ensures { Puts out.old (judgement_line which (routine_of listing.shape listing.wires) t) out.new }
{
    let answer = judge::judge(listing, which, t);
    printer::put_answer(word_of(which), t, answer, out);
}

// The plain, then the strong line of order t.
fn put_order(listing: Listing, t: usize, out: &mut Page)
    requires { (listing.shape.n ≤ length listing.wires) × (order_room ≤ page_room out.old) }
    ensures { Puts out.old (order_pair (routine_of listing.shape listing.wires) t) out.new }
{
    put_judgement(listing, Which::Plain, t, out);
    put_judgement(listing, Which::Strong, t, out);
}

// The lines of the orders from 1 to m.
pub fn put_orders(listing: Listing, m: usize, out: &mut Page)
    requires { (listing.shape.n ≤ length listing.wires) × (order_room * m ≤ page_room out.old) }
    ensures { Puts out.old (order_lines (routine_of listing.shape listing.wires) m 1) out.new }
{
    for t in 1..=m {
        put_order(listing, t, out);
    }
}
