// What a read into a lent list stores and answers, from its text and the list's length: functions that have no list.
#![tactic(auto)]

ghost use Rattle.std.specs.Prelude.{◌≡◌};
ghost use Rattle.document.specs.Lent.{read_for, filled};

use data::{Filled, Read, Refusal, Wire};

// 10, from the length of the list; then the text.
#[tactic(auto, using(std::proofs::lemmas::Bool::Decides::nat_tests), unfolding(document::specs::Lent::read_for))]
pub fn read_for(text: &[u8], len: usize) -> Read
    ensures { result ≡ read_for text.now len }
{
    if len < 128 {
        return lines::refuse(Refusal::Lent, 0);
    }
    reader::read(text)
}

pub fn wires_of(r: Read) -> [Wire; 128]
    ensures { result ≡ r.listing.wires }
{
    r.listing.wires
}

pub fn size_of(r: Read) -> usize
    ensures { result ≡ r.listing.shape.n }
{
    r.listing.shape.n
}

pub fn answer_of(r: Read) -> Filled
    ensures { result ≡ filled r }
{
    Filled {
        outcome: r.outcome,
        line: r.line,
        shape: r.listing.shape,
    }
}
