// Whether an answer of the product is the other one.
use compare_lines::splitting::Fault;
use compare_lines::wires;
use data::{Filled, Listing, Read, Refusal, Shape};

// The number of a refusal in the table, said here again: the product's own is one of the things compared.
pub fn number_of(f: Refusal) -> u64 {
    match f {
        Refusal::Length => 1,
        Refusal::Byte => 2,
        Refusal::Header => 3,
        Refusal::Range => 4,
        Refusal::Form => 5,
        Refusal::Next => 6,
        Refusal::Operand => 7,
        Refusal::Ceiling => 8,
        Refusal::Output => 9,
        Refusal::Lent => 10,
        Refusal::Records => 11,
        Refusal::Order => 12,
        Refusal::Probes => 13,
        Refusal::Bits => 14,
        Refusal::Buffer => 15,
        Refusal::Steps => 16,
    }
}

// The answer of a read but for the records.
pub fn same_answer(f: Filled, own: Result<Listing, Fault>) -> bool {
    let (outcome, line, shape) = match own {
        Ok(g) => (Ok(()), 0, g.shape),
        Err(e) => (Err(e.refusal), e.line, Shape { s: 0, d: 0, n: 0 }),
    };
    let wanted = Filled {
        outcome,
        line,
        shape,
    };
    f == wanted
}

pub fn same_read(r: Read, own: Result<Listing, Fault>) -> bool {
    let answer = Filled {
        outcome: r.outcome,
        line: r.line,
        shape: r.listing.shape,
    };
    let same_wires = match own {
        Ok(g) => wires::of(&r.listing) == wires::of(&g),
        Err(_) => true,
    };
    same_answer(answer, own) && same_wires
}
