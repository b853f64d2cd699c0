// What the programs that run the calls are given to read, and how they print what is answered.
#![tactic(auto)]

use data::{Judged, ProbeSet, Refusal, Verdict};
use std::alloc::Global;
use std::io::Read;
use std::{fmt, io};

// The most bytes of standard input that the programs take.
const INPUT_ROOM: u64 = 65536;

// What a program is given to read.
pub fn input<R: Read + Drop>(reader: R, alloc: Global) -> io::Result<Vec<u8>> {
    let mut bytes = Vec::new(alloc);
    reader.take(INPUT_ROOM).read_to_end(&mut bytes)?;
    Ok(bytes)
}

// A text without the zero byte that ends it.
pub fn text_of(part: &[u8]) -> &[u8] {
    part.strip_suffix(&[0]).unwrap_or(part)
}

// 0 where the call did what was asked, or the number of the refusal.
pub fn outcome_number(o: Result<(), Refusal>) -> u64 {
    o.err().map_or(0, Refusal::number)
}

// A set, printed as its wires, with a space before each.
#[derive(Clone, Copy)]
pub struct Wires(pub ProbeSet);

impl fmt::Display for Wires {
    fn fmt<W: fmt::Write>(&self, f: &mut fmt::Formatter<W>) -> fmt::Result {
        for w in self.0.places.iter().take(self.0.len) {
            write!(f, " {w}")?;
        }
        Ok(())
    }
}

// The answer of a judgement, printed with the set where it is open.
#[derive(Clone, Copy)]
pub struct Answer(pub Judged);

impl fmt::Display for Answer {
    fn fmt<W: fmt::Write>(&self, f: &mut fmt::Formatter<W>) -> fmt::Result {
        match self.0.verdict {
            Verdict::Pass(count) => write!(f, "pass {count}"),
            Verdict::Open(count) => write!(f, "open {count}{}", Wires(self.0.set)),
            Verdict::Refused(refusal) => write!(f, "refused {}", refusal.number()),
        }
    }
}
