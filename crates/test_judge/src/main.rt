// One judgement at one order, to be timed alone. The input is what is asked, as in `strong 4`, a zero byte and a routine's text.
#![tactic(auto)]

use data::Which;
use std::io;
use std::io::{BufWriter, Write};
use test_show::Answer;

fn judgement_asked(asked: &[u8]) -> Which {
    if asked.starts_with(b"s") {
        Which::Strong
    } else {
        Which::Plain
    }
}

// The last digit; the digits are the bytes from 48 on.
fn order_asked(asked: &[u8]) -> usize {
    asked.last().map_or(0, |b| usize::from(*b % 16))
}

fn show(out: &mut impl Write, input: &[u8]) -> io::Result<()> {
    let mut parts = input.splitn(2, |b| *b == 0);
    if let (Some(asked), Some(text)) = (parts.next(), parts.next()) {
        let r = reader::read(text);
        let answer = judge::judge(r.listing, judgement_asked(asked), order_asked(asked));
        out.write_all(asked)?;
        writeln!(out, " {}", Answer(answer))?;
    }
    Ok(())
}

fn main(rt: HostRuntime) -> io::Result<()> {
    let mut out = BufWriter::new(rt.alloc(), io::writer(&rt))?;
    let input = test_show::input(rt.stdin(), rt.alloc())?;
    show(&mut out, &input)?;
    out.flush()
}
