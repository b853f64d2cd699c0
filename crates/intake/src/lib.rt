// An input read to its end, or said to have failed: a part of an input is never handed on as the whole.
#![tactic(auto)]

ghost use Rattle.std.specs.Prelude.{◌≡◌, length, take};
ghost use Rattle.std.specs.Io.KnownBytes.{Consumes};
ghost use Rattle.intake.specs.Intake.{input_of, InputEnded, InputExhausts};

use std::io;
use std::io::Read;

// What was read of an input, and why no more: how many bytes came, and what the last read answered. Only 0 is the input's end (8.2).
#[derive(Clone, Copy)]
pub struct Intake {
    pub done: usize,
    pub last: io::Result<usize>,
}

impl Intake {
    // 8.3: the input, whole in its `done` bytes, or the error by which it failed, whatever came before.
    pub fn input(self) -> io::Result<usize>
        ensures { result ≡ input_of self.done self.last }
    {
        self.last.and(Ok(self.done))
    }
}

// 8.1: reads until the input ends, a read fails or the buffer is full.
pub fn read_whole<R: Read>(reader: &mut R, buf: &mut [u8]) -> Intake
    ensures ended { InputEnded result.done result.last (length buf.new) }
    ensures bytes { Consumes (R.remaining reader.old) (R.remaining reader.new) (take result.done buf.new) }
    ensures end { InputExhausts result.done result.last (length buf.new) (R.remaining reader.new) }
{
    let mut done = 0;
    let mut last = Ok(0);
    // no index: each read says how far the next one begins
    while done < buf.len() {
        last = reader.read(&mut buf[done..]);
        match last {
            Ok(0) | Err(_) => break,
            Ok(n) => done += n,
        }
    }
    Intake { done, last }
}
