// The desk program: reads one routine text from standard input and prints what is judged of it; where the input cannot be read to its end,
// or the answer not be written, it says so on standard error instead.
#![tactic(auto)]

ghost use Rattle.std.specs.Prelude.{length};
ghost use Rattle.intake.specs.Intake.{InputWithin};
ghost use Rattle.desk.specs.Answers.{DeskAnswered};

use std::io;

// One byte more than a text may have is read, so that a longer input is refused and not cut.
const INPUT_ROOM: usize = 4097;

// Puts what is printed of the input whose bytes are in text, and gives its length: nothing of a failed one.
#[tactic(auto, unfolding(crate::specs::Answers::desk_answers))]
fn answer(input: io::Result<usize>, text: &[u8], out: &mut [u8; report::ROOM]) -> usize
    requires { InputWithin input (length text.now) }
    ensures { DeskAnswered input text.now out.old result out.new }
{
    match input {
        Ok(n) => report::report(&text[..n], out),
        Err(_) => 0,
    }
}

// The system's words for an error, without the number that std puts behind them.
fn words(said: &str) -> &str {
    said.split_once(" (os error ")
        .map_or(said, |(words, _)| words)
}

// Says what failed, and in the system's words why.
fn fail(rt: &(impl Eprint + Alloc), what: &str, error: io::Error) -> io::Result<()> {
    let said = error.to_string(rt.alloc())?;
    let words = words(said.as_str());
    eprintln!(rt; "{what}: {words}")
}

// Says which call failed, if one did.
fn complain(
    rt: &(impl Eprint + Alloc),
    input: io::Result<usize>,
    written: io::Result<()>,
) -> io::Result<()> {
    match (input, written) {
        (Err(error), _) => fail(rt, "desk: standard input", error),
        (_, Err(error)) => fail(rt, "desk: standard output", error),
        _ => Ok(()),
    }
}

// Reads, judges and prints.
fn main(rt: HostRuntime) -> io::Result<()> {
    let mut text = [0u8; INPUT_ROOM];
    let input = intake::read_whole(&mut rt.stdin(), &mut text).input();
    let mut out = [0u8; report::ROOM];
    let len = answer(input, &text, &mut out);
    let written = rt.write_all(&out[..len]);
    complain(&rt, input, written)
}
