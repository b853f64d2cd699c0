// Reading a routine text by value.
#![tactic(auto)]

ghost use Rattle.std.specs.Prelude.{◌≡◌};
ghost use Rattle.document.specs.Reading.{reading};

use data::{LF, Read, Refusal};

// The most bytes that a text may have.
const LONGEST: usize = 4096;

// A whole text: any bytes, any number of them.
// Linear in its length: a byte is looked at once for 2, once for an LF, once for a tab, and in its field as a digit or as a part
// of a word. Parts of the text are lent on and never copied; each line hands on one state.
#[tactic(auto, using(crate::proofs::TextLaws::first_line), unfolding(document::specs::Reading::reading))]
pub fn read(text: &[u8]) -> Read
    ensures { result ≡ reading text.now }
{
    if text.is_empty() || LONGEST < text.len() {
        return lines::refuse(Refusal::Length, 0);
    }
    if !letters::all_letters(text) || text[text.len() - 1] != LF {
        return lines::refuse(Refusal::Byte, 0);
    }
    let Some((first, rest)) = fields::split_once(text, LF) else {
        return lines::refuse(Refusal::Header, 1);
    };
    lines::from_header(line::line_of(first), rest)
}
