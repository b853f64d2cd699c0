// The form of one line of a routine text: its word and its numbers.
#![tactic(auto)]

ghost use Rattle.std.specs.Prelude.{◌≡◌};
ghost use Rattle.document.specs.Lines.{line_of};
ghost use Rattle.line.specs.Fields.{with_numbers};

use data::{Line, TAB, Word};

// 1.9: the line of a word with these numbers.
fn with_numbers(k: Word, numbers: &[usize]) -> Option<Line>
    ensures { result ≡ with_numbers k numbers.now }
{
    match (k, numbers) {
        (Word::Routine, [s, d]) => Some(Line::Head(*s, *d)),
        (Word::Rand, [w]) => Some(Line::Rand(*w)),
        (Word::Pub, [w]) => Some(Line::Pub(*w)),
        (Word::Xor, [w, a, b]) => Some(Line::Xor(*w, *a, *b)),
        (Word::And, [w, a, b]) => Some(Line::And(*w, *a, *b)),
        (Word::Not, [w, a]) => Some(Line::Not(*w, *a)),
        (Word::Out, [w]) => Some(Line::Out(*w)),
        _ => None,
    }
}

// The line that these bytes, without the LF, make. Each byte is scanned for a tab once and read in its field once.
#[tactic(auto, using(crate::proofs::Laws::by_field))]
pub fn line_of(bytes: &[u8]) -> Option<Line>
    ensures { result ≡ line_of bytes.now }
{
    let (word, rest) = fields::split_once(bytes, TAB)?;
    let k = fields::word_of(word)?;
    let Some((first, rest)) = fields::split_once(rest, TAB) else {
        return with_numbers(k, &[fields::number_of(rest)?]);
    };
    let w = fields::number_of(first)?;
    let Some((second, rest)) = fields::split_once(rest, TAB) else {
        return with_numbers(k, &[w, fields::number_of(rest)?]);
    };
    let a = fields::number_of(second)?;
    match fields::split_once(rest, TAB) {
        None => with_numbers(k, &[w, a, fields::number_of(rest)?]),
        Some(_) => None,
    }
}
