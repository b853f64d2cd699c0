// Reading a routine text byte by byte: letters are packed into a word, digits are added up, and a line is taken at its LF.
use crate::wires;
use data::{Kind, Listing, Refusal, Shape, Wire, Word};

// A refusal, and the line at fault.
#[derive(Clone, Copy)]
pub struct Fault {
    pub refusal: Refusal,
    pub line: usize,
}

// The field at hand: its length, its letters in a word, eight bits each, whether all are digits, whether the first is 0, and the number.
#[derive(Clone, Copy)]
struct Field {
    len: usize,
    letters: u64,
    digits: bool,
    zero: bool,
    number: usize,
}

// The fields of a line up to here: how many, the word, whether the numbers are good, and the numbers.
#[derive(Clone, Copy)]
struct Fields {
    count: usize,
    word: Option<Word>,
    good: bool,
    numbers: [usize; 3],
}

// What the lines have given: the routine, how many randoms, publics and outputs, and one above the last output.
#[derive(Clone, Copy)]
struct Text {
    listing: Listing,
    rands: usize,
    pubs: usize,
    outs: usize,
    low: usize,
}

// ---- one line, byte by byte

const NO_FIELD: Field = Field {
    len: 0,
    letters: 0,
    digits: true,
    zero: false,
    number: 0,
};

const NO_FIELDS: Fields = Fields {
    count: 0,
    word: None,
    good: true,
    numbers: [0; 3],
};

impl Field {
    fn with(self, b: u8) -> Field {
        let digit = b.is_ascii_digit();
        Field {
            len: self.len.wrapping_add(1),
            letters: self.letters << 8 | u64::from(b),
            digits: self.digits && digit,
            zero: if self.len == 0 { b == b'0' } else { self.zero },
            // From 1,000 on the length has refused the number already.
            number: if digit && self.number < 1000 {
                self.number * 10 + usize::from(b - b'0')
            } else {
                self.number
            },
        }
    }

    fn is_number(self) -> bool {
        let has_zeros = self.zero && 1 < self.len;
        self.digits && 1 <= self.len && self.len <= 3 && !has_zeros
    }

    fn word(self) -> Option<Word> {
        if 8 < self.len {
            return None;
        }
        match &self.letters.to_be_bytes() {
            b"\0routine" => Some(Word::Routine),
            b"\0\0\0\0rand" => Some(Word::Rand),
            b"\0\0\0\0\0pub" => Some(Word::Pub),
            b"\0\0\0\0\0xor" => Some(Word::Xor),
            b"\0\0\0\0\0and" => Some(Word::And),
            b"\0\0\0\0\0not" => Some(Word::Not),
            b"\0\0\0\0\0out" => Some(Word::Out),
            _ => None,
        }
    }
}

impl Fields {
    // The first field is the word, the later ones are numbers; a fourth number is only counted.
    fn with(mut self, f: Field) -> Fields {
        let count = self.count;
        if count == 0 {
            self.word = f.word();
        } else {
            self.good = self.good && f.is_number();
            if let Some(number) = self.numbers.get_mut(count - 1) {
                *number = f.number;
            }
        }
        self.count = count.wrapping_add(1);
        self
    }
}

// ---- the lines

// A routine of its shares alone: the share number goes up to D, and then the secret goes up.
pub fn begun(s: usize, d: usize) -> Listing {
    let n = wires::shares(s, d);
    let mut ws = [wires::BLANK; 128];
    let mut secret: usize = 0;
    let mut share: usize = 0;
    for x in ws.iter_mut().take(n) {
        x.a = wires::low_byte(secret);
        x.b = wires::low_byte(share);
        share = share.wrapping_add(1);
        if share == d {
            share = 0;
            secret = secret.wrapping_add(1);
        }
    }
    Listing {
        shape: Shape { s, d, n },
        wires: ws,
    }
}

// How many fields a line of this word has.
fn fields_of(word: Word) -> Option<usize> {
    match word {
        Word::Rand | Word::Pub | Word::Out => Some(2),
        Word::Not => Some(3),
        Word::Xor | Word::And => Some(4),
        Word::Routine => None,
    }
}

fn kind_of(word: Word) -> Kind {
    match word {
        Word::Rand => Kind::Rand,
        Word::Pub => Kind::Pub,
        Word::Xor => Kind::Xor,
        Word::And => Kind::And,
        _ => Kind::Not,
    }
}

// What a line makes of what was read, or its refusal.
impl Text {
    fn start(s: usize, d: usize) -> Text {
        Text {
            listing: begun(s, d),
            rands: 0,
            pubs: 0,
            outs: 0,
            low: 0,
        }
    }

    fn first_line(c: Fields) -> Result<Text, Refusal> {
        if c.word != Some(Word::Routine) || c.count != 3 || !c.good {
            return Err(Refusal::Header);
        }
        let [s, d, _] = c.numbers;
        if s < 1 || 8 < s || d < 2 || 8 < d {
            return Err(Refusal::Range);
        }
        Ok(Text::start(s, d))
    }

    fn with_wire(mut self, kind: Kind, c: Fields) -> Result<Text, Refusal> {
        let n = self.listing.shape.n;
        let [own, a, b] = c.numbers;
        if own != n || self.outs != 0 {
            return Err(Refusal::Next);
        }
        if 2 < c.count && n <= a || 3 < c.count && n <= b {
            return Err(Refusal::Operand);
        }
        if 127 < n || kind == Kind::Rand && 63 < self.rands || kind == Kind::Pub && 15 < self.pubs {
            return Err(Refusal::Ceiling);
        }
        let x = Wire {
            kind,
            a: wires::low_byte(a),
            b: wires::low_byte(b),
            out: false,
        };
        wires::put(&mut self.listing.wires, n, x);
        self.listing.shape.n = n + 1;
        self.rands = self.rands.wrapping_add(usize::from(kind == Kind::Rand));
        self.pubs = self.pubs.wrapping_add(usize::from(kind == Kind::Pub));
        Ok(self)
    }

    fn with_out(mut self, c: Fields) -> Result<Text, Refusal> {
        let [w, ..] = c.numbers;
        if 63 < self.outs {
            return Err(Refusal::Ceiling);
        }
        if self.listing.shape.n <= w || w < self.low {
            return Err(Refusal::Output);
        }
        if let Some(x) = self.listing.wires.get_mut(w) {
            x.out = true;
        }
        self.outs = self.outs.wrapping_add(1);
        self.low = w.wrapping_add(1);
        Ok(self)
    }

    fn with_line(self, c: Fields, line: usize) -> Result<Text, Refusal> {
        if line == 1 {
            return Text::first_line(c);
        }
        let word = c.word.ok_or(Refusal::Form)?;
        if fields_of(word) != Some(c.count) || !c.good {
            return Err(Refusal::Form);
        }
        match word {
            Word::Out => self.with_out(c),
            _ => self.with_wire(kind_of(word), c),
        }
    }
}

// ---- the text

fn is_letter(b: u8) -> bool {
    matches!(b, b'a'..=b'z' | b'0'..=b'9' | b'\t' | b'\n')
}

pub fn byte_at(text: &[u8], i: usize) -> u8 {
    text.get(i).copied().unwrap_or(0)
}

fn lines(text: &[u8]) -> Result<Listing, Fault> {
    let mut t = Text::start(0, 0);
    let mut c = NO_FIELDS;
    let mut field = NO_FIELD;
    let mut line: usize = 1;
    for &b in text {
        if b != b'\t' && b != b'\n' {
            field = field.with(b);
            continue;
        }
        c = c.with(field);
        field = NO_FIELD;
        if b == b'\n' {
            t = t
                .with_line(c, line)
                .map_err(|refusal| Fault { refusal, line })?;
            c = NO_FIELDS;
            line = line.wrapping_add(1);
        }
    }
    Ok(t.listing)
}

// A whole text: refusals 1 and 2 look at it as a whole.
pub fn read(text: &[u8]) -> Result<Listing, Fault> {
    if text.is_empty() || 4096 < text.len() {
        return Err(Fault {
            refusal: Refusal::Length,
            line: 0,
        });
    }
    if !text.iter().all(|b| is_letter(*b)) || text.last() != Some(&b'\n') {
        return Err(Fault {
            refusal: Refusal::Byte,
            line: 0,
        });
    }
    lines(text)
}
