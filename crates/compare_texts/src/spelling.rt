// A routine's text, put byte by byte; and the test of refusal 11: what is read back from that text are the same records.
use compare_lines::{parts, splitting, wires};
use data::{Kind, Listing, Refusal, Shape, Wire};

// A byte that no text has.
const NO_TEXT: u8 = b'?';

// Puts bytes into a buffer as long as there is room; the place goes on also behind its end.
#[derive(Drop)]
pub struct Pen<'a> {
    buf: &'a mut [u8],
    at: usize,
}

impl<'a> Pen<'a> {
    pub fn new(buf: &'a mut [u8], at: usize) -> Pen<'a> {
        Pen { buf, at }
    }

    pub fn put(&mut self, b: u8) {
        if let Some(own) = self.buf.get_mut(self.at) {
            *own = b;
        }
        self.at = self.at.wrapping_add(1);
    }

    pub fn put_all(&mut self, bytes: &[u8]) {
        for &b in bytes {
            self.put(b);
        }
    }

    // How many bytes were put, with those for which there was no room.
    pub fn len(&self) -> usize {
        self.at
    }

    // A number below 1,000; of another one a byte that no text has.
    fn put_number(&mut self, n: usize) {
        self.put(b'\t');
        if 999 < n {
            self.put(NO_TEXT);
            return;
        }
        if 99 < n {
            self.put(digit(n / 100));
        }
        if 9 < n {
            self.put(digit(n / 10));
        }
        self.put(digit(n));
    }

    fn put_line(&mut self, word: &[u8], numbers: &[usize]) {
        self.put_all(word);
        for &n in numbers {
            self.put_number(n);
        }
        self.put(b'\n');
    }

    // The line of wire w; of a share, which has none, a byte that no text has.
    fn put_wire(&mut self, x: Wire, w: usize) {
        let a = usize::from(x.a);
        let b = usize::from(x.b);
        match x.kind {
            Kind::Share => self.put_line(&[NO_TEXT], &[]),
            Kind::Rand => self.put_line(b"rand", &[w]),
            Kind::Pub => self.put_line(b"pub", &[w]),
            Kind::Xor => self.put_line(b"xor", &[w, a, b]),
            Kind::And => self.put_line(b"and", &[w, a, b]),
            Kind::Not => self.put_line(b"not", &[w, a]),
        }
    }
}

fn digit(n: usize) -> u8 {
    b'0' + (n % 10) as u8
}

// The text with the line of wire w behind its `len` bytes, and its length.
pub fn with_wire(x: Wire, w: usize, len: usize, buf: &mut [u8]) -> usize {
    let mut p = Pen::new(buf, len);
    p.put_wire(x, w);
    p.len()
}

// The text of the routine; its length is true even where the buffer is too short. The wires below S times D, the shares, have no lines.
pub fn text(listing: Listing, buf: &mut [u8]) -> usize {
    let Shape { s, d, n } = listing.shape;
    let shares = wires::shares(s, d);
    let mut p = Pen::new(buf, 0);
    p.put_line(b"routine", &[s, d]);
    for w in shares..n {
        p.put_wire(wires::at(&listing.wires, w), w);
    }
    for w in 0..n {
        if wires::at(&listing.wires, w).out {
            p.put_line(b"out", &[w]);
        }
    }
    p.len()
}

// Whether a read could have given this: the text made of it gives it again.
pub fn could_be_read(listing: Listing) -> bool {
    if 128 < listing.shape.n {
        return false;
    }
    let mut buf = [0u8; 4096];
    let len = text(listing, &mut buf);
    match splitting::read(parts::first(&buf, len)) {
        Ok(own) => own.shape == listing.shape && wires::of(&own) == wires::of(&listing),
        Err(_) => false,
    }
}

// `write`: the length of the text in the buffer, or the refusal; the buffer keeps its content where it is refused.
pub fn write(listing: Listing, buf: &mut [u8]) -> Result<usize, Refusal> {
    if !could_be_read(listing) {
        return Err(Refusal::Records);
    }
    let mut apart = [0u8; 4096];
    if buf.len() < text(listing, &mut apart) {
        return Err(Refusal::Buffer);
    }
    Ok(text(listing, buf))
}
