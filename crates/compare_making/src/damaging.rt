// Damaged texts: a byte changed, removed or doubled, a line moved, removed or doubled, the end cut off.
use crate::chance;
use compare_lines::parts::{between, first, rest};
use compare_lines::splitting;
use compare_texts::spelling::Pen;

// The place behind the LF of line k, counted from 1; the length where the text has fewer lines.
fn line_end(src: &[u8], k: usize) -> usize {
    let mut seen: usize = 0;
    for (i, &b) in src.iter().enumerate() {
        if b == b'\n' {
            seen = seen.wrapping_add(1);
            if seen == k {
                return i + 1;
            }
        }
    }
    src.len()
}

fn count_lines(src: &[u8]) -> usize {
    src.iter().filter(|b| **b == b'\n').count()
}

// Mostly a byte that a text may have: a digit, a tab, an LF or a letter.
fn byte_drawn(seed: u64) -> u8 {
    match chance::below(seed, 20, 16) {
        0..=8 => b'0' + (chance::below(seed, 21, 10) % 10) as u8,
        9..=10 => b'\t',
        11 => b'\n',
        12..=14 => b'a' + (chance::below(seed, 21, 26) % 26) as u8,
        _ => (chance::below(seed, 21, 256) % 256) as u8,
    }
}

// What may be done to one byte.
#[derive(Clone, Copy)]
enum OfByte {
    Changed,
    Removed,
    Doubled,
    Preceded,
}

const OF_BYTE: [OfByte; 4] = [
    OfByte::Changed,
    OfByte::Removed,
    OfByte::Doubled,
    OfByte::Preceded,
];

// One byte changed, removed, doubled, or another one put before it.
fn byte_damaged(src: &[u8], seed: u64, damage: OfByte, to: &mut Pen) {
    let p = chance::below(seed, 22, src.len());
    let behind = rest(src, p.wrapping_add(1));
    to.put_all(first(src, p));
    match damage {
        OfByte::Changed => {
            to.put(byte_drawn(seed));
            to.put_all(behind);
        }
        OfByte::Removed => to.put_all(behind),
        OfByte::Doubled => {
            to.put(splitting::byte_at(src, p));
            to.put_all(rest(src, p));
        }
        OfByte::Preceded => {
            to.put(byte_drawn(seed));
            to.put_all(rest(src, p));
        }
    }
}

// What may be done to one line.
#[derive(Clone, Copy)]
enum OfLine {
    Removed,
    Doubled,
    Moved,
}

const OF_LINE: [OfLine; 3] = [OfLine::Removed, OfLine::Doubled, OfLine::Moved];

// A line removed, doubled, or moved behind another. The text begins where its line 0 ends.
fn line_damaged(src: &[u8], seed: u64, damage: OfLine, to: &mut Pen) {
    let lines = count_lines(src);
    let k = chance::below(seed, 23, lines);
    let start = if k == 0 { 0 } else { line_end(src, k) };
    let end = line_end(src, k.wrapping_add(1));
    let line = between(src, start, end);
    to.put_all(first(src, start));
    match damage {
        OfLine::Removed => to.put_all(rest(src, end)),
        OfLine::Doubled => {
            to.put_all(line);
            to.put_all(rest(src, start));
        }
        OfLine::Moved => {
            let far = line_end(src, k.wrapping_add(chance::below(seed, 24, lines)));
            to.put_all(between(src, end, far));
            to.put_all(line);
            to.put_all(rest(src, far.max(end)));
        }
    }
}

// The text again and again, until it is longer than a text may be, or just not.
fn repeated(src: &[u8], seed: u64, to: &mut Pen) {
    let wanted = chance::below(seed, 26, 4).wrapping_add(4095);
    for i in 0..wanted {
        to.put(splitting::byte_at(src, i % src.len().max(1)));
    }
}

// The damaged text in the buffer, and its length.
pub fn damaged(src: &[u8], seed: u64, dst: &mut [u8]) -> usize {
    let mut to = Pen::new(dst, 0);
    let which = chance::below(seed, 25, 64);
    match which {
        0 => {}
        1..=2 => repeated(src, seed, &mut to),
        3..=5 => to.put_all(first(src, chance::below(seed, 27, src.len()))),
        6..=23 => line_damaged(src, seed, OF_LINE[which % 3], &mut to),
        _ => byte_damaged(src, seed, OF_BYTE[which % 4], &mut to),
    }
    to.len()
}
