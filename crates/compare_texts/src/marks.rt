// Marks on 64 times N places, a bit for each: those of the wires are in two words.
use compare_lines::wires;

#[derive(Clone, Copy, PartialEq, Eq)]
pub struct Marks<const N: usize>([u64; N]);

impl<const N: usize> Marks<N> {
    pub fn none() -> Marks<N> {
        Marks([0; N])
    }

    pub fn has(&self, i: usize) -> bool {
        self.0
            .get(i / 64)
            .is_some_and(|word| wires::bit(*word, i % 64))
    }

    pub fn set(&mut self, i: usize) {
        if let Some(word) = self.0.get_mut(i / 64) {
            *word |= 1 << (i % 64);
        }
    }

    // Those that are in the other too.
    pub fn keep(&mut self, other: &Marks<N>) {
        for (x, y) in self.0.iter_mut().zip(&other.0) {
            *x &= *y;
        }
    }

    // How many are in both.
    pub fn count_both(&self, other: &Marks<N>) -> u32 {
        self.0.iter().zip(&other.0).fold(
            0,
            |count: u32, (x, y)| count.wrapping_add((*x & *y).count_ones()),
        )
    }
}
