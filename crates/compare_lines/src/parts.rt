// Parts of lists that may be shorter than what is asked.

// The first n items, or all.
pub fn first<T>(items: &[T], n: usize) -> &[T] {
    &items[..n.min(items.len())]
}

// The items from `from` on, if there are any.
pub fn rest<T>(items: &[T], from: usize) -> &[T] {
    &items[from.min(items.len())..]
}

// The items from `from` up to `to`, as far as there are any.
pub fn between<T>(items: &[T], from: usize, to: usize) -> &[T] {
    rest(first(items, to), from)
}
