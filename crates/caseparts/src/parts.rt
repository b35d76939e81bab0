// Parts of buffers.

// The first n elements, or all where there are fewer.
pub fn front<T>(items: &mut [T], n: usize) -> &mut [T] {
    let end = n.min(items.len());
    &mut items[..end]
}
