// Lent slices. A read past the end gives 0 and a write there does nothing, so that no index needs a proof.

pub(crate) fn at<T: Copy + Default>(s: &[T], i: usize) -> T {
    s.get(i).copied().unwrap_or_default()
}

pub(crate) fn put<T: Drop>(s: &mut [T], i: usize, v: T) {
    if let Some(x) = s.get_mut(i) {
        *x = v;
    }
}

// The bytes of a slice from one place to another; none where it has no such part.
pub(crate) fn part_of(s: &[u8], from: usize, to: usize) -> &[u8] {
    s.get(from..to).unwrap_or(b"")
}
