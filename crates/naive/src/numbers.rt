// Reads and stores at any index, so that no caller has a bound to show. Sums wrap by name; none of the documents' comes near.

// A number as a byte, 255 where it is no byte.
pub fn byte(x: usize) -> u8 {
    u8::try_from(x).unwrap_or(u8::MAX)
}

// The number at an index, 0 where there is none.
pub fn at<T: Copy + Default>(values: &[T], i: usize) -> T {
    values.get(i).copied().unwrap_or_default()
}

// Stores x at an index. Past the end nothing is stored.
pub fn put<T: Copy>(values: &mut [T], i: usize, x: T) {
    if let Some(place) = values.get_mut(i) {
        *place = x;
    }
}

// Whether the places from n on hold 0.
pub fn is_clear_from<T: Copy + Default + PartialEq>(values: &[T], n: usize) -> bool {
    let zero = T::default();
    values.iter().skip(n).all(|x| *x == zero)
}

// Document 01: n runs from 3 to 12.
pub fn is_size(n: usize) -> bool {
    (3..=12).contains(&n)
}
