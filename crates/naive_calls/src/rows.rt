// Lists of one number a cell.
use naive::numbers::is_clear_from;

// Whether none of n numbers is above the most, and zeros follow.
pub fn is_row<T: Copy + Default + Ord>(values: &[T], n: usize, most: T) -> bool {
    values.iter().all(|x| *x <= most) && is_clear_from(values, n)
}

// The first so many of some values, with zeros where there are fewer.
pub fn padded<T: Copy + Default, const N: usize>(values: &[T]) -> [T; N] {
    let mut row = [T::default(); N];
    for (place, value) in row.iter_mut().zip(values) {
        *place = *value;
    }
    row
}
