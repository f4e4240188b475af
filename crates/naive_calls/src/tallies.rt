// The pulses that each cell has ever taken, and the endurance of all (document 02, request (h)).
use crate::rows::is_row;

pub fn is_endurance(endurance: u32) -> bool {
    (1..=1000000).contains(&endurance)
}

// Whether none of n cells has taken more pulses than the endurance, and zeros follow.
pub fn are_tallies(used: [u32; 12], n: usize, endurance: u32) -> bool {
    is_row(&used, n, endurance)
}

// The used pulses of cells that have risen from old levels to new ones.
pub fn with_rises(used: [u32; 12], old: [u16; 12], new: [u16; 12]) -> [u32; 12] {
    let mut sums = used;
    for (sum, (before, after)) in sums.iter_mut().zip(old.iter().zip(&new)) {
        let rise = u32::from(*after).wrapping_sub(u32::from(*before));
        *sum = sum.wrapping_add(rise);
    }
    sums
}
