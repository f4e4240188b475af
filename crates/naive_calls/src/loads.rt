// Test loads (document 02, request (i)): a state is taken apart into its 32 bits, the lowest first.
use crate::symbols::all_words;
use naive::numbers::is_size;
use order::Refusal;

fn bits_of(state: u32) -> [bool; 32] {
    let mut bits = [false; 32];
    let mut left = state;
    for bit in &mut bits {
        *bit = left % 2 == 1;
        left /= 2;
    }
    bits
}

fn number_of(bits: [bool; 32]) -> u32 {
    let mut number: u32 = 0;
    for bit in bits.iter().rev() {
        number = number.wrapping_mul(2).wrapping_add(u32::from(*bit));
    }
    number
}

// Set where a bit differs from the one that comes to its place when all are moved up by so many places, or down by so many. Where none comes it
// stays.
fn stage(bits: [bool; 32], up: usize, down: usize) -> [bool; 32] {
    let mut next = bits;
    for (k, bit) in next.iter_mut().enumerate() {
        if let Some(other) = bits.get(k.wrapping_add(down).wrapping_sub(up)) {
            *bit ^= *other;
        }
    }
    next
}

pub fn next_state(state: u32) -> u32 {
    let first = stage(bits_of(state), 13, 0);
    let second = stage(first, 0, 17);
    number_of(stage(second, 5, 0))
}

// A load into a list, and the state after it.
pub fn load(n: usize, seed: u32, list: &mut [u32]) -> Result<u32, Refusal> {
    if !is_size(n) {
        return Err(Refusal::Size);
    }
    if seed == 0 {
        return Err(Refusal::Seed);
    }
    let words = all_words(n);
    let mut state = seed;
    for symbol in list.iter_mut() {
        state = next_state(state);
        if words != 0 {
            *symbol = state % words;
        }
    }
    Ok(state)
}
