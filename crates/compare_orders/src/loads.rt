// Test loads: the step of the generator, and lists of symbols, cut in two at every place.
ghost use Rattle.std.specs.Prelude.{◌≤◌};

use comparing::sample;
use comparing::tally::Tally;
use order::Refusal;

// What stands in each place of a list before the call. No symbol is as high: a place that is touched shows.
const NO_SYMBOL: u32 = 4294967295;

// Seed number k: 0, the 32 powers of two, the highest one, and then any.
fn seed(k: usize) -> u32 {
    match k {
        0 => 0,
        1..=32 => 1u32 << (k - 1),
        33 => u32::MAX,
        _ => sample::narrow(sample::below(4294967296, 91, k)),
    }
}

// One comparison each of the state after a state.
pub fn steps() -> Tally {
    let mut t = Tally::default();
    for k in 0..4096 {
        let x = seed(k);
        t.compare(
            Ok(load::next_state(x)),
            Ok(naive_calls::loads::next_state(x)),
        );
    }
    t
}

// A load in two parts, of which the first has so many places, and the second begins with its last state, or with 0 where it is refused.
fn in_parts(n: usize, seed: u32, list: &mut [u32], first: usize) -> Result<u32, Refusal> {
    let (front, back) = list.split_at_mut(first.min(list.len()));
    let middle = load::load(n, seed, front).unwrap_or(0);
    load::load(n, middle, back)
}

// The load into the first places of a list, cut at every place. At the first one it is made whole, after a load of nothing.
fn every_cut(t: &mut Tally, n: usize, seed: u32, places: usize)
    requires { places ≤ 40 }
{
    let mut due = [NO_SYMBOL; 40];
    let b = naive_calls::loads::load(n, seed, &mut due[..places]);
    for first in 0..=places {
        let mut list = [NO_SYMBOL; 40];
        let a = in_parts(n, seed, &mut list[..places], first);
        t.compare_and(a, b, list == due);
    }
}

// 0 to 40 places.
fn every_length(t: &mut Tally, n: usize, seed: u32) {
    for places in 0..41 {
        every_cut(t, n, seed, places);
    }
}

// 64 seeds.
pub fn every_seed(n: usize) -> Tally {
    let mut t = Tally::default();
    for k in 0..64 {
        every_length(&mut t, n, seed(k));
    }
    t
}

// 20 sizes that no group has, with a seed of 0 and with one of 1.
pub fn sizes() -> Tally {
    let mut t = Tally::default();
    for k in 0..20 {
        every_length(&mut t, sample::size(k), 0);
        every_length(&mut t, sample::size(k), 1);
    }
    t
}
