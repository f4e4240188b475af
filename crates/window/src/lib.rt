// The numbers of the windows along a run (document 02, request (a); local rank modulation, SD 004). Each public function takes anything; equations
// with the definitions of specs/ fix its answer and both of the lists that it is lent. Proved besides, in `window_laws`: a window's number is below
// the factorial of its width, numbers and orders of a width determine each other, level cells go by their numbers in the window, and a ring turned by
// a step has its numbers turned by one.
#![tactic(auto)]

ghost use Rattle.std.specs.Prelude.{◌≡◌, ◌+◌, ◌%◌, ◌≤◌, ◌<◌, length};
ghost use Rattle.order.specs.Refusals.{outcome_number, number_of};
ghost use Rattle.coordinates.specs.Coordinates.{coordinate_of};
ghost use Rattle.cell_run.specs.Run.{run_checks, level_checks};
ghost use Rattle.window.specs.Ring.{window_order, window_number, window_at, window_numbers};
ghost use Rattle.window.specs.Calls.{ring, put_first, told_windows, windows_of, numbers_after, scratch_after};
ghost use Rattle.window.specs.Steps.{stands_after, call_checks, Numberable, KeptPast};

use cell_run::Run;
use order::Refusal;

// Coordinates i and i + 1 of a window.
#[derive(Clone, Copy)]
struct TwoCoordinates {
    here: u32,
    next: u32,
}

// The numbers of the windows that start with cells 1, 1 + step and so on, put first into a list; a scratch of at least as many levels as the
// run ends with the run's levels first. The answer is how many windows were numbered.
// Width, step and both lists go by themselves, and not in a record: so the C interface hands them over.
pub fn windows(
    run: Run,
    width: usize,
    step: usize,
    numbers: &mut [u32],
    scratch: &mut [u16],
) -> Result<usize, Refusal>
    ensures result_value { told_windows result ≡ windows_of (run_checks run) (ring run) width step numbers.old scratch.old }
    ensures numbers_after { numbers.new ≡ numbers_after (run_checks run) (ring run) width step numbers.old scratch.old }
    ensures scratch_after { scratch.new ≡ scratch_after (run_checks run) (ring run) width step numbers.old scratch.old }
{
    cell_run::check(run)?;
    windows_of_levels(&run.levels[..run.len], width, step, numbers, scratch)
}

// The same for the levels of a run that are handed in without a record.
pub fn windows_of_levels(
    levels: &[u16],
    width: usize,
    step: usize,
    numbers: &mut [u32],
    scratch: &mut [u16],
) -> Result<usize, Refusal>
    ensures result_value { told_windows result ≡ windows_of (level_checks levels.now) levels.now width step numbers.old scratch.old }
    ensures numbers_after { numbers.new ≡ numbers_after (level_checks levels.now) levels.now width step numbers.old scratch.old }
    ensures scratch_after { scratch.new ≡ scratch_after (level_checks levels.now) levels.now width step numbers.old scratch.old }
{
    cell_run::check_levels(levels)?;
    check_call(levels.len(), width, step, numbers.len(), scratch.len())?;
    number_windows(levels, width, step, numbers, scratch);
    Ok(levels.len() / step)
}

// The checks of a width and a step on a ring of n cells, and of lists of so many numbers and levels.
#[tactic(auto, unfolding(order::specs::Refusals::number_of))]
fn check_call(
    n: usize,
    width: usize,
    step: usize,
    numbers: usize,
    scratch: usize,
) -> Result<(), Refusal>
    ensures { outcome_number result ≡ number_of (call_checks n width step numbers scratch) }
{
    cell_run::check_windows(n, width, step)?;
    if numbers < n / step || scratch < n {
        return Err(Refusal::RoomShort);
    }
    Ok(())
}

// Numbers each window. At the end the levels of the whole ring stand first in the scratch.
fn number_windows(ring: &[u16], width: usize, step: usize, numbers: &mut [u32], scratch: &mut [u16])
    requires { Numberable ring.now width step numbers.old scratch.old }
    ensures numbers_after { numbers.new ≡ put_first (window_numbers ring.now width step) numbers.old }
    ensures scratch_after { scratch.new ≡ put_first ring.now scratch.old }
{
    let count = ring.len() / step;
    for k in 0..count {
        numbers[k] = number_at(ring, k * step, width, scratch);
    }
    put_levels(ring, scratch);
}

// The number of the window that starts at a place. A window that goes round the end of the ring is put together at the front of the scratch.
fn number_at(ring: &[u16], start: usize, width: usize, scratch: &mut [u16]) -> u32
    requires { (start < length ring.now) × ((width ≤ 12) × (width ≤ length scratch.old)) }
    ensures value { result ≡ window_number (window_at ring.now width start) }
    ensures kept_past { KeptPast width scratch.old scratch.new }
{
    let end = start + width;
    if end <= ring.len() {
        return number_of(&ring[start..end]);
    }
    put_window(ring, start, width, scratch);
    number_of(&scratch[..width])
}

// Puts the levels of the whole ring first into a list. No `copy_from_slice`: with it the C archive would need `memmove` from outside.
fn put_levels(ring: &[u16], out: &mut [u16])
    requires { length ring.now ≤ length out.old }
    ensures { out.new ≡ put_first ring.now out.old }
{
    for j in 0..ring.len() {
        out[j] = ring[j];
    }
}

// Puts the levels of a window first into a list, in ring order. `at` is counted: this holds for a window of any width, and two `copy_from_slice` (to the
// ring's end, and from its start) only for one no wider than the ring.
fn put_window(ring: &[u16], start: usize, width: usize, out: &mut [u16])
    requires { (start < length ring.now) × (width ≤ length out.old) }
    ensures { out.new ≡ put_first (window_at ring.now width start) out.old }
{
    let mut at = start;
    for j in 0..width {
        out[j] = ring[at];
        at = next_on(ring.len(), at);
    }
}

// The place after a place on a ring of n, with no division.
fn next_on(n: usize, at: usize) -> usize
    requires { at < n }
    ensures { result ≡ (at + 1) % n }
{
    if at + 1 < n { at + 1 } else { 0 }
}

// The number of a window with these levels, by Horner's rule from the last cell, two coordinates at a time. Coordinate 0, the last of an even
// width, is 0.
fn number_of(window: &[u16]) -> u32
    requires { length window.now ≤ 12 }
    ensures { result ≡ window_number window.now }
{
    let mut number: u32 = 0;
    // a `for` over the pairs in reverse was tried: a call for windows then runs a tenth more instructions, and more than the twin
    let mut i = window.len();
    while 1 < i {
        i -= 2;
        let two = two_coordinates(window, i);
        number = (number * (i as u32 + 2) + two.next) * (i as u32 + 1) + two.here;
    }
    number
}

// Coordinates i and i + 1 of a window, by one sweep over the cells before both: how many of the cells before a cell stand after it in the order.
fn two_coordinates(window: &[u16], i: usize) -> TwoCoordinates
    requires { (i + 1 < length window.now) × (length window.now ≤ 12) }
    ensures here_value { result.here ≡ coordinate_of (window_order window.now) i }
    ensures next_value { result.next ≡ coordinate_of (window_order window.now) (i + 1) }
{
    let level = window[i];
    let level_next = window[i + 1];
    let mut here: u32 = 0;
    let mut next: u32 = stands_after(level, level_next);
    for before in &window[..i] {
        here += stands_after(*before, level);
        next += stands_after(*before, level_next);
    }
    TwoCoordinates { here, next }
}

// 1 where a cell stands after a later one in the order, else 0, by the rule of reading.
#[tactic(auto, unfolding(crate::specs::Steps::stands_after))]
fn stands_after(level: u16, later: u16) -> u32
    ensures { result ≡ stands_after level later }
{
    u32::from(!sensing::stands_above(level, later))
}
