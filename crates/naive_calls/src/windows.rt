// Runs of cells, and the windows along them (document 02, request (a)).
use crate::rows::{is_row, padded};
use cell_run::Run;
use naive::levels::{by_level, index};
use naive::numbers::{at, byte, is_size, put};
use naive::orders::coordinates_at;
use order::{Cell, Refusal};

pub fn check(run: Run) -> Result<(), Refusal> {
    if !(3..=128).contains(&run.len) || !is_row(&run.levels, run.len, 4095) {
        return Err(Refusal::RunLimit);
    }
    Ok(())
}

pub fn open_run(len: usize) -> Result<Run, Refusal> {
    let run = Run {
        len,
        levels: [0; 128],
    };
    check(run)?;
    Ok(run)
}

// The level at an index, 0 where there is none.
pub fn level(run: Run, i: usize) -> u16 {
    at(&run.levels, i)
}

pub fn raise_cell(run: Run, cell: Cell, to: u32) -> Result<Run, Refusal> {
    check(run)?;
    let i = index(cell.0);
    if run.len <= i {
        return Err(Refusal::NoCell);
    }
    let Ok(reach) = u16::try_from(to) else {
        return Err(Refusal::NoRaise);
    };
    if !(at(&run.levels, i)..=4095).contains(&reach) {
        return Err(Refusal::NoRaise);
    }
    let mut next = run;
    put(&mut next.levels, i, reach);
    Ok(next)
}

// The levels of twelve cells of the ring, from the one at an index on. A window has as many of these as it is wide.
fn from(run: &Run, start: usize) -> [u16; 12] {
    let mut levels = [0; 12];
    for (j, level) in levels.iter_mut().enumerate() {
        let i = start.wrapping_add(j).checked_rem(run.len).unwrap_or(0);
        *level = at(&run.levels, i);
    }
    levels
}

// The sum of coordinate i times i factorial, over the coordinates of the first so many cells in the order of their levels.
fn number_of(levels: [u16; 12], width: usize) -> u32 {
    let x = coordinates_at(by_level(levels, width), width);
    let mut sum: u32 = 0;
    let mut factorial: u32 = 1;
    for (i, value) in x.iter().enumerate().skip(1) {
        factorial = factorial.saturating_mul(u32::from(byte(i)));
        sum = sum.wrapping_add(factorial.saturating_mul(u32::from(*value)));
    }
    sum
}

// The check of a width and a step of windows along n cells.
pub fn check_limits(n: usize, width: usize, step: usize) -> Result<(), Refusal> {
    let fits = is_size(width) && width <= n && (1..=width).contains(&step);
    if !fits || n.checked_rem(step) != Some(0) {
        return Err(Refusal::RunLimit);
    }
    Ok(())
}

// Whether a window starts with the cell at an index: one that is divisible by the step.
fn is_start(i: usize, step: usize) -> bool {
    i.checked_rem(step) == Some(0)
}

// The check of a call for windows with so many places for numbers and in the scratch: 13, and then 15.
fn check_windows(
    run: Run,
    width: usize,
    step: usize,
    numbers: usize,
    scratch: usize,
) -> Result<(), Refusal> {
    check(run)?;
    check_limits(run.len, width, step)?;
    let count = (0..run.len).filter(|i| is_start(*i, step)).count();
    if numbers < count || scratch < run.len {
        return Err(Refusal::RoomShort);
    }
    Ok(())
}

// Numbers the windows, and says how many there are.
fn numbered(run: &Run, width: usize, step: usize, numbers: &mut [u32]) -> usize {
    let mut count: usize = 0;
    for i in 0..run.len {
        if is_start(i, step) {
            put(numbers, count, number_of(from(run, i), width));
            count = count.wrapping_add(1);
        }
    }
    count
}

// The levels go to the scratch.
pub fn windows(
    run: Run,
    width: usize,
    step: usize,
    numbers: &mut [u32],
    scratch: &mut [u16],
) -> Result<usize, Refusal> {
    check_windows(run, width, step, numbers.len(), scratch.len())?;
    for (place, level) in scratch.iter_mut().zip(&run.levels).take(run.len) {
        *place = *level;
    }
    Ok(numbered(&run, width, step, numbers))
}

// The record of a run that is handed in as a list.
pub fn listed(levels: &[u16]) -> Run {
    Run {
        len: levels.len(),
        levels: padded(levels),
    }
}

// The answer to a call for windows along a run that is handed in as a list.
pub fn windows_of_levels(
    levels: &[u16],
    width: usize,
    step: usize,
    numbers: &mut [u32],
    scratch: &mut [u16],
) -> Result<usize, Refusal> {
    windows(listed(levels), width, step, numbers, scratch)
}
