// Runs of cells, and the windows along them.
ghost use Rattle.std.specs.Prelude.{◌≤◌};

use cell_run::Run;
use comparing::sample::{below, narrow};
use comparing::tally::Tally;
use naive::numbers::{byte, put};
use order::{Cell, Refusal};

// Lengths, widths and steps above those that are tried one by one. Cut to 8, 16 or 32 bits, three of them are 3.
const HUGE: [usize; 5] = [259, 65539, 4294967296, 4294967299, 18446744073709551615];

// The lengths of the runs.
const LENGTHS: [usize; 32] = [
    3, 4, 5, 6, 7, 8, 9, 10, 11, 12, 13, 14, 15, 16, 17, 18, 19, 20, 21, 22, 23, 24, 32, 127, 128,
    126, 120, 100, 96, 125, 64, 60,
];

// Lengths that no run has.
const WRONG: [usize; 5] = [0, 1, 2, 129, 18446744073709551615];

// Levels that no run has, and one that it has not past its length.
const LEVELS: [u16; 3] = [4096, 65535, 1];

// Two lists, of which a call for windows is lent the first places.
#[derive(Clone, Copy, PartialEq, Eq)]
struct Lists {
    numbers: [u32; 130],
    scratch: [u16; 130],
}

// What stands in the lists before the call. No window has this number, and no run this level: a place that is touched shows.
const UNTOUCHED: Lists = Lists {
    numbers: [4294967295; 130],
    scratch: [9999; 130],
};

// What a call for windows asks for, and how many places of each list it is lent.
#[derive(Clone, Copy)]
struct Asked {
    width: usize,
    step: usize,
    room: usize,
    places: usize,
    ghost room_fits: { room ≤ 130 },
    ghost places_fit: { places ≤ 130 },
}

// The length of record number k. Five in eight of the forged ones have one that no run has.
fn length(k: usize) -> usize {
    let way = k % 8;
    if 32 <= k && way < 5 {
        WRONG[way]
    } else {
        LENGTHS[k % 32]
    }
}

// Record number k. 0 to 31 are runs, with the m lowest levels, or in every second run the m highest: where m is small, many are equal. The later
// ones are forged, each with one change, and mostly no runs: a wrong length, or another level at the first, the last, the next or the last place
// of all.
fn record(k: usize, m: usize) -> Run {
    let len = length(k);
    let turned: usize = if k % 2 == 0 { 0 } else { 4095 };
    let mut levels = [0u16; 128];
    for (i, level) in levels.iter_mut().enumerate().take(len) {
        *level = narrow(below(m, k, i) ^ turned);
    }
    let run = Run { len, levels };
    if k < 32 { run } else { forged(run, k) }
}

// The record with another level, where its length is a run's.
fn forged(run: Run, k: usize) -> Run {
    let mut r = run;
    let way = k % 8;
    if 5 <= way {
        let places = [0, r.len.wrapping_sub(1), r.len, 127];
        put(&mut r.levels, places[k / 8 % 4], LEVELS[way - 5]);
    }
    r
}

// Every length to 140, and the huge ones.
pub fn opens() -> Tally {
    let mut t = Tally::default();
    for n in (0..141).chain(HUGE) {
        t.compare(cell_run::open_run(n), naive_calls::windows::open_run(n));
    }
    t
}

// The levels of a run and two zeros.
fn row(run: Run) -> [u16; 130] {
    let mut levels = [0u16; 130];
    levels[..128].copy_from_slice(&run.levels);
    levels
}

// Two comparisons of every record: whether it is a run, and whether its levels are one as a list.
pub fn checks() -> Tally {
    let mut t = Tally::default();
    for k in 0..64 {
        let run = record(k, 4096);
        let levels = row(run);
        let list = &levels[..run.len.min(130)];
        t.compare(cell_run::check(run), naive_calls::windows::check(run));
        t.compare(
            cell_run::check_levels(list),
            naive_calls::windows::check(naive_calls::windows::listed(list)),
        );
    }
    t
}

// One comparison of a cell raised to a level.
fn raise(t: &mut Tally, run: Run, cell: Cell, level: u32) {
    t.compare(
        cell_run::raise_cell(run, cell, level),
        naive_calls::windows::raise_cell(run, cell, level),
    );
}

// Cells 0 to 255, each raised to seven levels: to four that the present one is added to, then to three as they are: a loop for each sort of level.
fn every_cell(t: &mut Tally, run: Run) {
    for k in 0..=255 {
        let present = naive_calls::windows::level(run, naive::levels::index(k));
        for more in [0, u32::MAX, 1, 65536] {
            raise(t, run, Cell(k), u32::from(present).wrapping_add(more));
        }
        for level in [4095, 4096, u32::MAX] {
            raise(t, run, Cell(k), level);
        }
    }
}

// Every record.
pub fn raises() -> Tally {
    let mut t = Tally::default();
    for k in 0..64 {
        every_cell(&mut t, record(k, 4096));
    }
    t
}

// The answer to a call for windows, and the lists after it.
fn lent<F>(asked: Asked, call: F) -> (Result<usize, Refusal>, Lists)
where
    F: FnOnce(&mut [u32], &mut [u16]) -> Result<usize, Refusal>,
    requires { F.IsAlwaysCallable call }
{
    let mut lists = UNTOUCHED;
    let answer = call(
        &mut lists.numbers[..asked.room],
        &mut lists.scratch[..asked.places],
    );
    (answer, lists)
}

// One comparison of a call for windows along a run's record: of the answers, and of both lists.
fn of_run(t: &mut Tally, run: Run, asked: Asked) {
    let Asked { width, step, .. } = asked;
    let (a, lists) = lent(asked, |numbers, scratch| {
        window::windows(run, width, step, numbers, scratch)
    });
    let (b, due) = lent(asked, |numbers, scratch| {
        naive_calls::windows::windows(run, width, step, numbers, scratch)
    });
    t.compare_and(a, b, lists == due);
}

// The same along a list of levels.
fn of_levels(t: &mut Tally, levels: &[u16], asked: Asked) {
    let Asked { width, step, .. } = asked;
    let (a, lists) = lent(asked, |numbers, scratch| {
        window::windows_of_levels(levels, width, step, numbers, scratch)
    });
    let (b, due) = lent(asked, |numbers, scratch| {
        naive_calls::windows::windows_of_levels(levels, width, step, numbers, scratch)
    });
    t.compare_and(a, b, lists == due);
}

// A place less than there are of something, as many, or one more; no more than 130.
fn near(n: usize, way: usize) -> usize
    ensures { result ≤ 130 }
{
    n.wrapping_add(way % 3).wrapping_sub(1).min(130)
}

// Two comparisons of a call for windows: a record, and its levels as a list.
fn each_call(t: &mut Tally, run: Run, asked: Asked) {
    let levels = row(run);
    of_run(t, run, asked);
    of_levels(t, &levels[..run.len.min(130)], asked);
}

// Widths 0 to 14, steps 0 to 13, and lists with a place too few, just enough and one more.
fn every_window(t: &mut Tally, run: Run) {
    for k in 0..1890 {
        let step = k / 9 % 14;
        let count = run.len.checked_div(step).unwrap_or(0);
        let asked = Asked {
            width: k / 126,
            step,
            room: near(count, k / 3),
            places: near(run.len, k),
        };
        each_call(t, run, asked);
    }
}

// 32 records.
pub fn along(from: usize, m: usize) -> Tally {
    let mut t = Tally::default();
    for k in from..from.saturating_add(32) {
        every_window(&mut t, record(k, m));
    }
    t
}

// A call for windows that is lent all places.
fn roomy(width: usize, step: usize) -> Asked {
    Asked {
        width,
        step,
        room: 130,
        places: 130,
    }
}

// Lists of 0 to 130 levels, widths 0 to 14, steps 0 to 13.
pub fn slices() -> Tally {
    let mut t = Tally::default();
    let levels = row(record(24, 40));
    for k in 0..27510 {
        of_levels(&mut t, &levels[..k / 210], roomy(k / 14 % 15, k % 14));
    }
    t
}

// One comparison of whether windows along n cells can have a width and a step.
fn each_limit(t: &mut Tally, n: usize, width: usize, step: usize) {
    t.compare(
        cell_run::check_windows(n, width, step),
        naive_calls::windows::check_limits(n, width, step),
    );
}

// 0 to 130 cells, widths 0 to 14, steps 0 to 13.
pub fn every_limit() -> Tally {
    let mut t = Tally::default();
    for k in 0..27510 {
        each_limit(&mut t, k / 210, k / 14 % 15, k % 14);
    }
    t
}

// A call that fits a run of 12 cells; the same with a huge width, with a huge step, with no place for the numbers, and with none in the scratch.
// The limits by themselves too, also of huge lengths.
pub fn limits() -> Tally {
    let mut t = Tally::default();
    let run = record(9, 4096);
    each_call(&mut t, run, roomy(3, 3));
    for huge in HUGE {
        each_call(&mut t, run, roomy(huge, 3));
        each_call(&mut t, run, roomy(3, huge));
        each_limit(&mut t, 12, huge, 3);
        each_limit(&mut t, 12, 3, huge);
        each_limit(&mut t, huge, 3, 3);
    }
    for (room, places) in [(0, 130), (130, 0)] {
        let asked = Asked {
            width: 3,
            step: 3,
            room,
            places,
        };
        each_call(&mut t, run, asked);
    }
    t
}
