// Runs of 3 to 128 cells (document 02, request (a)): the record, the limits of a run and of its windows, and the calls that open a run and raise
// its cells. A run goes in by value and comes back by value. Every public function takes any value, and one equation with a definition of specs/
// fixes its answer. Proved besides: a run stays a run (proofs/Runs).
#![tactic(auto)]

ghost use Rattle.std.specs.Prelude.{◌≡◌, ◌-◌, ◌<◌, true, IfOk};
ghost use Rattle.order.specs.Refusals.{outcome_number, number_of, told};
ghost use Rattle.group.specs.Record.{all_at_most, is_row};
ghost use Rattle.cell_run.specs.Run.{is_length, run_checks, level_checks, is_width, is_step, limit_checks, told_run, open_run_of, cell_checks, is_raise, raise_cell_of};

use order::{Cell, Refusal};

// The levels of cells 1 to len, each from 0 to 4,095; the places past len are 0. Fixed places with a count: see `order::Order`.
#[derive(Clone, Copy, PartialEq, Eq)]
pub struct Run {
    pub len: usize,
    pub levels: [u16; 128],
}

// The check of a record: whether it is a run, and if not, why.
#[tactic(auto, unfolding(order::specs::Refusals::number_of))]
pub fn check(run: Run) -> Result<(), Refusal>
    ensures { outcome_number result ≡ number_of (run_checks run) }
{
    if !is_length(run.len) || !has_row(run) {
        return Err(Refusal::RunLimit);
    }
    Ok(())
}

// The same of a run that is handed in as the list of its levels.
#[tactic(auto, unfolding(order::specs::Refusals::number_of))]
pub fn check_levels(levels: &[u16]) -> Result<(), Refusal>
    ensures { outcome_number result ≡ number_of (level_checks levels.now) }
{
    if !is_length(levels.len()) || !all_at_most(levels, group::MAX_LEVEL) {
        return Err(Refusal::RunLimit);
    }
    Ok(())
}

// The check of a width and a step of windows along a run of n cells.
#[tactic(auto, unfolding(order::specs::Refusals::number_of))]
pub fn check_windows(n: usize, width: usize, step: usize) -> Result<(), Refusal>
    ensures { outcome_number result ≡ number_of (limit_checks n width step) }
{
    if !is_width(n, width) || !is_step(n, width, step) {
        return Err(Refusal::RunLimit);
    }
    Ok(())
}

// Whether a run can have n cells.
fn is_length(n: usize) -> bool
    ensures { result ≡ is_length n }
{
    (3..=128).contains(&n)
}

// Whether a window of a run of n cells can be so wide.
fn is_width(n: usize, width: usize) -> bool
    ensures { result ≡ is_width n width }
{
    order::is_size(width) && width <= n
}

// Whether the windows of a run of n cells can be a step apart.
fn is_step(n: usize, width: usize, step: usize) -> bool
    ensures { result ≡ is_step n width step }
{
    (1..=width).contains(&step) && n % step == 0
}

// Whether the levels of the run's cells are at most 4,095, and the places past them 0.
fn has_row(run: Run) -> bool
    requires { is_length run.len ≡ true }
    ensures { result ≡ is_row 4095 run.len run.levels }
{
    let (cells, past) = run.levels.split_at(run.len);
    all_at_most(cells, group::MAX_LEVEL) && all_at_most(past, 0)
}

// Whether no level is above the highest that is allowed: by how much levels are too high is gathered in one number, which must stay 0, so that the
// compiler tests many levels at once.
fn all_at_most(levels: &[u16], highest: u16) -> bool
    ensures { result ≡ all_at_most highest levels.now }
{
    let mut over: u16 = 0;
    for level in levels {
        over |= group::excess(*level, highest);
    }
    over == 0
}

// A run of len cells, all at 0.
#[tactic(auto, unfolding(order::specs::Refusals::number_of, order::specs::Refusals::answer, crate::specs::Run::open_run_of))]
pub fn open_run(len: usize) -> Result<Run, Refusal>
    ensures { told_run result ≡ open_run_of len }
{
    if !is_length(len) {
        return Err(Refusal::RunLimit);
    }
    Ok(Run {
        len,
        levels: [0; 128],
    })
}

// A cell goes up to a level, or stays at it.
#[tactic(auto, unfolding(order::specs::Refusals::number_of, order::specs::Refusals::answer, crate::specs::Run::raise_cell_of, group::specs::Levels::level, group::specs::Levels::put))]
pub fn raise_cell(mut run: Run, cell: Cell, level: u32) -> Result<Run, Refusal>
    ensures { told run result ≡ raise_cell_of run cell level }
{
    let at = place_of(run, cell)?;
    if !is_raise(run.levels[at], level) {
        return Err(Refusal::NoRaise);
    }
    run.levels[at] = level as u16;
    Ok(run)
}

// The checks of a run and of one of its cells, and the cell's place among the levels. This and `changes::place_of` are twins but for the record: their
// contracts cite two lists of checks.
#[tactic(auto, unfolding(order::specs::Refusals::number_of))]
fn place_of(run: Run, cell: Cell) -> Result<usize, Refusal>
    ensures outcome { outcome_number result ≡ number_of (cell_checks run cell) }
    ensures place { IfOk result (λ at. at ≡ cell.0 - 1) }
    ensures inside { IfOk result (λ at. at < 128) }
{
    check(run)?;
    if !group::is_cell(run.len, cell) {
        return Err(Refusal::NoCell);
    }
    Ok(cell.number() - 1)
}

// Whether a cell at a level can be raised to another.
fn is_raise(from: u16, to: u32) -> bool
    ensures { result ≡ is_raise from to }
{
    (u32::from(from)..=u32::from(group::MAX_LEVEL)).contains(&to)
}
