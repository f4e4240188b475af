// The calls that make a group, or change one without raising a cell: open, leak, wear, erase (document 01, "The plain machine"; document 02, request (h), for the
// endurance). A group goes in by value and comes back by value. Every public function takes any record and answers it by one equation with a definition of
// specs/. Proved besides: what an open makes is a group, and a group stays a group (proofs/Groups).
#![tactic(auto)]

ghost use Rattle.std.specs.Prelude.{◌≡◌, ◌++◌, ◌-◌, ◌<◌, replicate, IfOk};
ghost use Rattle.order.specs.Refusals.{outcome_number, number_of, told};
ghost use Rattle.group.specs.Record.{no_group};
ghost use Rattle.changes.specs.Changes.{open_of, cell_checks, leak_of, wear_of, erase_of};

use group::Group;
use order::{Cell, Refusal, Size};

// A group of n cells with this endurance, all at 0 with full caps, that have taken no pulses.
#[tactic(auto, unfolding(order::specs::Refusals::number_of, order::specs::Refusals::answer, crate::specs::Changes::open_of))]
pub fn open(n: usize, endurance: u32) -> Result<Group, Refusal>
    ensures { told no_group result ≡ open_of n endurance }
{
    let size = Size::new(n)?;
    if !group::is_endurance(endurance) {
        return Err(Refusal::Endurance);
    }
    Ok(group::fresh(n, full_caps(size), endurance))
}

// The caps of a new group: 4,095 for each of its cells.
fn full_caps(size: Size) -> [u16; 12]
    ensures { result ≡ replicate size.cells 4095 ++ replicate (12 - size.cells) 0 }
{
    let n = size.cells;
    let mut caps = [0; 12];
    // no `fill`: with it an open takes five times as long
    for i in 0..n {
        caps[i] = group::MAX_LEVEL;
    }
    caps
}

// A cell loses d of its level, but does not fall below 0.
#[tactic(auto, unfolding(order::specs::Refusals::number_of, order::specs::Refusals::answer, crate::specs::Changes::leak_of, group::specs::Levels::leaked, group::specs::Levels::level, group::specs::Levels::put))]
pub fn leak(mut g: Group, cell: Cell, d: u32) -> Result<Group, Refusal>
    ensures { told g result ≡ leak_of g cell d }
{
    let at = place_of(g, cell)?;
    g.levels[at] = fallen(g.levels[at], d);
    Ok(g)
}

// The checks of a call on one cell, and the cell's place in a row. This and `cell_run::place_of` are twins but for the record: their contracts cite two
// lists of checks.
#[tactic(auto, unfolding(order::specs::Refusals::number_of))]
fn place_of(g: Group, cell: Cell) -> Result<usize, Refusal>
    ensures outcome { outcome_number result ≡ number_of (cell_checks g cell) }
    ensures place { IfOk result (λ at. at ≡ cell.0 - 1) }
    ensures inside { IfOk result (λ at. at < 12) }
{
    group::check(g)?;
    if !group::is_cell(g.n, cell) {
        return Err(Refusal::NoCell);
    }
    Ok(cell.number() - 1)
}

// A level that falls by d, but not below 0.
fn fallen(level: u16, d: u32) -> u16
    ensures { result ≡ level - d }
{
    u32::from(level).saturating_sub(d) as u16
}

// A cell's cap comes down, or stays.
#[tactic(auto, unfolding(order::specs::Refusals::number_of, order::specs::Refusals::answer, crate::specs::Changes::wear_of, group::specs::Levels::level, group::specs::Levels::put))]
pub fn wear(mut g: Group, cell: Cell, cap: u32) -> Result<Group, Refusal>
    ensures { told g result ≡ wear_of g cell cap }
{
    let at = place_of(g, cell)?;
    if u32::from(g.caps[at]) < cap {
        return Err(Refusal::CapUp);
    }
    g.caps[at] = cap as u16;
    Ok(g)
}

// All levels go to 0 and the mark is cleared. The caps, the used pulses and the endurance stay.
#[tactic(auto, unfolding(order::specs::Refusals::number_of, order::specs::Refusals::answer, crate::specs::Changes::erase_of))]
pub fn erase(mut g: Group) -> Result<Group, Refusal>
    ensures { told g result ≡ erase_of g }
{
    group::check(g)?;
    g.levels = [0; 12];
    g.written = false;
    Ok(g)
}
