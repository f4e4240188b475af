// Minimal push-up (document 01, "The plain machine"; document 02, requests (b) and (h)): its definitions, the answer of a write with its push program, and their
// laws. Proved of the push-up, over any gap and any ranks that list no cell twice, each with a level: it lowers no cell, shows its target, and is at or
// below every set of levels that does both (proofs/Minimal); its program, applied push by push to the old levels, gives the new ones, each push starts
// from where its cell then stands, no cell is pushed twice, and the pulses are the sum of all rises (proofs/Programs); after a write a group is still a
// group (proofs/Writes). The functions here hold levels to caps and used pulses to the endurance, and make the answer of a call that has its push-up.
#![tactic(auto)]

ghost use Rattle.std.specs.Prelude.{◌≡◌, [], replicate};
ghost use Rattle.order.specs.Refusals.{told};
ghost use Rattle.group.specs.Levels.{at_most};
ghost use Rattle.push_up.specs.WriteAnswer.{push_array, tallies_of, used_after_of, programmed_of};

use group::Group;
use order::{Cell, Refusal};

// A cell that rises, the level that it starts from and the level that it reaches.
#[derive(Clone, Copy, PartialEq, Eq)]
pub struct Push {
    pub cell: Cell,
    pub start: u16,
    pub reach: u16,
}

// The answer of a call that writes a target: the pushes are the first count places, from low to high. Fixed places
// with a count: see `order::Order`. Pulses, count and pushes stand in each record that carries them: one copy less.
#[derive(Clone, Copy, PartialEq, Eq)]
pub struct Written {
    pub group: Group,
    pub pulses: u32,
    pub count: usize,
    pub pushes: [Push; 11],
}

// A minimal push-up, cell by cell from the lowest rank. A cell of the next rank would be raised to the floor, if it is below. Fixed
// places and pulses, count and pushes as in `Written`.
#[derive(Clone, Copy, PartialEq, Eq)]
pub struct PushUp {
    pub levels: [u16; 12],
    pub floor: u16,
    pub pulses: u32,
    pub count: usize,
    pub pushes: [Push; 11],
}

// No pushes: zeros in all places.
pub fn zero_pushes() -> [Push; 11]
    ensures { result ≡ push_array [] }
{
    [Push {
        cell: Cell(0),
        start: 0,
        reach: 0,
    }; 11]
}

// Whether no level is above its cap. The whole row is gathered, with no early leave: the compiler then tests many places at once.
pub fn is_within(levels: [u16; 12], caps: [u16; 12]) -> bool
    ensures { result ≡ at_most levels caps }
{
    let mut over: u16 = 0;
    for at in 0..12 {
        over |= group::excess(levels[at], caps[at]);
    }
    over == 0
}

// The used pulses with the rise of each cell added, if the endurance lasts for them. The top bit tells what is above it, as in `group::has_tallies`; used pulses
// without that bit leave room for any rise.
pub fn add_rises(
    used: [u32; 12],
    old: [u16; 12],
    new: [u16; 12],
    endurance: u32,
) -> Option<[u32; 12]>
    ensures { result ≡ tallies_of endurance used old new }
{
    let mut sums = used;
    let mut over: u32 = 0;
    for i in 0..12 {
        let rise = u32::from(group::excess(new[i], old[i]));
        let sum = used[i].wrapping_add(rise);
        over |= used[i] | sum | endurance.wrapping_sub(sum);
        sums[i] = sum;
    }
    if group::LOW_BITS < over || !group::is_endurance(endurance) {
        return None;
    }
    Some(sums)
}

// The used pulses of a group whose cells are raised to these levels, past 8 and 19.
#[inline(always)]
#[tactic(auto, unfolding(order::specs::Refusals::number_of, order::specs::Refusals::answer, crate::specs::WriteAnswer::used_after_of, crate::specs::WriteAnswer::tallies_of))]
pub fn used_after(g: Group, levels: [u16; 12]) -> Result<[u32; 12], Refusal>
    ensures { told (replicate 12 0) result ≡ used_after_of g levels }
{
    if !is_within(levels, g.caps) {
        return Err(Refusal::Worn);
    }
    add_rises(g.used, g.levels, levels, g.endurance).ok_or(Refusal::Spent)
}

// What a call carries whose push-up this is: the record with the new levels, these used pulses and the mark. Apart from `used_after`, since an answer that is
// passed on is copied.
#[inline(always)]
pub fn programmed(g: Group, p: PushUp, used: [u32; 12], mark: bool) -> Written
    ensures { result ≡ programmed_of mark g p used }
{
    let PushUp {
        levels,
        pulses,
        count,
        pushes,
        ..
    } = p;
    Written {
        group: Group {
            levels,
            used,
            written: mark,
            ..g
        },
        pulses,
        count,
        pushes,
    }
}
