// A group that is taken over from measured levels and caps (document 02, request (e)), and from the pulses that each cell has ever taken and the endurance
// (request (h)), as after a loss of supply in the middle of a push program.
// The call takes any lists and answers them by one equation with a definition of specs/. Proved besides: what it makes is a group, and any group
// can be taken over as it stands, but for the mark, which is set (proofs/Taken).
#![tactic(auto)]

ghost use Rattle.std.specs.Prelude.{◌≡◌};
ghost use Rattle.std.specs.List.{list_all};
ghost use Rattle.std.specs.Ordering.{partial_le};
ghost use Rattle.order.specs.Refusals.{told};
ghost use Rattle.group.specs.Record.{no_group};
ghost use Rattle.take_over.specs.TakeOver.{take_over_of};
ghost use Rattle.take_over.specs.Rows.{row_if_given};

use group::Group;
use order::{Refusal, Size};

// Not `group::MAX_LEVEL`: the edit `value_of_4096_taken` changes it here alone.
const MAX_LEVEL: u16 = 4095;

// A group of n cells with the levels and caps that were measured, the pulses that each cell has ever taken and the endurance. It counts as written. A cap may
// be below the level of its cell.
#[tactic(auto, unfolding(order::specs::Refusals::number_of, order::specs::Refusals::answer, crate::specs::TakeOver::take_over_of))]
pub fn take_over(
    n: usize,
    levels: &[u16],
    caps: &[u16],
    used: &[u32],
    endurance: u32,
) -> Result<Group, Refusal>
    ensures { told no_group result ≡ take_over_of n levels.now caps.now used.now endurance }
{
    let size = Size::new(n)?;
    let (Some(levels), Some(caps)) = (
        row_of(size, levels, MAX_LEVEL, 0),
        row_of(size, caps, MAX_LEVEL, 0),
    ) else {
        return Err(Refusal::Measurement);
    };
    let (true, Some(used)) = (
        group::is_endurance(endurance),
        row_of(size, used, endurance, 0),
    ) else {
        return Err(Refusal::Endurance);
    };
    Ok(Group {
        n,
        levels,
        caps,
        used,
        endurance,
        written: true,
    })
}

// The values with zeros after them, where there are as many as cells and none is above the most.
fn row_of<T: Copy + PartialOrd>(size: Size, values: &[T], most: T, zero: T) -> Option<[T; 12]>
    ensures { result ≡ row_if_given zero (λ x. partial_le T.partial_cmp x most) size.cells values.now }
{
    let n = size.cells;
    if values.len() != n || !all_within(values, most) {
        return None;
    }
    let mut places = [zero; 12];
    places[..n].copy_from_slice(values);
    Some(places)
}

// Whether no value is above the most.
fn all_within<T: Copy + PartialOrd>(values: &[T], most: T) -> bool
    ensures { result ≡ list_all (λ x. partial_le T.partial_cmp x most) values.now }
{
    values.iter().all(|value| *value <= most)
}
