// The plain machine's write (document 01, "The plain machine"): minimal push-up to an order, with its push program. It takes any record and any order
// and answers them by one equation with a definition of `push_up`, which has its laws too.
#![tactic(auto)]

ghost use Rattle.std.specs.Prelude.{◌≡◌, true};
ghost use Rattle.order.specs.Order.{listed};
ghost use Rattle.group.specs.Record.{all_at_most};
ghost use Rattle.push_up.specs.WriteAnswer.{told_written, write_of};
ghost use Rattle.push_up.specs.PushUp.{singles};
ghost use Rattle.push_up.specs.Steps.{push_up_to};

use group::Group;
use order::{Checked, Order, Refusal};
use push_up::{PushUp, Written};

// Minimal push-up to an order.
#[tactic(auto, unfolding(order::specs::Refusals::number_of, order::specs::Refusals::answer, push_up::specs::WriteAnswer::write_of))]
pub fn write(g: Group, target: Order) -> Result<Written, Refusal>
    ensures { told_written g result ≡ write_of g target }
{
    group::check(g)?;
    let Some(target) = Checked::of(target, g.n) else {
        return Err(Refusal::NoOrder);
    };
    let p = raise_all(target, g.levels);
    let used = push_up::used_after(g, p.levels)?;
    Ok(push_up::programmed(g, p, used, true))
}

// The push-up of a whole order, from its lowest cell: each next cell up takes the larger of its level and the floor, and the floor goes to one
// more than that. The levels are a checked group's, here and in two functions of `sharing`: a type for them would be made by a second check, or of a copy.
fn raise_all(target: Checked, old: [u16; 12]) -> PushUp
    requires { all_at_most 4095 old ≡ true }
    ensures { result ≡ push_up_to 1 (singles (listed target.order)) old }
{
    let o = target.order;
    let mut levels = old;
    let mut floor: u16 = 0;
    let mut pulses: u32 = 0;
    let mut count: usize = 0;
    let mut pushes = push_up::zero_pushes();
    for i in (0..o.len).rev() {
        let cell = o.cells[i];
        let at = cell.number() - 1;
        let level = levels[at];
        if level < floor {
            // field by field: a push that is stored whole is copied with the byte between its fields
            pushes[count].cell.0 = cell.0;
            pushes[count].start = level;
            pushes[count].reach = floor;
            count += 1;
            levels[at] = floor;
            pulses += u32::from(floor - level);
            floor += 1;
        } else {
            floor = level + 1;
        }
    }
    PushUp {
        levels,
        floor,
        pulses,
        count,
        pushes,
    }
}
