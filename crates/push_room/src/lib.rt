// Writes into a lent list of pushes, but for the list (document 01, "Refusal table": 10; document 02, request (g)): what such a call answers is decided here by
// value, from the room of the list, that is, how many places it has; `push_list` puts the pushes there. Proved besides: with room enough the answer is that of
// the write by value (proofs/Roomy).
#![tactic(auto)]

ghost use Rattle.std.specs.Prelude.{◌≡◌, []};
ghost use Rattle.order.specs.Refusals.{outcome_number, number_of};
ghost use Rattle.push_up.specs.WriteAnswer.{told_written};
ghost use Rattle.push_room.specs.Room.{room_checks, write_into_of, write_shared_into_of};

use group::Group;
use order::{Order, Refusal};
use push_up::Written;
use sharing::Ranked;

// What a write into a list of so many places answers, with its pushes by value. 10 is checked before 4.
#[tactic(auto, unfolding(order::specs::Refusals::number_of, order::specs::Refusals::answer, push_up::specs::WriteAnswer::write_of, crate::specs::Room::write_into_of))]
pub fn write_with_room(g: Group, target: Order, room: usize) -> Result<Written, Refusal>
    ensures { told_written g result ≡ write_into_of g target room }
{
    check_room(g, room)?;
    writing::write(g, target)
}

// The same of a shared write. 10 is checked before 18. Two functions, since their contracts cite two definitions and each is two lines.
#[tactic(auto, unfolding(order::specs::Refusals::number_of, order::specs::Refusals::answer, sharing::specs::Shared::write_shared_of, crate::specs::Room::write_shared_into_of))]
pub fn write_shared_with_room(g: Group, target: Ranked, room: usize) -> Result<Written, Refusal>
    ensures { told_written g result ≡ write_shared_into_of g target room }
{
    check_room(g, room)?;
    sharing::write_shared(g, target)
}

// The checks of the record, and then 10: whether the list has room for as many pushes as a write may have.
#[tactic(auto, unfolding(order::specs::Refusals::number_of))]
fn check_room(g: Group, room: usize) -> Result<(), Refusal>
    ensures { outcome_number result ≡ number_of (room_checks g room []) }
{
    group::check(g)?;
    if room < g.n - 1 {
        return Err(Refusal::ListShort);
    }
    Ok(())
}
