// The lent list of pushes (document 01: "The call that fills a lent list of pushes writes the pushes first and leaves the later places
// untouched"; document 02, request (g): a shared write into such a list). What is written there is decided by value, in `push_room`. Each public
// function takes any record; equations fix its answer and its list.
// Proved besides: with room enough the answer is that of the write by value, and the list starts with its pushes, a push program from the old levels to the
// new ones (proofs/Written).
#![tactic(auto)]

ghost use Rattle.std.specs.Prelude.{◌≡◌, ◌≤◌, length, Ok};
ghost use Rattle.group.specs.declared.Group.{Group};
ghost use Rattle.push_up.specs.WriteAnswer.{told_written};
ghost use Rattle.push_room.specs.Room.{write_into_of, write_shared_into_of};
ghost use Rattle.push_list.specs.LentWrite.{carried_of, told_into, list_after};

use group::Group;
use order::{Order, Refusal};
use push_up::{Push, Written};
use sharing::Ranked;

// The answer of a write into a lent list: the pushes are the first count places of the list, from low to high.
#[derive(Clone, Copy, PartialEq, Eq)]
pub struct WrittenInto {
    pub group: Group,
    pub pulses: u32,
    pub count: usize,
}

// Minimal push-up to an order, with its pushes in a lent list. A refused write has none, and leaves the list as it was.
pub fn write_into(g: Group, target: Order, list: &mut [Push]) -> Result<WrittenInto, Refusal>
    ensures { (told_into g result ≡ carried_of (write_into_of g target (length list.old))) × (list.new ≡ list_after (write_into_of g target (length list.old)) list.old) }
{
    let answer = push_room::write_with_room(g, target, list.len());
    put_into(list, answer)
}

// The same of a target with several cells on one rank. Two functions, since their contracts cite two definitions.
pub fn write_shared_into(
    g: Group,
    target: Ranked,
    list: &mut [Push],
) -> Result<WrittenInto, Refusal>
    ensures { (told_into g result ≡ carried_of (write_shared_into_of g target (length list.old))) × (list.new ≡ list_after (write_shared_into_of g target (length list.old)) list.old) }
{
    let answer = push_room::write_shared_with_room(g, target, list.len());
    put_into(list, answer)
}

// The answer of a write, with its pushes at the front of the list.
fn put_into(list: &mut [Push], answer: Result<Written, Refusal>) -> Result<WrittenInto, Refusal>
    requires { (w : Written) → answer ≡ Ok w → (w.count ≤ 11) × (w.count ≤ length list.old) }
    ensures { (g : Group) → (told_into g result ≡ carried_of (told_written g answer)) × (list.new ≡ list_after (told_written g answer) list.old) }
{
    let Written {
        group,
        pulses,
        count,
        pushes,
    } = answer?;
    list[..count].copy_from_slice(&pushes[..count]);
    Ok(WrittenInto {
        group,
        pulses,
        count,
    })
}
