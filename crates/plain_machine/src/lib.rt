// The plain machine (document 01, "The plain machine"; document 02, request (g), for the shared write): `apply`, one of the eight calls of demand 3. It takes
// any record and any call and answers them by one equation with a definition of specs/. Proved besides: a group stays a group under every call, the pushes of
// a call that raises cells are a push program from the levels found to those left, the pulses of an answer are the rises of its levels (proofs/Machine), and
// after a shared write a group is blank (proofs/Blank).
#![tactic(auto)]

ghost use Rattle.std.specs.Prelude.{◌≡◌};
ghost use Rattle.std.proofs.Math.Option.{none};
ghost use Rattle.push_up.specs.WriteAnswer.{program_of};
ghost use Rattle.sharing.specs.Shared.{plain_target};
ghost use Rattle.engine.specs.ReadStore.{told_read};
ghost use Rattle.engine.specs.Scrub.{applied_step, told_applied, programmed_step, after_read};
ghost use Rattle.plain_machine.specs.Machine.{apply_of};

use code::Decoded;
use engine::Applied;
use group::Group;
use order::{Cell, Order, Refusal};
use push_up::Written;
use sharing::Ranked;

// One of the eight calls of demand 3, with its numbers. The target of a write stands beside it in the call; the rank sizes there are for a shared write
// alone. A write or a shared write into a lent list has the room of the list, that is, how many places it has; `push_list` puts the pushes there, and here
// they come by value too.
#[derive(Clone, Copy, PartialEq, Eq)]
pub enum Kind {
    Write,
    WriteInto(usize),
    WriteShared,
    WriteSharedInto(usize),
    Store(u32),
    Scrub,
    Leak(Cell, u32),
    Wear(Cell, u32),
    Erase,
    Read,
}

// The target stands beside the kind: demand 3's definitions speak of a call's target.
#[derive(Clone, Copy, PartialEq, Eq)]
pub struct Call {
    pub kind: Kind,
    pub target: Ranked,
}

// The target of a call that is no shared write: an order, without rank sizes. A shared write refuses it by 18.
pub fn plain_target(cells: Order) -> Ranked
    ensures { result ≡ plain_target cells }
{
    Ranked {
        count: 0,
        sizes: [0; 12],
        cells,
    }
}

// One call of the plain machine. A refused one leaves the group as it is. A match and no trait: the calls are data, of which demand 3's lists are made.
#[tactic(auto, unfolding(crate::specs::Machine::apply_of), using(crate::proofs::Answers::refused_program))]
pub fn apply(g: Group, call: Call) -> Result<Applied, Refusal>
    ensures { told_applied g result ≡ apply_of g call }
{
    let target = call.target;
    match call.kind {
        Kind::Write => Ok(from_written(writing::write(g, target.cells)?, 0)),
        Kind::WriteInto(room) => Ok(from_written(
            push_room::write_with_room(g, target.cells, room)?,
            0,
        )),
        Kind::WriteShared => Ok(from_written(sharing::write_shared(g, target)?, 0)),
        Kind::WriteSharedInto(room) => Ok(from_written(
            push_room::write_shared_with_room(g, target, room)?,
            0,
        )),
        Kind::Store(symbol) => Ok(from_written(engine::store(g, symbol)?, symbol)),
        Kind::Scrub => engine::scrub(g),
        Kind::Leak(cell, d) => Ok(engine::alone(changes::leak(g, cell, d)?)),
        Kind::Wear(cell, cap) => Ok(engine::alone(changes::wear(g, cell, cap)?)),
        Kind::Erase => Ok(engine::alone(changes::erase(g)?)),
        Kind::Read => Ok(from_read(g, engine::read(g)?)),
    }
}

// What an accepted write or shared write tells, or an accepted store of a symbol: field by field, as in `engine::scrub`, one copy of the pushes less.
fn from_written(written: Written, symbol: u32) -> Applied
    ensures { applied_step result ≡ programmed_step (program_of written) symbol none }
{
    let Written {
        group,
        pulses,
        count,
        pushes,
    } = written;
    Applied {
        group,
        symbol,
        verdict: None,
        pulses,
        count,
        pushes,
    }
}

// What an accepted read of a group tells.
fn from_read(g: Group, read: Decoded) -> Applied
    ensures { applied_step result ≡ (after_read g (told_read (Ok read))).value }
{
    Applied {
        symbol: read.symbol,
        verdict: Some(read.verdict),
        ..engine::alone(g)
    }
}
