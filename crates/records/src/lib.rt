// Call records (document 01, "Calls outside the list"): `step`, the answer to one record, for any group and any record, by one equation with a
// definition of specs/. A record is 8 bytes of an input (specs/Records); which record stands where is cited by crate `calls`, which reads them.
#![tactic(auto)]

ghost use Rattle.std.specs.Prelude.{◌≡◌};
ghost use Rattle.sharing.specs.Shared.{plain_target};
ghost use Rattle.records.specs.Records.{uses_cell, uses_value, unused_zero, request_of, told_answered, call_of, step_of};

use group::Group;
use order::{Cell, Refusal};
use plain_machine::{Call, Kind};

// The endurance of every group that a record opens.
const ENDURANCE: u32 = 1000000;

// A call record: its two zero bytes are one field. The kind is the byte that document 01 gives it, since a record may have any byte there; `Request` names it.
#[derive(Clone, Copy, PartialEq, Eq)]
pub struct CallRecord {
    pub kind: u8,
    pub cell: Cell,
    pub reserved: u16,
    pub value: u32,
}

// What the program keeps of an accepted answer: the verdict and the pushes are in no line.
#[derive(Clone, Copy, PartialEq, Eq)]
pub struct Answered {
    pub group: Group,
    pub symbol: u32,
    pub pulses: u32,
}

impl Answered {
    // A group and nothing else: what an open keeps, and what a refused record leaves.
    pub fn alone(group: Group) -> Answered
        ensures { result ≡ record { group = group; symbol = 0; pulses = 0 } }
    {
        Answered {
            group,
            symbol: 0,
            pulses: 0,
        }
    }
}

// What a record asks for. No record asks for a write.
#[derive(Clone, Copy, PartialEq, Eq)]
pub enum Request {
    Open(u32),
    Apply(Kind),
}

// The answer to a record, for the group that the record before it left. A refused one, also a refused open, keeps that group. A call record names no endurance.
#[tactic(auto, unfolding(crate::specs::Records::step_of))]
pub fn step(g: Group, r: CallRecord) -> Result<Answered, Refusal>
    ensures { told_answered g result ≡ step_of g r }
{
    match Request::try_from(r)? {
        Request::Open(n) => {
            let group = changes::open(n as usize, ENDURANCE)?;
            Ok(Answered::alone(group))
        }
        Request::Apply(kind) => {
            let applied = plain_machine::apply(g, call_of(kind))?;
            Ok(Answered {
                group: applied.group,
                symbol: applied.symbol,
                pulses: applied.pulses,
            })
        }
    }
}

// What a record asks for; a bad one is refused.
impl TryFrom<CallRecord> for Request {
    type Error = Refusal;

    ghost try_from_gives = { λ r answer. answer ≡ request_of r };

    #[tactic(auto, unfolding(crate::specs::Records::request_of))]
    fn try_from(r: CallRecord) -> Result<Request, Refusal> {
        if !unused_zero(r) {
            return Err(Refusal::BadRecord);
        }
        match r.kind {
            0 => Ok(Request::Open(r.value)),
            1 => Ok(Request::Apply(Kind::Store(r.value))),
            2 => Ok(Request::Apply(Kind::Scrub)),
            3 => Ok(Request::Apply(Kind::Leak(r.cell, r.value))),
            4 => Ok(Request::Apply(Kind::Wear(r.cell, r.value))),
            5 => Ok(Request::Apply(Kind::Erase)),
            6 => Ok(Request::Apply(Kind::Read)),
            _ => Err(Refusal::BadRecord),
        }
    }
}

// Whether the fields that a kind does not use are 0.
#[tactic(auto, unfolding(crate::specs::Records::unused_zero))]
fn unused_zero(r: CallRecord) -> bool
    ensures { result ≡ unused_zero r }
{
    r.reserved == 0 && (uses_cell(r.kind) || r.cell.0 == 0) && (uses_value(r.kind) || r.value == 0)
}

fn uses_cell(kind: u8) -> bool
    ensures { result ≡ uses_cell kind }
{
    kind == 3 || kind == 4
}

fn uses_value(kind: u8) -> bool
    ensures { result ≡ uses_value kind }
{
    kind <= 1 || uses_cell(kind)
}

// The call of the machine: none is a write, so the order beside it is the all-zero one.
fn call_of(kind: Kind) -> Call
    ensures { result ≡ call_of kind }
{
    Call {
        kind,
        target: plain_machine::plain_target(order::zero_order()),
    }
}
