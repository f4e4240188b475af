// The calls that join the one-error code and the group (document 01, "The plain machine", "Calls outside the list"): read, store, scrub and
// alike. Every public function takes any record and answers it by one equation with a definition of specs/. Proved besides: what is stored is
// read (proofs/Holds), what is scrubbed is read (proofs/Scrubs).
#![tactic(auto)]

ghost use Rattle.std.specs.Prelude.{◌≡◌};
ghost use Rattle.order.specs.Order.{told_order};
ghost use Rattle.push_up.specs.WriteAnswer.{told_written};
ghost use Rattle.engine.specs.ReadStore.{marked_order, told_read, read_of, store_of, told_alike, alike_of};
ghost use Rattle.engine.specs.Scrub.{applied_step, told_applied, quiet, scrub_of};

use code::{Decoded, Verdict};
use group::Group;
use order::{Order, Refusal};
use push_up::{Push, Written};

// What an accepted scrub or call of `apply` tells: the verdict of the reading stands inside it, where there was one. Pulses, count and pushes as in
// `push_up::Written`: one copy less than with it inside.
#[derive(Clone, Copy, PartialEq, Eq)]
pub struct Applied {
    pub group: Group,
    pub symbol: u32,
    pub verdict: Option<Verdict>,
    pub pulses: u32,
    pub count: usize,
    pub pushes: [Push; 11],
}

// The symbol that a group holds, and whether its order was put right.
#[tactic(auto, using(crate::proofs::Answers::read_by_mark, crate::proofs::Answers::read_by_order))]
pub fn read(g: Group) -> Result<Decoded, Refusal>
    ensures { told_read result ≡ read_of g }
{
    code::decode(written_order(g)?)
}

// The order sensed of a group that is written.
#[tactic(auto, unfolding(order::specs::Refusals::number_of, order::specs::Refusals::answer, sensing::specs::Sense::sense_of, crate::specs::ReadStore::marked_order))]
fn written_order(g: Group) -> Result<Order, Refusal>
    ensures { told_order result ≡ marked_order g }
{
    let order = sensing::sense(g)?;
    if !g.written {
        return Err(Refusal::Blank);
    }
    Ok(order)
}

// A group with a symbol stored in it: the codeword of that number is written. The write checks the record; where there is no codeword to write,
// the record is checked here, since its refusals come first.
#[tactic(auto, using(crate::proofs::Answers::store_refused_lem, crate::proofs::Answers::store_no_symbol, crate::proofs::Answers::store_by_word))]
pub fn store(g: Group, symbol: u32) -> Result<Written, Refusal>
    ensures { told_written g result ≡ store_of g symbol }
{
    match code::codeword(g.n, symbol) {
        Ok(word) => writing::write(g, word),
        Err(refusal) => {
            group::check(g)?;
            Err(refusal)
        }
    }
}

// Whether two groups hold the same symbol in the same number of cells. The first group's refusals come before the second's.
#[tactic(auto, using(crate::proofs::Answers::first_refused))]
pub fn alike(g: Group, h: Group) -> Result<bool, Refusal>
    ensures { told_alike result ≡ alike_of g h }
{
    let first = read(g)?;
    let second = read(h)?;
    Ok(g.n == h.n && first.symbol == second.symbol)
}

// A group read, and the codeword found written again. The answer carries the verdict of the reading, with the symbol and the pulses.
#[tactic(auto, using(crate::proofs::Scrubs::scrub_by_mark, crate::proofs::Scrubs::scrub_lost))]
pub fn scrub(g: Group) -> Result<Applied, Refusal>
    ensures { told_applied g result ≡ scrub_of g }
{
    let order = written_order(g)?;
    let found = code::corrected(order)?;
    let Written {
        group,
        pulses,
        count,
        pushes,
    } = writing::write(g, found.word)?;
    Ok(Applied {
        group,
        symbol: found.decoded.symbol,
        verdict: Some(found.decoded.verdict),
        pulses,
        count,
        pushes,
    })
}

// What an answer tells that has the group and nothing else.
pub fn alone(g: Group) -> Applied
    ensures { applied_step result ≡ quiet g }
{
    Applied {
        group: g,
        symbol: 0,
        verdict: None,
        pulses: 0,
        count: 0,
        pushes: push_up::zero_pushes(),
    }
}
