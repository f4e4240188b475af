// The groups and the calls that are cut.
use crate::cuts::compared;
use comparing::sample;
use comparing::tally::Tally;
use group::Group;
use naive_calls::tallies::with_rises;
use order::zero_order;
use plain_machine::{Call, Kind, plain_target};

// The group with just the used pulses that the call, where it is accepted, brings to the endurance in every cell: at a cut, one pulse too many is then one
// too many for the call made again.
fn at_limit(g: Group, call: Call) -> Group {
    let end = naive_calls::machine::apply(g, call).map_or(g, |a| a.group);
    // the levels change places: each cell's rise is taken off
    let used = with_rises(sample::spent(g).used, end.levels, g.levels);
    Group { used, ..g }
}

// Every small group, and each of the six orders written to it in this way, in a shared write with ranks that end there (`sample::ranked`).
pub fn every_small(kind: Kind, ends: usize) -> Tally {
    let mut t = Tally::default();
    for k in 0..20736 {
        let call = Call {
            kind,
            target: sample::ranked(sample::order_at(3, k % 6), 3, ends),
        };
        let g = at_limit(sample::small(3, k / 6), call);
        compared(&mut t, g, call, call, k);
    }
    t
}

// After a cut the word that the scrub found is written: what is half written may read as another one.
fn scrubbed(t: &mut Tally, g: Group, s: usize) {
    let word = naive_calls::machine::reading(g).map_or(zero_order(), |c| c.word);
    let target = plain_target(word);
    let call = Call {
        kind: Kind::Scrub,
        target,
    };
    let again = Call {
        kind: Kind::Write,
        target,
    };
    compared(t, g, call, again, s);
}

// A store or a write to a sampled group of n cells.
fn changed(t: &mut Tally, n: usize, s: usize, kind: Kind) {
    let call = Call {
        kind,
        target: plain_target(sample::target(n, s)),
    };
    compared(t, sample::group(n, s), call, call, s);
}

// 320 sampled groups of each size: 80 are scrubbed, 20 stored to, and 220 written to.
pub fn sampled() -> Tally {
    let mut t = Tally::default();
    for k in 0..3200 {
        let s = 1000 * k;
        let n = 3 + k / 320;
        if k % 4 == 1 {
            scrubbed(&mut t, sample::group(n, s), s);
        } else if k % 16 == 0 {
            changed(&mut t, n, s, Kind::Store(sample::symbol(n, s)));
        } else {
            changed(&mut t, n, s, Kind::Write);
        }
    }
    t
}

// 100 sampled groups of each size, with a shared write to each.
pub fn shared() -> Tally {
    let mut t = Tally::default();
    for k in 0..1000 {
        let s = 1000 * k;
        let n = 3 + k / 100;
        let call = Call {
            kind: Kind::WriteShared,
            target: sample::shared(n, s),
        };
        compared(&mut t, sample::group(n, s), call, call, s);
    }
    t
}
