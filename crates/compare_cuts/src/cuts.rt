// Calls that raise cells, cut in the middle of their push programs, and made again on the group that is taken over there.
use comparing::sample;
use comparing::tally::Tally;
use engine::Applied;
use group::{Group, zero_group};
use naive_calls::cuts::Cut;
use order::{Cell, Refusal};
use plain_machine::Call;
use push_up::Push;

// A call that is cut: what is called after a cut, the group and the pulses of the second implementation's answer to the uncut call, and the engine's
// push program under way, with the levels and used pulses that it began from and the pulses before it.
#[derive(Clone, Copy)]
struct Cutting {
    again: Call,
    end: Group,
    pulses: u32,
    levels: [u16; 12],
    used: [u32; 12],
    before: u32,
    count: usize,
    pushes: [Push; 11],
}

// The push of no cell, which rises from 0 to 0: the one after the last.
const NO_PUSH: Push = Push {
    cell: Cell(0),
    start: 0,
    reach: 0,
};

// A push of the program under way.
fn push_at(c: Cutting, k: usize) -> Push {
    c.pushes.get(k).copied().unwrap_or(NO_PUSH)
}

// One of forty levels of a push: of a rise below 40 all, and then levels past its reach; of a greater one the start, one more, the middle, one less than
// the reach, the reach, and then levels past it. No cell of a group with levels below 24 rises by so much.
fn level_at(push: Push, j: u16) -> u16 {
    let rise = push.reach.wrapping_sub(push.start);
    if rise < 40 || j < 2 {
        return push.start.wrapping_add(j);
    }
    if j == 2 {
        return push.start.wrapping_add(rise / 2);
    }
    push.reach.wrapping_add(j).wrapping_sub(4)
}

// The group taken over at a cut by the engine and by the second implementation, with the endurance that it had: one comparison. All zeros where that is
// refused.
fn taken_over(t: &mut Tally, end: Group, levels: [u16; 12], used: [u32; 12]) -> (Group, Group) {
    // n itself, as a group has at most 12 cells
    let many = end.n % 13;
    let (levels, caps, used) = (&levels[..many], &end.caps[..many], &used[..many]);
    let a = take_over::take_over(end.n, levels, caps, used, end.endurance);
    let b = naive_calls::cuts::take_over(end.n, levels, caps, used, end.endurance);
    t.compare(a, b);
    (a.unwrap_or(zero_group()), b.unwrap_or(zero_group()))
}

// Four comparisons at a cut of the program under way: the group taken over there, the call made again on it, that this ends with the group of the uncut
// call, its used pulses too, and that the pulses of all pieces add up to those of the uncut call. The program of the call made again is then under way.
fn cut_at(t: &mut Tally, c: Cutting, k: usize, level: u16) -> Result<Cutting, Refusal> {
    let there = naive_calls::cuts::at_cut(c.levels, c.used, c.pushes, k, level);
    let Cut {
        levels,
        used,
        pulses,
    } = there;
    let (g, h) = taken_over(t, c.end, levels, used);
    let a = plain_machine::apply(g, c.again);
    let b = naive_calls::machine::apply(h, c.again);
    let before = c.before.wrapping_add(pulses);
    let all = before.wrapping_add(a.map_or(0, |done| done.pulses));
    t.compare(a, b);
    t.compare_and(a, b, a.map(|done| done.group) == Ok(c.end));
    t.compare_and(a, b, all == c.pulses);
    let done = a?;
    let Applied { count, pushes, .. } = done;
    Ok(Cutting {
        levels,
        used,
        before,
        count,
        pushes,
        ..c
    })
}

// The program under way is cut at a place that is sampled.
fn cut_again(t: &mut Tally, c: Cutting, s: usize) -> Result<Cutting, Refusal> {
    let k = sample::below(c.count.wrapping_add(1), s, 0);
    let push = push_at(c, k);
    let rise = push.reach.wrapping_sub(push.start);
    let more = sample::below(usize::from(rise) + 1, s, 1);
    cut_at(t, c, k, push.start.wrapping_add(sample::narrow(more)))
}

// Eight comparisons at each cut that is tried in push k of a program (`level_at`): there, and where the call made again is cut in its turn.
fn every_level(t: &mut Tally, c: Cutting, k: usize, s: usize) {
    let push = push_at(c, k);
    for j in 0..40 {
        let level = level_at(push, j);
        if level <= push.reach {
            let again = s.wrapping_add(usize::from(j));
            let _ = cut_at(t, c, k, level).and_then(|cut| cut_again(t, cut, again));
        }
    }
}

// One comparison of a call, and where it is accepted those of its cuts, the one after its last push too, after which the other call is made.
pub fn compared(t: &mut Tally, g: Group, call: Call, again: Call, s: usize) {
    let a = plain_machine::apply(g, call);
    let whole = naive_calls::machine::apply(g, call);
    t.compare(a, whole);
    let (Ok(a), Ok(whole)) = (a, whole) else {
        return;
    };
    let Group { levels, used, .. } = g;
    let Applied { count, pushes, .. } = a;
    let c = Cutting {
        again,
        end: whole.group,
        pulses: whole.pulses,
        levels,
        used,
        before: 0,
        count,
        pushes,
    };
    for k in 0..=count.min(11) {
        every_level(t, c, k, s.wrapping_add(40 * k));
    }
}
