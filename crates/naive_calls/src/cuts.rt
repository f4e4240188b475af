// A group that is taken over, and a push program that is cut (document 02, requests (e) and (h)).
use crate::machine::check;
use crate::rows::padded;
use crate::tallies::with_rises;
use group::Group;
use naive::levels::index;
use naive::numbers::put;
use order::Refusal;
use push_up::Push;

// What a cut leaves: the levels and the used pulses there, and the pulses up to it.
#[derive(Clone, Copy, PartialEq, Eq)]
pub struct Cut {
    pub levels: [u16; 12],
    pub used: [u32; 12],
    pub pulses: u32,
}

// The record that the lists make is taken over where it is a group, and each list has as many values as it has cells. The levels and caps are checked on
// cells that have taken no pulses.
pub fn take_over(
    n: usize,
    levels: &[u16],
    caps: &[u16],
    used: &[u32],
    endurance: u32,
) -> Result<Group, Refusal> {
    let unused = Group {
        n,
        levels: padded(levels),
        caps: padded(caps),
        used: [0; 12],
        endurance: 1,
        written: true,
    };
    let measured = check(unused);
    if measured == Err(Refusal::Size) {
        return Err(Refusal::Size);
    }
    if measured.is_err() || levels.len() != n || caps.len() != n {
        return Err(Refusal::Measurement);
    }
    let g = Group {
        used: padded(used),
        endurance,
        ..unused
    };
    if check(g).is_err() || used.len() != n {
        return Err(Refusal::Endurance);
    }
    Ok(g)
}

// A program that is cut after so many complete pushes, with the cell of the next one at this level, from its start to its reach. A half push counts
// its rise so far. After the last push the next is that of no cell, which rises from 0 to 0. The used pulses are those from before with how much each cell
// has risen up to the cut, whichever pushes did it.
pub fn at_cut(
    old: [u16; 12],
    before: [u32; 12],
    pushes: [Push; 11],
    complete: usize,
    level: u16,
) -> Cut {
    let mut levels = old;
    let mut pulses: u32 = 0;
    for (k, push) in pushes.iter().enumerate().take(complete.saturating_add(1)) {
        let stands = if k < complete { push.reach } else { level };
        put(&mut levels, index(push.cell.0), stands);
        let rise = u32::from(stands).wrapping_sub(u32::from(push.start));
        pulses = pulses.wrapping_add(rise);
    }
    Cut {
        levels,
        used: with_rises(before, old, levels),
        pulses,
    }
}
