// Groups taken over by the engine and by the second implementation, from lists of any length and with any values.
ghost use Rattle.std.specs.Prelude.{◌≤◌};

use comparing::sample;
use comparing::tally::Tally;

// Ten that a group has, and nine that none has. Cut to 8, 16 or 32 bits, three of the last four are a group's.
const SIZES: [usize; 19] = [
    0,
    1,
    2,
    3,
    4,
    5,
    6,
    7,
    8,
    9,
    10,
    11,
    12,
    13,
    14,
    259,
    65539,
    4294967299,
    18446744073709551615,
];

// The lowest and the highest value that is taken over, and the lowest and the highest that is not.
const EDGES: [u16; 4] = [0, 4095, 4096, 65535];

// The lowest and the highest endurance, and the two just outside.
const ENDURANCES: [u32; 4] = [0, 1, 1000000, 1000001];

// One comparison: a take-over.
fn taken(t: &mut Tally, n: usize, levels: &[u16], caps: &[u16], used: &[u32], endurance: u32) {
    t.compare(
        take_over::take_over(n, levels, caps, used, endurance),
        naive_calls::cuts::take_over(n, levels, caps, used, endurance),
    );
}

// Each size, and lists of 0 to 14 levels and of 0 to 14 caps, where each cell has taken all its pulses.
fn every_length(t: &mut Tally, levels: [u16; 14], caps: [u16; 14]) {
    let used = [700; 14];
    for k in 0..4275 {
        let n = SIZES[k / 225];
        let levels = &levels[..k / 15 % 15];
        taken(t, n, levels, &caps[..k % 15], &used[..n % 15], 700);
    }
}

// At each of twelve places each edge in the levels, and each in the caps. The other caps are above the other levels or below them.
pub fn every_edge() -> Tally {
    let mut t = Tally::default();
    for k in 0..192 {
        let mut levels = [2000u16; 14];
        let mut caps = [sample::narrow(21 * k); 14];
        levels[k / 16] = EDGES[k / 4 % 4];
        caps[k / 16] = EDGES[k % 4];
        every_length(&mut t, levels, caps);
    }
    t
}

// How long a list is that is right, or has a value too many.
fn length(n: usize, right: bool) -> usize
    ensures { result ≤ 14 }
{
    if right {
        n % 15
    } else {
        n.wrapping_add(1) % 15
    }
}

// Each size, and lists of 0 to 14 used pulses: where each cell has a level and a cap, where there is a level too many, and where there is a cap too many.
fn every_tally_length(t: &mut Tally, used: [u32; 14], endurance: u32) {
    let levels = [4095; 14];
    let caps = [0; 14];
    for k in 0..855 {
        let n = SIZES[k / 45];
        let way = k / 15 % 3;
        let levels = &levels[..length(n, way != 1)];
        let caps = &caps[..length(n, way != 2)];
        taken(t, n, levels, caps, &used[..k % 15], endurance);
    }
}

// None, as many as the endurance, one more, or the highest number.
fn used_edge(endurance: u32, way: usize) -> u32 {
    match way {
        0 => 0,
        1 => endurance,
        2 => endurance.wrapping_add(1),
        _ => u32::MAX,
    }
}

// Each endurance, and at each of twelve places each edge in the used pulses, which elsewhere are 0.
pub fn every_tally() -> Tally {
    let mut t = Tally::default();
    for k in 0..192 {
        let endurance = ENDURANCES[k % 4];
        let mut used = [0u32; 14];
        used[k / 16] = used_edge(endurance, k / 4 % 4);
        every_tally_length(&mut t, used, endurance);
    }
    t
}
