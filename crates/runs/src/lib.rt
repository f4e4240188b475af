// A run of the program `rmcalls` (document 01, "Calls outside the list"): where it stands between two pieces of its input, which pieces it takes,
// and, as definitions, the text that it prints (specs/Text, specs/Pieces). Every public function takes any numbers. Proved besides: the printed
// example (proofs/Example), that a run in pieces prints the text of the whole (proofs/Pieces), and that the records from a group up to the next
// open are a list of calls of demand 3 (proofs/Course).
#![tactic(auto)]

ghost use Rattle.std.specs.Prelude.{◌≡◌, ◌&&◌, ◌%◌, min, eqb};
ghost use Rattle.runs.specs.Text.{room};
ghost use Rattle.runs.specs.Pieces.{beginning, takes};

use group::Group;

// The most bytes of an input that are read.
const MOST: usize = 65536;

// The most pulses that a record's answer can hold.
const MOST_PULSES: u64 = u32::MAX as u64;

// Where a run stands between two pieces of its input: the position of the last record answered, the group that it left, and the pulses of all.
#[derive(Clone, Copy, PartialEq, Eq)]
pub struct Progress {
    pub position: u32,
    pub group: Group,
    pub pulses: u64,
}

// Where the lines of a piece end, and where the run then stands. No option: that nothing is put for a piece that is not taken is one equation with what is put
// for others (`piece_of`).
#[derive(Clone, Copy, PartialEq, Eq)]
pub struct PieceAnswer {
    pub end: usize,
    pub progress: Progress,
}

// Where a run stands before its first record: the all-zero record is what that one is handed.
pub fn begin() -> Progress
    ensures { result ≡ beginning }
{
    Progress {
        position: 0,
        group: group::zero_group(),
        pulses: 0,
    }
}

// Whether a run takes a piece of a size that is not its last. Position and pulses by themselves, as in `takes`.
pub fn goes_on(position: u32, pulses: u64, size: usize, space: usize) -> bool
    ensures { result ≡ (eqb (size % 8) 0 && takes position pulses size space) }
{
    size % 8 == 0 && takes(position, pulses, size, space)
}

// Whether a run that stands at a position with so many pulses takes a piece of a size, and its text has room in so many bytes. Position and pulses by
// themselves: their definition and the clauses of `calls` have them so.
pub fn takes(position: u32, pulses: u64, size: usize, space: usize) -> bool
    ensures { result ≡ takes position pulses size space }
{
    size <= MOST
        && 8 * position as usize + size <= MOST
        && pulses <= MOST_PULSES * u64::from(position)
        && room_for(size) <= space
}

// The length that a buffer must have for the text of an input of a size, or of a piece of one.
pub fn room_for(size: usize) -> usize
    ensures { result ≡ room (min 65536 size) }
{
    16 * size_read(size) + 64
}

// How many of the bytes are read.
pub fn size_read(size: usize) -> usize
    ensures { result ≡ min 65536 size }
{
    MOST.min(size)
}
