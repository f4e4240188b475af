// The text that the program `rmcalls` prints, put into a lent buffer (document 01, "Calls outside the list"): `run`, for a whole input; `go_on` and
// `finish`, for the pieces of one. Each has an equation for its answer and one for the buffer. Records are answered by `records::step`, and their
// lines put by crate `lines`; where a run stands, and the text, are defined in crate `runs`.
#![tactic(auto)]

ghost use Rattle.std.specs.Prelude.{◌≡◌, true, ◌++◌, ◌+◌, ◌*◌, ◌/◌, ◌%◌, ◌≤◌, length, drop};
ghost use Rattle.records.specs.Records.{record_at, records};
ghost use Rattle.lines.specs.Puts.{Puts};
ghost use Rattle.runs.specs.Text.{printed};
ghost use Rattle.runs.specs.Pieces.{progress_after, lines_from, takes, piece_of, lines_printed, end_printed};

use order::Cell;
use records::{Answered, CallRecord};
use runs::{PieceAnswer, Progress};

// Puts what `rmcalls` prints for an input at the start of out, and answers how many bytes that is. Where out is shorter than
// 16 bytes for each byte that is read, and 64, it stays as it was, and the answer is 0: a text is never empty. 0 here and below, and no option: `printed`,
// `piece_of` and the C interface tell how many bytes stand there.
pub fn run(input: &[u8], out: &mut [u8]) -> usize
    ensures value { result ≡ length (printed input.now out.old) }
    ensures out_after { out.new ≡ printed input.now out.old ++ drop result out.old }
{
    finish(runs::begin(), &input[..runs::size_read(input.len())], out)
}

// Puts the lines of a piece at the start of out, and answers where they end and where the run then stands. A piece that is not of whole records
// or would take the run past 65,536 bytes is not taken, nor is any where out is shorter than 16 bytes for each of its bytes, and 64, or where the
// run has more pulses than so many records can have: out stays as it was, the run where it was, and the end is 0, which no piece with a record has.
pub fn go_on(p: Progress, input: &[u8], out: &mut [u8]) -> PieceAnswer
    ensures value { result ≡ piece_of p input.now out.old }
    ensures out_after { out.new ≡ lines_printed p input.now out.old ++ drop result.end out.old }
{
    if !runs::goes_on(p.position, p.pulses, input.len(), out.len()) {
        return PieceAnswer {
            end: 0,
            progress: p,
        };
    }
    put_lines(p, input, out)
}

// Puts the lines of the last piece, the line of its leftover bytes and that of all pulses at the start of out, and answers how many bytes
// that is. What `go_on` does not take is not taken here either, but for leftover bytes: out stays as it was, and the answer is 0.
pub fn finish(p: Progress, input: &[u8], out: &mut [u8]) -> usize
    ensures value { result ≡ length (end_printed p input.now out.old) }
    ensures out_after { out.new ≡ end_printed p input.now out.old ++ drop result out.old }
{
    let size = input.len();
    if !runs::takes(p.position, p.pulses, size, out.len()) {
        return 0;
    }
    let answered = put_lines(p, input, out);
    let left = lines::put_left(out, answered.end as u32, size % 8);
    lines::put_sum(out, left as u32, answered.progress.pulses)
}

// Record i of the input, from 0.
#[tactic(auto, unfolding(records::specs::Records::record_at))]
fn record_at(input: &[u8], i: usize) -> CallRecord
    requires { 8 * i + 8 ≤ length input.now }
    ensures { result ≡ record_at input.now i }
{
    let at = 8 * i;
    CallRecord {
        kind: input[at],
        cell: Cell(input[at + 1]),
        reserved: u16::from_le_bytes([input[at + 2], input[at + 3]]),
        value: u32::from_le_bytes([input[at + 4], input[at + 5], input[at + 6], input[at + 7]]),
    }
}

// The lines of the whole records of a piece, at the start of out. A refused record leaves the group, and has no pulses.
fn put_lines(p: Progress, input: &[u8], out: &mut [u8]) -> PieceAnswer
    requires { takes p.position p.pulses (length input.now) (length out.old) ≡ true }
    ensures puts { Puts out.old out.new 0 result.end (lines_from p (records input.now)) }
    ensures end_bound { result.end ≤ 16 * length input.now }
    ensures progress_value { result.progress ≡ progress_after p (records input.now) }
{
    let mut g = group::by_fields(p.group);
    let mut pulses = p.pulses;
    let mut position = p.position;
    let mut end = 0;
    for i in 0..input.len() / 8 {
        let r = record_at(input, i);
        let (outcome, kept) = match records::step(g, r) {
            Ok(kept) => (Ok(()), kept),
            Err(refusal) => (Err(refusal), Answered::alone(g)),
        };
        position += 1;
        pulses += u64::from(kept.pulses);
        g = group::by_fields(kept.group);
        end = lines::put_line(out, end as u32, position, r.kind, outcome, kept);
    }
    PieceAnswer {
        end,
        progress: Progress {
            position,
            group: g,
            pulses,
        },
    }
}
