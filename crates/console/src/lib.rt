// The program `rmcalls` between a reader and a writer: reads pieces, runs them, writes their text. No contract says what is read and written. Proved is
// that no piece is refused: a run takes each piece that is handed to it (`take_piece`, `take_last`), since it stands where the bytes of the pieces
// before leave it (proofs/Sent), and by `pieces_print` (runs, proofs/Pieces) such pieces print the text of the whole. Tested, not proved, is that
// the pieces read are those run, and that their text is what is written.
#![tactic(auto)]

ghost use Rattle.std.specs.Prelude.{◌≡◌, true, ◌++◌, ◌≤◌, length, drop};
ghost use Rattle.records.specs.Records.{records};
ghost use Rattle.runs.specs.Text.{room};
ghost use Rattle.runs.specs.Pieces.{progress_after, lines_from, text_from, goes_on, ends};

use runs::{PieceAnswer, Progress};
use std::fmt;
use std::io::{Read, Write};

// The most pieces that are read, of 4,096 bytes each: 65,536 bytes.
const PIECES: u32 = 16;

// What can go wrong with a run: some of its text could not be written; or it is the text of an input whose end could not be read.
#[derive(Clone, Copy, PartialEq, Eq)]
pub enum PourError {
    NotWritten,
    NotRead,
}

impl fmt::Display for PourError {
    fn fmt<W: fmt::Write>(&self, f: &mut fmt::Formatter<W>) -> fmt::Result {
        f.write_str(match self {
            PourError::NotWritten => "not all of the text could be written",
            PourError::NotRead => "the input could not be read to its end",
        })
    }
}

// Reads call records until 65,536 bytes, the end of the input or a read that fails, and writes their text, piece by piece, so that the two
// buffers take some 70 KB of stack.
pub fn pour<R: Read, W: Write>(from: &mut R, to: &mut W) -> Result<(), PourError> {
    let mut input = piece_buffer();
    let mut text = text_buffer();
    let mut p = runs::begin();
    let mut size = read_full(from, &mut input);
    for pieces in 1..PIECES {
        if size < 4096 {
            break;
        }
        let done = take_piece(p, &input[..size], &mut text);
        write_text(to, &text[..done.end])?;
        p = done.progress;
        size = read_full(from, &mut input);
    }
    let end = take_last(p, &input[..size], &mut text);
    write_text(to, &text[..end])?;
    if size == 4096 || ended(from) {
        Ok(())
    } else {
        Err(PourError::NotRead)
    }
}

fn write_text<W: Write>(to: &mut W, text: &[u8]) -> Result<(), PourError> {
    to.write_all(text).map_err(|_| PourError::NotWritten)
}

// The lines of a piece that the run takes.
fn take_piece(p: Progress, input: &[u8], text: &mut [u8]) -> PieceAnswer
    requires { goes_on p input.now text.old ≡ true }
    ensures end_value { result.end ≡ length (lines_from p (records input.now)) }
    ensures progress_value { result.progress ≡ progress_after p (records input.now) }
    ensures text_after { text.new ≡ lines_from p (records input.now) ++ drop result.end text.old }
    ensures end_in_bounds { result.end ≤ length text.new }
{
    calls::go_on(p, input, text)
}

// The text of a last piece that the run takes.
fn take_last(p: Progress, input: &[u8], text: &mut [u8]) -> usize
    requires { ends p input.now text.old ≡ true }
    ensures value { result ≡ length (text_from p input.now) }
    ensures text_after { text.new ≡ text_from p input.now ++ drop result text.old }
    ensures upper_bound { result ≤ length text.new }
{
    calls::finish(p, input, text)
}

// Whether an input from which fewer bytes came than were asked for is at its end: a read that failed fails again.
fn ended<R: Read>(from: &mut R) -> bool {
    let mut next = [0u8; 1];
    matches!(from.read(&mut next), Ok(0))
}

// Reads until buf is full, the input ends or a read fails, and answers how many bytes stand at the start of buf. No `read_exact`: of an input that
// ends early it does not say how many bytes came.
pub fn read_full<R: Read>(from: &mut R, buf: &mut [u8]) -> usize
    ensures { result ≤ length buf.new }
{
    let mut done = 0;
    while done < buf.len() {
        let size = read_some(from, &mut buf[done..]);
        if size == 0 {
            return done;
        }
        done += size;
    }
    done
}

// One read: 0 at the end of the input, and where it fails.
fn read_some<R: Read>(from: &mut R, buf: &mut [u8]) -> usize
    ensures { result ≤ length buf.new }
{
    from.read(buf).unwrap_or(0)
}

// Room for a piece.
fn piece_buffer() -> [u8; 4096]
    ensures { 4096 ≡ length result }
{
    [0; 4096]
}

// Room for what is printed for a piece.
fn text_buffer() -> [u8; 65600]
    ensures { room 4096 ≡ length result }
{
    [0; 65600]
}
