// Runs the functions of `exports`, and `calls::run`, as a program that links them does: the number of codewords of n cells for n = 0 to 13; the
// windows of a run of 14 cells, and loads, refused and done; for each file of data/ the room, the answers where a byte of it is missing and where none is, and
// the text; and an input longer than is read. The expected text is not the engine's own: scripts/reference reckons the texts and, with --windows
// and --load, the windows and the loads; what lent lists hold besides is what request (a) of document 02 says, the run's levels and what stood there; K(n) is the number of
// ways to choose coordinates 1 to n - 1, coordinate i from 0 to i, such that the sum of i times coordinate i is divisible by 2n - 1, counted one
// residue at a time.
#![tactic(auto)]

ghost use Rattle.std.specs.Prelude.{◌≡◌, ◌≤◌, length};
ghost use Rattle.runs.specs.Text.{room};

use std::fmt::Display;
use std::fs::File;
use std::io;
use std::rt::Files;

fn main(rt: HostRuntime) -> io::Result<()> {
    words(&rt)?;
    windows(&rt)?;
    loads(&rt)?;
    for path in ["refusals", "left", "empty", "cut"] {
        show(&rt, path)?;
    }
    rt.println("long")?;
    let input = long_input();
    let mut text = text_buffer();
    tell_end(&rt, &input, &mut text)
}

// K(n) for n = 0 to 13: 0 where n is no size.
fn words(rt: &impl Print) -> io::Result<()> {
    for n in 0..14 {
        println!(rt; "words {}", exports::rm_words(n))?;
    }
    Ok(())
}

// Two windows of 12 cells along 14 that are 7 cells apart; the second closes the ring. First with one place for their numbers, then with three.
fn windows(rt: &impl Print) -> io::Result<()> {
    let levels: [u16; 14] = [5, 1, 1, 9, 0, 3, 5, 0, 2, 2, 4, 9, 1, 0];
    let mut numbers: [u32; 3] = [7; 3];
    let mut scratch: [u16; 16] = [6; 16];
    for places in [1, 3] {
        tell_windows(rt, &levels, &mut numbers, places, &mut scratch)?;
    }
    Ok(())
}

// The answer where so many places are lent for the numbers, and both lists as they are then.
fn tell_windows(
    rt: &impl Print,
    levels: &[u16],
    numbers: &mut [u32],
    places: usize,
    scratch: &mut [u16],
) -> io::Result<()>
    requires { places ≤ length numbers.old }
{
    let answer = exports::rm_windows(levels, 12, 7, &mut numbers[..places], scratch);
    println!(rt; "rm_windows {answer}")?;
    list(rt, "number", numbers)?;
    list(rt, "scratch", scratch)
}

// A size and a seed that are none, a seed that is none, a list without a place, and six symbols of 12 cells from seed 1.
fn loads(rt: &impl Print) -> io::Result<()> {
    let mut list: [u32; 6] = [7; 6];
    tell_load(rt, 13, 0, &mut list)?;
    tell_load(rt, 12, 0, &mut list)?;
    tell_load(rt, 12, 9, &mut list[..0])?;
    tell_load(rt, 12, 1, &mut list)
}

// The answer, the last state and the list.
fn tell_load(rt: &impl Print, n: usize, seed: u32, symbols: &mut [u32]) -> io::Result<()> {
    let mut last: u32 = 7;
    let answer = exports::rm_load(n, seed, symbols, &mut last);
    println!(rt; "rm_load {answer}")?;
    println!(rt; "state {last}")?;
    list(rt, "number", symbols)
}

// Each number of a list, after its name.
fn list<T: Display>(rt: &impl Print, name: &str, numbers: &[T]) -> io::Result<()> {
    for n in numbers {
        println!(rt; "{name} {n}")?;
    }
    Ok(())
}

// A file's room, answers and text.
fn show(rt: &(impl Files + Print), path: &str) -> io::Result<()> {
    rt.println(path)?;
    let mut file = File::open(rt, path)?;
    let mut input = file_buffer();
    let size = console::read_full(&mut file, &mut input);
    let mut text = text_buffer();
    tell(rt, &input[..size], &mut text)
}

fn tell(rt: &impl Print, input: &[u8], text: &mut [u8]) -> io::Result<()>
    requires { room 65536 ≤ length text.old }
{
    let room = exports::rm_room(input.len());
    println!(rt; "room {room}")?;
    let none = exports::rm_run(input, &mut text[..room - 1]);
    println!(rt; "rm_run without room {none}")?;
    println!(rt; "first byte {}", text[0])?;
    println!(rt; "calls::run {}", calls::run(input, text))?;
    let end = exports::rm_run(input, &mut text[..room]);
    println!(rt; "rm_run {end}")?;
    // tested, here and in `tell_end`: `rm_run` says it by an equation of lists alone
    rt.write_all(&text[..end])
}

// The room and the answer for an input that is longer than is read, and the last line of its text.
fn tell_end(rt: &impl Print, input: &[u8], text: &mut [u8]) -> io::Result<()> {
    println!(rt; "room {}", exports::rm_room(input.len()))?;
    let end = exports::rm_run(input, text);
    println!(rt; "rm_run {end}")?;
    if 6 <= end && end <= text.len() {
        rt.write_all(&text[end - 6..end])?;
    }
    Ok(())
}

// One record more than is read, of zeros.
fn long_input() -> [u8; 65544]
    ensures { 65544 ≡ length result }
{
    [0; 65544]
}

// Room for as much of a file as is read.
fn file_buffer() -> [u8; 65536]
    ensures { 65536 ≡ length result }
{
    [0; 65536]
}

// Room for the longest text.
fn text_buffer() -> [u8; 1048640]
    ensures { 1048640 ≡ length result }
{
    [0; 1048640]
}
