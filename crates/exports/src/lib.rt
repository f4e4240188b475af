// The engine for programs in C and Rust (`exports_c` exports these functions): the interpreter of call records, the room that its text needs, the number of
// codewords, the numbers of the windows along a run, and test loads. Each function takes anything, and equations with the definitions of `runs`,
// `code`, `window` and `load` determine what it answers and leaves. Proved besides: a buffer of the length that `rm_room` answers takes the whole text (runs, proofs/Room).
#![tactic(auto)]

ghost use Rattle.std.specs.Prelude.{◌≡◌, ◌++◌, min, length, drop};
ghost use Rattle.code.specs.Symbols.{words_of};
ghost use Rattle.runs.specs.Text.{room, printed};
ghost use Rattle.cell_run.specs.Run.{level_checks};
ghost use Rattle.window.specs.Calls.{windows_of, numbers_after, scratch_after};
ghost use Rattle.load.specs.Load.{load_of, symbols_after};

// Puts what `rmcalls` prints for an input at the start of out, and answers how many bytes that is. Where out is shorter than
// `rm_room` of the input's length, it stays as it was, and the answer is 0.
pub fn rm_run(input: &[u8], out: &mut [u8]) -> usize
    ensures value { result ≡ length (printed input.now out.old) }
    ensures out_after { out.new ≡ printed input.now out.old ++ drop result out.old }
{
    calls::run(input, out)
}

// The length that a buffer must have for the text of an input of a size, of which 65,536 bytes at most are read.
pub fn rm_room(size: usize) -> usize
    ensures { result ≡ room (min 65536 size) }
{
    runs::room_for(size)
}

// K(n), the number of codewords of n cells; 0 where n is no size.
pub fn rm_words(n: usize) -> u32
    ensures { result ≡ (words_of n).value }
{
    code::words(n).unwrap_or(0)
}

// Puts the numbers of the windows along a run with these levels at the start of a list, and the levels at the start of a scratch. The answer is
// the number of a refusal, where both lists stay as they were, or 0.
pub fn rm_windows(
    levels: &[u16],
    width: usize,
    step: usize,
    numbers: &mut [u32],
    scratch: &mut [u16],
) -> u8
    ensures value { result ≡ (windows_of (level_checks levels.now) levels.now width step numbers.old scratch.old).number }
    ensures numbers_after { numbers.new ≡ numbers_after (level_checks levels.now) levels.now width step numbers.old scratch.old }
    ensures scratch_after { scratch.new ≡ scratch_after (level_checks levels.now) levels.now width step numbers.old scratch.old }
{
    match window::windows_of_levels(levels, width, step, numbers, scratch) {
        Ok(_) => 0,
        Err(refusal) => order::refusal_number(refusal),
    }
}

// Fills a list with the symbols of a test load of n cells, and hands back the last state. The answer is the number of a refusal, where the list
// stays as it was and the state is 0, or 0.
pub fn rm_load(n: usize, seed: u32, list: &mut [u32], last: &mut u32) -> u8
    ensures value { result ≡ (load_of n seed (length list.old)).number }
    ensures list_after { list.new ≡ symbols_after n seed list.old }
    ensures last_after { last.new ≡ (load_of n seed (length list.old)).value }
{
    match load::load(n, seed, list) {
        Ok(state) => {
            *last = state;
            0
        }
        Err(refusal) => {
            *last = 0;
            order::refusal_number(refusal)
        }
    }
}
