// The functions of `exports` for programs in C and Rust, as a static library: each call is that of `exports`, under the same clauses.
#![tactic(auto)]

ghost use Rattle.std.specs.Prelude.{◌≡◌, ◌++◌, min, length, drop};
ghost use Rattle.code.specs.Symbols.{words_of};
ghost use Rattle.runs.specs.Text.{room, printed};
ghost use Rattle.cell_run.specs.Run.{level_checks};
ghost use Rattle.window.specs.Calls.{windows_of, numbers_after, scratch_after};
ghost use Rattle.load.specs.Load.{load_of, symbols_after};

// Puts what `rmcalls` prints for an input at the start of out, and answers how many bytes that is.
#[unsafe(no_mangle)]
pub extern "C" fn rm_run(input: &[u8], out: &mut [u8]) -> usize
    ensures value { result ≡ length (printed input.now out.old) }
    ensures out_after { out.new ≡ printed input.now out.old ++ drop result out.old }
{
    exports::rm_run(input, out)
}

// The length that a buffer must have for the text of an input of a size, of which 65,536 bytes at most are read.
#[unsafe(no_mangle)]
pub extern "C" fn rm_room(size: usize) -> usize
    ensures { result ≡ room (min 65536 size) }
{
    exports::rm_room(size)
}

// K(n), the number of codewords of n cells; 0 where n is no size.
#[unsafe(no_mangle)]
pub extern "C" fn rm_words(n: usize) -> u32
    ensures { result ≡ (words_of n).value }
{
    exports::rm_words(n)
}

// Puts the numbers of the windows along a run with these levels at the start of a list, and the levels at the start of a scratch.
#[unsafe(no_mangle)]
pub extern "C" fn rm_windows(
    levels: &[u16],
    width: usize,
    step: usize,
    numbers: &mut [u32],
    scratch: &mut [u16],
) -> u8
    ensures value { result ≡ (windows_of (level_checks levels.now) levels.now width step numbers.old scratch.old).number }
    ensures numbers_after { numbers.new ≡ numbers_after (level_checks levels.now) levels.now width step numbers.old scratch.old }
    ensures scratch_after { scratch.new ≡ scratch_after (level_checks levels.now) levels.now width step numbers.old scratch.old }
{
    exports::rm_windows(levels, width, step, numbers, scratch)
}

// Fills a list with the symbols of a test load of n cells, and hands back the last state.
#[unsafe(no_mangle)]
pub extern "C" fn rm_load(n: usize, seed: u32, list: &mut [u32], last: &mut u32) -> u8
    ensures value { result ≡ (load_of n seed (length list.old)).number }
    ensures list_after { list.new ≡ symbols_after n seed list.old }
    ensures last_after { last.new ≡ (load_of n seed (length list.old)).value }
{
    exports::rm_load(n, seed, list, last)
}
