// A test load (document 02, request (i)): symbols by the 32-bit xorshift of Marsaglia, the same on every bench. Each public function takes any value
// and answers it by one equation with a definition of specs/; a second one fixes the list that `load` is lent. Proved besides: the step is one-to-one,
// and no state becomes 0 (proofs/States); every symbol that is filled in is that of a codeword, and a load that is cut anywhere in two is the load made
// whole (specs/Claims, proofs/Loads).
#![tactic(auto)]

ghost use Rattle.std.specs.Prelude.{◌≡◌, ◌<◌, length};
ghost use Rattle.load.specs.Load.{next_state, state_after, symbols, told_load, load_of, symbols_after};

use order::Refusal;

// The state after a state; 0, which is none, stays 0.
pub fn next_state(state: u32) -> u32
    ensures { result ≡ next_state state }
{
    let a = state ^ (state << 13);
    let b = a ^ (a >> 17);
    b ^ (b << 5)
}

// Fills a list with symbols of n cells, the first from the state after the seed.
pub fn load(n: usize, seed: u32, list: &mut [u32]) -> Result<u32, Refusal>
    ensures result_value { told_load result ≡ load_of n seed (length list.old) }
    ensures list_after { list.new ≡ symbols_after n seed list.old }
{
    let words = code::words(n)?;
    if seed == 0 {
        return Err(Refusal::Seed);
    }
    Ok(fill(words, seed, list))
}

// Fills a list with the states after the seed, each modulo the number of codewords; the last state.
fn fill(words: u32, seed: u32, list: &mut [u32]) -> u32
    requires { 0 < words }
    ensures value { result ≡ state_after (length list.old) seed }
    ensures list_after { list.new ≡ symbols words seed (length list.old) }
{
    let mut state = seed;
    for symbol in list.iter_mut() {
        state = next_state(state);
        *symbol = state % words;
    }
    state
}
