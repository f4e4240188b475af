// A second implementation of document 01 and of the requests of document 02 that have landed, by their definitions, to compare the engine
// with. It shares the types with the engine and no code: it counts, searches and lists where the engine sweeps, inserts and looks up. Every
// call answers its result, or the refusal that its own checks find. Every function is proved safe and ending; none says what it computes.
// Here are orders and the list of words, and what the calls on symbols, groups and runs are made of, which are in `naive_calls`.
#![tactic(auto)]

pub mod levels;
pub mod numbers;
pub mod orders;
pub mod pairs;
pub mod words;
