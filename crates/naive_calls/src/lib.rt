// The calls on symbols, loads, groups, shared targets, runs of cells, pages and cuts, by the definitions of document 01 and of requests (a) to (e) and (g) to (i): the
// rest of the second implementation, `naive`, and proved safe and ending like it.
#![tactic(auto)]

pub mod cuts;
pub mod loads;
pub mod machine;
pub mod pages;
pub mod rows;
pub mod shared;
pub mod symbols;
pub mod tallies;
pub mod windows;
