// What the programs that compare the engine with `naive` use: a fixed sample of inputs, lists of pushes that are lent, the comparison of one answer with
// the naive one, how many were made, and the lines that say so. Proved safe and ending; none says what it computes.
#![tactic(auto)]

pub mod lent;
pub mod report;
pub mod sample;
pub mod tally;
