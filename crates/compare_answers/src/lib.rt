// Whether two answers are the same, and the counts of how many are; proved safe and ending, and no more.
#![tactic(auto)]

pub mod same;
pub mod tally;
