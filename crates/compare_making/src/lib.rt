// What the comparison is made on, from seeds: random routines, damaged texts, spoiled records and lists to lend; proved safe and ending, and no more.
#![tactic(auto)]

pub mod chance;
pub mod damaging;
pub mod inverting;
pub mod lending;
pub mod making;
pub mod spoiling;
