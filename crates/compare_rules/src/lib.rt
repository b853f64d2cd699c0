// Probe sets, the padding rule, the judgements and counts of starts by other means than the product's, for a program that compares
// the two: proved safe and ending, and no more.
#![tactic(auto)]

pub mod adding;
pub mod judging;
pub mod padding;
pub mod shares;
pub mod starts;
