// Probe sets and judgements, by the product and by the other means; proved safe and ending, and no more.
#![tactic(auto)]

pub mod judged;
pub mod sets;
