// Reading, writing, running and the test of records, by the product and by the other means; proved safe and ending, and no more.
#![tactic(auto)]

pub mod lists;
pub mod texts;
