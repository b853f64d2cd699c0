// A routine's text, the test of its records and its runs, by other means than the product's, for a program that compares the two:
// proved safe and ending, and no more.
#![tactic(auto)]

pub mod marks;
pub mod running;
pub mod spelling;
