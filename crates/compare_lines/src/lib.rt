// Wire records and the reading of a text, by other means than the product's, for a program that compares the two: proved safe and ending, and no more.
#![tactic(auto)]

pub mod parts;
pub mod splitting;
pub mod wires;
