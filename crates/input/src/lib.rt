//! What an input says: a sheet, a line `steps`, and then a line for each step.
#![tactic(auto)]

pub mod lines;
pub mod places;
pub mod steps;
