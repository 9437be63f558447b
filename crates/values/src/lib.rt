//! Grids of values, and the backward evaluation of every row at every position.
#![tactic(auto)]

pub mod fault;
pub mod grid;
