//! LTL formulas and steps, and the definitions of values that all contracts cite.
#![tactic(auto)]

pub mod formula;
pub mod refusal;
pub mod row;
pub mod step;
