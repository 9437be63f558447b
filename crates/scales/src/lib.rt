//! Scales of values: what one is, the three-valued one, and pairs of witness counts.
#![tactic(auto)]

pub mod pair;
pub mod scale;
pub mod truth;
