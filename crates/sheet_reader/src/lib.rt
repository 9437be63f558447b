//! Reading a formula sheet: a formula with its names, or the first question answered no and its place.
#![tactic(auto)]

pub mod reading;
