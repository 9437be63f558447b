//! Recordings, recorders, and the recorder that keeps a word for each step.
#![tactic(auto)]

pub mod fault;
pub mod plain;
pub mod recording;
