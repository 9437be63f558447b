//! Why a formula sheet is refused: which question was answered no, and where.
#![tactic(auto)]

pub mod fault;
pub mod text;
