//! Grids in memory from the heap, for programs that have one: the library itself takes none.
#![tactic(auto)]

pub mod cells;
