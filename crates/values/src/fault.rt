//! The refusal of a grid.
ghost use Rattle.std.specs.Prelude.{◌≡◌, Some};
ghost use Rattle.values.specs.Faults.{grid_refusal, shown_grid_fault};

use ltl::refusal::{Question, Refusal};
use std::error::Error;
use std::fmt;

/// A grid with fewer than R x (n + 1) cells, which is not filled.
#[derive(Clone, Copy, PartialEq, Eq, Debug)]
pub struct GridTooSmall;

impl GridTooSmall {
    /// The question answered no, and its place.
    // Beside the faults of other crates that have one question: what they share is this value, written in its parts, and a function of it is no plainer.
    pub fn refusal(self) -> Refusal
        ensures { result ≡ grid_refusal }
    {
        Refusal {
            question: Question::GridCells,
            place: 0,
        }
    }
}

// By hand: what `thiserror` derives has no contract on the text.
impl fmt::Display for GridTooSmall {
    ghost output = { λ _. Some shown_grid_fault };

    fn fmt<W: fmt::Write>(&self, f: &mut fmt::Formatter<W>) -> fmt::Result {
        f.write_str("the grid has too few cells")
    }
}

impl Error for GridTooSmall {}
