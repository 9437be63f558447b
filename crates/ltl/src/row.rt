//! The rows of a formula.
ghost use Rattle.std.specs.Prelude.{◌≡◌, Some, MatchBool};
ghost use Rattle.ltl.specs.declared.row.Row.TheVariants.{Signal};
ghost use Rattle.ltl.specs.Rows.{Fits};
ghost use Rattle.ltl.specs.Shown.{shown_row};

use std::fmt;

/// One row: a signal by its number, or an operator over earlier rows by their numbers.
#[derive(Clone, Copy, PartialEq, Eq, Debug)]
pub enum Row {
    Signal(u8),
    Not(u8),
    Or(u8, u8),
    Next(u8),
    /// The first operand until the second.
    Until(u8, u8),
    Eventually(u8),
}

impl Row {
    /// Whether row r may be this one, in a formula with so many signals.
    pub(crate) fn fits(self, width: u8, r: usize) -> bool
        ensures { MatchBool result (Fits width r self) (¬ Fits width r self) }
    {
        match self {
            Row::Signal(k) => k < width,
            Row::Not(a) | Row::Next(a) | Row::Eventually(a) => usize::from(a) < r,
            Row::Or(a, b) | Row::Until(a, b) => usize::from(a) < r && usize::from(b) < r,
        }
    }
}

/// Signal 0: an `ArrayVec` fills its free places with it.
impl Default for Row {
    ghost is_default = { λ row. row ≡ Signal 0 };

    fn default() -> Row {
        Row::Signal(0)
    }
}

impl fmt::Display for Row {
    ghost output = { λ r. Some (shown_row r) };

    fn fmt<W: fmt::Write>(&self, f: &mut fmt::Formatter<W>) -> fmt::Result {
        match *self {
            Row::Signal(k) => write!(f, "signal {k}"),
            Row::Not(a) => write!(f, "not {a}"),
            Row::Or(a, b) => write!(f, "or {a} {b}"),
            Row::Next(a) => write!(f, "next {a}"),
            Row::Until(a, b) => write!(f, "until {a} {b}"),
            Row::Eventually(a) => write!(f, "eventually {a}"),
        }
    }
}
