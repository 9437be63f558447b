//! The three-valued scale.
ghost use Rattle.std.specs.Prelude.{Some};
ghost use Rattle.scales.specs.Truths.{truth_ops, truer};
ghost use Rattle.scales.specs.Shown.{shown_truth};
ghost use Rattle.scales.specs.TruthLaws.{truth_laws};

use crate::scale::Scale;
use std::fmt;

/// A three-valued truth: false < undecided < true.
#[derive(Clone, Copy, PartialEq, Eq, PartialOrd, Ord, Debug)]
pub enum Truth {
    False,
    Undecided,
    True,
}

impl Scale for Truth {
    ghost ops = { truth_ops };

    ghost atleast = { truer };

    ghost laws = { truth_laws };

    fn yes() -> Truth {
        Self::True
    }

    fn no() -> Truth {
        Self::False
    }

    fn past() -> Truth {
        Self::Undecided
    }

    fn open() -> Truth {
        Self::no()
    }

    fn turn(self) -> Truth {
        match self {
            Truth::False => Truth::True,
            Truth::Undecided => Truth::Undecided,
            Truth::True => Truth::False,
        }
    }

    fn join(self, other: Truth) -> Truth {
        self.max(other)
    }

    fn later(self) -> Truth {
        self
    }
}

impl fmt::Display for Truth {
    ghost output = { λ t. Some (shown_truth t) };

    fn fmt<W: fmt::Write>(&self, f: &mut fmt::Formatter<W>) -> fmt::Result {
        match self {
            Truth::False => f.write_str("false"),
            Truth::Undecided => f.write_str("undecided"),
            Truth::True => f.write_str("true"),
        }
    }
}
