//! The scale of pairs of witness counts.
ghost use Rattle.std.specs.Prelude.{◌≡◌, Some};
ghost use Rattle.scales.specs.Pairs.{one_more, pair, pair_ops, truer_pair};
ghost use Rattle.scales.specs.Shown.{shown_count, shown_pair};
ghost use Rattle.scales.specs.PairLaws.{pair_laws};

use crate::scale::Scale;
use std::fmt;

/// How many further steps a witness needs: a number, infinitely many, or none can be one.
/// The order is number < inf < impossible.
#[derive(Clone, Copy, PartialEq, Eq, PartialOrd, Ord, Debug)]
pub enum Count {
    Number(u16),
    Infinite,
    Impossible,
}

/// The counts of a satisfaction and of a violation, (s, f).
#[derive(Clone, Copy, PartialEq, Eq, Debug)]
pub struct Pair {
    pub s: Count,
    pub f: Count,
}

impl Pair {
    /// The pair (s, f).
    pub fn new(s: Count, f: Count) -> Pair
        ensures { result ≡ pair s f }
    {
        Pair { s, f }
    }
}

impl Count {
    /// One more, for a number below 65,535.
    fn more(self) -> Count
        ensures { result ≡ one_more self }
    {
        match self {
            Count::Number(a) => Count::Number(a.saturating_add(1)),
            c => c,
        }
    }
}

impl Scale for Pair {
    ghost ops = { pair_ops };

    ghost atleast = { truer_pair };

    ghost laws = { pair_laws };

    fn yes() -> Pair {
        Self::new(Count::Number(0), Count::Impossible)
    }

    fn no() -> Pair {
        Self::new(Count::Impossible, Count::Number(0))
    }

    fn past() -> Pair {
        Self::new(Count::Number(0), Count::Number(0))
    }

    fn open() -> Pair {
        Self::new(Count::Impossible, Count::Infinite)
    }

    fn turn(self) -> Pair {
        Self::new(self.f, self.s)
    }

    fn join(self, other: Pair) -> Pair {
        Self::new(self.s.min(other.s), self.f.max(other.f))
    }

    fn later(self) -> Pair {
        Self::new(self.s.more(), self.f.more())
    }
}

impl fmt::Display for Count {
    ghost output = { λ c. Some (shown_count c) };

    fn fmt<W: fmt::Write>(&self, f: &mut fmt::Formatter<W>) -> fmt::Result {
        match *self {
            Count::Number(a) => write!(f, "{a}"),
            Count::Infinite => f.write_str("inf"),
            Count::Impossible => f.write_str("-"),
        }
    }
}

impl fmt::Display for Pair {
    ghost output = { λ p. Some (shown_pair p) };

    fn fmt<W: fmt::Write>(&self, f: &mut fmt::Formatter<W>) -> fmt::Result {
        write!(f, "({}, {})", self.s, self.f)
    }
}
