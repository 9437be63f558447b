//! What a scale of values is.
ghost use Rattle.std.specs.Prelude.{◌≡◌};
ghost use Rattle.scales.specs.Scales.{Ops, Laws, meet as meet_of};

/// A scale: values of truth named yes, no, past and open, with the operations on them.
/// Whoever supplies one shows the truth laws; nothing else may be asked of a scale.
pub trait Scale: Copy {
    /// The values and operations as functions.
    ghost ops: { Ops Self };

    /// The order: the first is at least as true as the second.
    ghost atleast: { Self → Self → Type 0 };

    /// The truth laws.
    ghost laws: { Laws ops atleast };

    /// The value of a signal that is present.
    fn yes() -> Self
        ensures { result ≡ ops.yes };

    /// The value of a signal that is absent.
    fn no() -> Self
        ensures { result ≡ ops.no };

    /// The value of a signal after the last step.
    fn past() -> Self
        ensures { result ≡ ops.past };

    /// What an eventuality has before it after the last step.
    fn open() -> Self
        ensures { result ≡ ops.«open» };

    /// The value of the negation.
    fn turn(self) -> Self
        ensures { result ≡ ops.turn self };

    /// The value of the disjunction.
    fn join(self, other: Self) -> Self
        ensures { result ≡ ops.join self other };

    /// The value as seen from one position earlier.
    fn later(self) -> Self
        ensures { result ≡ ops.later self };

    /// The value of the conjunction: the turn of the join of the turns.
    fn meet(self, other: Self) -> Self
    where
        Self: Sized,
        ensures { result ≡ meet_of ops self other }
    {
        self.turn().join(other.turn()).turn()
    }
}
