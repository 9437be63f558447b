//! What a recording is, and what a recorder is: a recording that can grow.
ghost use Rattle.std.specs.Prelude.{◌≡◌, ℕ, Bool, List, length};
ghost use Rattle.ltl.specs.Steps.{step_at, set_of};
ghost use Rattle.recorder.specs.Recordings.{Lawful, Roomy, record_answer, grown, Unchanged};

use crate::fault::RecordFault;
use ltl::step::Step;

/// A number of signals and a list of steps. Asking changes nothing.
pub trait Recording {
    /// The number of signals, W.
    ghost width: { Self → ℕ };

    /// The steps, in order.
    ghost steps: { Self → List ℕ };

    /// 1 to 32 signals, at most 4,096 steps, and every step a set of signals below the width.
    ghost lawful: { (x : Self) → Lawful (width x) (steps x) };

    /// W.
    fn width(&self) -> u8
        ensures { result ≡ width self.now };

    /// n, the number of steps.
    fn len(&self) -> usize
        ensures { result ≡ length (steps self.now) };

    /// The step at a position, counted from 1; outside 1 to n, the empty set.
    fn step(&self, at: usize) -> Step
        ensures { set_of result ≡ step_at (steps self.now) at };
}

/// A recording that can grow. It holds no steps once it is opened, and its capacity K is then at least 1.
pub trait Recorder: Recording {
    /// Which steps have room now.
    ghost room: { Self → ℕ → Bool };

    /// K: every step has room while fewer are held.
    ghost capacity: { Self → ℕ };

    /// Whether a step has room. A set with a signal not below W has none.
    fn room(&self, step: Step) -> bool
        ensures value { result ≡ room self.now (set_of step) }
        ensures law { Roomy (Self.Recording.width self.now) (capacity self.now) (length (Self.Recording.steps self.now)) (set_of step) result };

    /// Appends a step and tells the new n, or refuses and changes nothing.
    fn record(&mut self, step: Step) -> Result<usize, RecordFault>
        ensures answer { result ≡ record_answer (Self.Recording.width self.old) (room self.old (set_of step)) (length (Self.Recording.steps self.old)) (set_of step) }
        ensures steps { Self.Recording.steps self.new ≡ grown result (Self.Recording.steps self.old) (set_of step) }
        ensures width { Self.Recording.width self.new ≡ Self.Recording.width self.old }
        ensures capacity { capacity self.new ≡ capacity self.old }
        ensures refused { Unchanged result self.old self.new }
        ensures law { Roomy (Self.Recording.width self.old) (capacity self.old) (length (Self.Recording.steps self.old)) (set_of step) (room self.old (set_of step)) };
}
