//! What words name.
ghost use Rattle.std.specs.Prelude.{◌≡◌, ℕ, ◌<◌, List, Option, IfSome};

/// The names of signals.
pub trait SignalNames {
    /// The signal of a name.
    ghost named: { Self → List ℕ → Option ℕ };

    /// The signal that a word names, if it names one.
    fn signal(&self, word: &[u8]) -> Option<u8>
        ensures value { result ≡ named self.now word.now }
        ensures below { IfSome result (λ k. k < 64) };
}
