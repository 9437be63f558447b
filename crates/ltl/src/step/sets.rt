//! What can be asked of a step, and how one is made.
ghost use Rattle.std.specs.Prelude.{◌≡◌, ℕ, ◌^◌, ◌<◌, ◌≤◌, IsTrue, ◌||◌, ◌↔◌, MatchOption, ◌==◌, bit_or, nat_lt};
ghost use Rattle.ltl.specs.Steps.{has, Below, set_of};

use super::Step;

impl Step {
    /// The step in which no signal is present.
    pub fn empty() -> Step
        ensures { set_of result ≡ 0 }
    {
        Step { bits: 0 }
    }

    /// The step whose signal k is the bit of `bits` worth 2^k.
    pub fn from_bits(bits: u64) -> Step
        ensures { set_of result ≡ bits }
    {
        Step { bits }
    }

    /// The number whose bit worth 2^k is signal k.
    pub fn bits(self) -> u64
        ensures { result ≡ set_of self }
    {
        self.bits
    }

    /// Whether a signal is in the step.
    #[tactic(auto, using(crate::proofs::Sets::has_high))]
    pub fn has(self, signal: u8) -> bool
        ensures { result ≡ has (set_of self) signal }
    {
        signal < 64 && (self.bits() >> signal) % 2 == 1
    }

    /// The step with one signal more, or nothing for a signal above 63.
    #[tactic(auto, using(crate::proofs::Sets::one_more))]
    pub fn with(self, signal: u8) -> Option<Step>
        ensures { MatchOption result (64 ≤ signal) (λ s. (signal < 64) × (set_of s ≡ bit_or (set_of self) (2 ^ signal)) × ((k : ℕ) → has (set_of s) k ≡ (has (set_of self) k || k == signal))) }
    {
        if signal >= 64 {
            return None;
        }
        Some(Step {
            bits: self.bits | 1u64 << signal,
        })
    }

    /// Whether every signal of the step is below a width.
    #[tactic(auto, using(crate::proofs::Sets::widths))]
    pub fn is_below(self, width: u8) -> bool
        ensures value { result ≡ nat_lt (set_of self) (2 ^ width) }
        ensures signals { IsTrue result ↔ Below width (set_of self) }
    {
        width >= 64 || self.bits() >> width == 0
    }
}
