//! The signals of the bench, and what a line of the input tells.
ghost use Rattle.std.specs.Prelude.{◌≡◌, ℕ, true, ◌↔◌, Some, Ok};
ghost use Rattle.ltl.specs.Steps.{has, set_of};
ghost use Rattle.sheet.specs.Parts.{parts};
ghost use Rattle.input.specs.Lines.{Names, line_of};
ghost use Rattle.tracecheck.specs.Signals.{signal_named};

use input::lines::{StrangeWord, step_line};
use ltl::step::Step;
use sheet::signals::SignalNames;

/// The names of the bench's signals: r is signal 0, g is signal 1.
#[derive(Clone, Copy, Debug)]
pub struct BenchSignals;

impl SignalNames for BenchSignals {
    ghost named = { λ _. signal_named };

    fn signal(&self, word: &[u8]) -> Option<u8> {
        match word {
            b"r" => Some(0),
            b"g" => Some(1),
            _ => None,
        }
    }
}

/// The step that a line of the input tells: none where it is blank.
// Beside `step_line`: what it promises of `-`, which names no signal of the bench, is its own.
#[tactic(auto, using(crate::proofs::Named::names_of_told))]
pub fn read_line(line: &[u8]) -> Result<Option<Step>, StrangeWord>
    ensures is { result ≡ line_of signal_named (parts 32 0 line.now) }
    ensures signals { (s : Step) → result ≡ Ok (Some s) → (k : ℕ) → (has (set_of s) k ≡ true) ↔ Names signal_named k (parts 32 0 line.now) }
{
    step_line(&BenchSignals, line)
}
