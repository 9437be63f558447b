//! Recording the steps that the lines of an input tell.
ghost use Rattle.std.specs.Prelude.{◌≡◌, ◌+◌, ◌++◌, length, MatchResult};
ghost use Rattle.sheet.specs.Parts.{parts};
ghost use Rattle.recorder.specs.Recordings.{record_answer};
ghost use Rattle.input.specs.Lines.{line_of};
ghost use Rattle.input.specs.Recorded.{step_of, Tells, Stops, Recorded};

use crate::lines::{StrangeWord, step_line};
use recorder::fault::RecordFault;
use recorder::recording::Recorder;
use sheet::signals::SignalNames;
use sheet::words::{Lines, Word};

/// Why the recording of step lines ended early.
#[derive(Clone, Copy, Debug)]
pub enum StepFault {
    /// The line at this offset has a word that names no signal.
    Strange { line: usize, word: StrangeWord },
    /// The recorder refused the step of the line at this offset.
    Refused { line: usize, fault: RecordFault },
}

/// Records the step of one line.
fn record_line<N: SignalNames, R: Recorder>(
    recorder: &mut R,
    names: &N,
    line: Word,
) -> Result<(), StepFault>
    ensures { MatchResult result (λ _. Tells (line_of (N.named names.now) (parts 32 0 line.entry.text.now)) × (R.Recording.steps recorder.new ≡ R.Recording.steps recorder.old ++ step_of (line_of (N.named names.now) (parts 32 0 line.entry.text.now)))) (λ f. (R.Recording.steps recorder.new ≡ R.Recording.steps recorder.old) × Stops (λ s. record_answer (R.Recording.width recorder.new) (R.Recorder.room recorder.new s) (length (R.Recording.steps recorder.new)) s) (line_of (N.named names.now) (parts 32 0 line.entry.text.now)) line.entry.at f) }
{
    let at = line.at;
    let told = step_line(names, line.text).map_err(|word| StepFault::Strange { line: at, word })?;
    if let Some(step) = told {
        recorder
            .record(step)
            .map_err(|fault| StepFault::Refused { line: at, fault })?;
    }
    Ok(())
}

/// Records the steps that the lines tell, by the names of signals, and ends at the first line that tells none or is
/// refused.
#[tactic(auto, using(crate::proofs::Taken::none_taken, crate::proofs::Taken::one_taken, crate::proofs::Taken::all_taken, crate::proofs::Taken::stopped))]
pub fn record_lines<N: SignalNames, R: Recorder>(
    recorder: &mut R,
    names: &N,
    lines: &[u8],
) -> Result<(), StepFault>
    ensures { Recorded (N.named names.now) (λ s. record_answer (R.Recording.width recorder.new) (R.Recorder.room recorder.new s) (length (R.Recording.steps recorder.new)) s) (parts 10 0 lines.now) (R.Recording.steps recorder.old) (R.Recording.steps recorder.new) result }
{
    for line in Lines::new(lines) {
        record_line(recorder, names, line)?;
    }
    Ok(())
}
