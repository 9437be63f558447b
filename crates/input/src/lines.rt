//! The parts of an input, and the lines that tell the steps: names of signals, or `-` alone for none.
ghost use Rattle.std.specs.Prelude.{◌≡◌, ◌≤◌, length, Some, Ok, codes};
ghost use Rattle.sheet.specs.Parts.{parts};
ghost use Rattle.input.specs.Splits.{none, only, split_of};
ghost use Rattle.input.specs.Lines.{with_named, told, line_of, Told};

use ltl::step::Step;
use sheet::signals::SignalNames;
use sheet::words::{Lines, Words};
use std::error::Error;
use std::fmt;

/// Where an input's sheet ends, and where the lines that tell steps begin.
// Offsets and no slices: they are what `split_input` promises and its tests ask.
#[derive(Clone, Copy, Debug)]
pub struct Split {
    pub sheet: usize,
    pub steps: usize,
}

/// A step line whose word at this offset names no signal, and each word before it names one.
#[derive(Clone, Copy, PartialEq, Eq, Debug)]
pub struct StrangeWord {
    pub at: usize,
}

impl fmt::Display for StrangeWord {
    ghost output = { λ _. Some (codes "the word is no signal") };

    fn fmt<W: fmt::Write>(&self, f: &mut fmt::Formatter<W>) -> fmt::Result {
        f.write_str("the word is no signal")
    }
}

impl Error for StrangeWord {}

/// Whether a line has no word.
fn blank(line: &[u8]) -> bool
    ensures { result ≡ none (parts 32 0 line.now) }
{
    Words::new(line).next().is_none()
}

/// Whether the only word of a line is this one.
fn only_word(line: &[u8], word: &[u8]) -> bool
    ensures { result ≡ only word.now (parts 32 0 line.now) }
{
    let mut words = Words::new(line);
    // The rest of the line is looked at only behind this word.
    words.next().is_some_and(|first| first.text == word) && words.next().is_none()
}

/// The step whose signals the words of a line name.
fn named_signals<N: SignalNames>(names: &N, line: &[u8]) -> Result<Step, StrangeWord>
    ensures { result ≡ told (with_named (N.named names.now) 0 (parts 32 0 line.now)) }
{
    let mut step = Step::empty();
    for word in Words::new(line) {
        let at = word.at;
        let signal = names.signal(word.text).ok_or(StrangeWord { at })?;
        step = step.with(signal).ok_or(StrangeWord { at })?;
    }
    Ok(step)
}

/// Splits an input at the first line whose only word is `steps`: what stands before is the sheet, and
/// what stands after it tells the steps. Without such a line all is the sheet.
#[tactic(auto, using(sheet::proofs::Texts::parts_inside))]
pub fn split_input(input: &[u8]) -> Split
    ensures is { result ≡ split_of input.now }
    ensures within { (result.sheet ≤ result.steps) × (result.steps ≤ length input.now) }
{
    for line in Lines::new(input) {
        if only_word(line.text, b"steps") {
            return Split {
                sheet: line.at,
                steps: line.at + line.text.len(),
            };
        }
    }
    Split {
        sheet: input.len(),
        steps: input.len(),
    }
}

/// The step that a step line tells, by the names of signals: none where the line is blank.
#[tactic(auto, using(crate::proofs::Named::line_law))]
pub fn step_line<N: SignalNames>(names: &N, line: &[u8]) -> Result<Option<Step>, StrangeWord>
    ensures is { result ≡ line_of (N.named names.now) (parts 32 0 line.now) }
    ensures signals { (s : Step) → result ≡ Ok (Some s) → Told (N.named names.now) (parts 32 0 line.now) s }
{
    if blank(line) {
        Ok(None)
    } else if only_word(line, b"-") {
        Ok(Some(Step::empty()))
    } else {
        Ok(Some(named_signals(names, line)?))
    }
}
