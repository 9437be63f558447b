//! The refusals of recorders.
ghost use Rattle.std.specs.Prelude.{◌≡◌, Some};
ghost use Rattle.recorder.specs.Faults.{record_refusal, open_refusal, shown_record_fault, shown_open_fault};

use ltl::refusal::{Question, Refusal};
use std::error::Error;
use std::fmt;

/// Why a step was not recorded.
#[derive(Clone, Copy, PartialEq, Eq, Debug)]
pub enum RecordFault {
    /// A signal of the step is not below W.
    ForeignSignal,
    /// The step has no room.
    NoRoom,
}

/// Why a recorder was not opened.
#[derive(Clone, Copy, PartialEq, Eq, Debug)]
pub enum OpenFault {
    /// W is not from 1 to 32.
    Width,
    /// The memory handed in holds no step.
    Memory,
}

impl RecordFault {
    /// The question answered no, and its place.
    pub fn refusal(self) -> Refusal
        ensures { result ≡ record_refusal self }
    {
        let question = match self {
            RecordFault::ForeignSignal => Question::SignalsBelowWidth,
            RecordFault::NoRoom => Question::StepRoom,
        };
        Refusal { question, place: 0 }
    }
}

impl OpenFault {
    /// The question answered no, and its place.
    // Beside other faults of one question each, in other crates: what they share is this value, and it is written in its parts.
    pub fn refusal(self) -> Refusal
        ensures { result ≡ open_refusal self }
    {
        Refusal {
            question: Question::Opening,
            place: 0,
        }
    }
}

// By hand: what `thiserror` derives has no contract on the text.
impl fmt::Display for RecordFault {
    ghost output = { λ e. Some (shown_record_fault e) };

    fn fmt<W: fmt::Write>(&self, f: &mut fmt::Formatter<W>) -> fmt::Result {
        f.write_str(match self {
            RecordFault::ForeignSignal => "a signal is not below the width",
            RecordFault::NoRoom => "the step has no room",
        })
    }
}

// By hand, for the same reason.
impl fmt::Display for OpenFault {
    ghost output = { λ e. Some (shown_open_fault e) };

    fn fmt<W: fmt::Write>(&self, f: &mut fmt::Formatter<W>) -> fmt::Result {
        f.write_str(match self {
            OpenFault::Width => "the width is not from 1 to 32",
            OpenFault::Memory => "the memory has room for no step",
        })
    }
}

impl Error for RecordFault {}

impl Error for OpenFault {}
