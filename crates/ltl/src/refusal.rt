//! What a refusal tells: the question that was answered no, which has a number and a part, and a place.
ghost use Rattle.std.specs.Prelude.{◌≡◌, Some};
ghost use Rattle.ltl.specs.Questions.{number_of, part_of, numbered};
ghost use Rattle.ltl.specs.Shown.{shown_part, shown_question, shown_numbered, shown_refusal};

use std::fmt;

/// The part of the checker that asks a question.
#[derive(Clone, Copy, PartialEq, Eq, Debug)]
pub enum Part {
    Sheet,
    Recording,
    Patch,
    Watch,
}

/// A question that the checker asks of what it is handed. Questions are asked in the order of their numbers.
#[derive(Clone, Copy, PartialEq, Eq, Debug)]
pub enum Question {
    /// Has the sheet at most 4,096 bytes?
    SheetLength,
    /// Is every byte 10 or from 32 to 126?
    SheetBytes,
    /// Is the first word a keyword, after no watch line?
    FirstWord,
    /// Has the line a second word that is free, not reserved and at most 16 bytes long?
    NewName,
    /// Is the rest of the line exactly one formula, or nothing on a signal line?
    OneFormula,
    /// Are there at most 32 signals and 64 rows?
    SheetRows,
    /// Was there a watch line?
    WatchLine,
    /// Are all signals below W?
    SignalsBelowWidth,
    /// Has the step room?
    StepRoom,
    /// Is W from 1 to 32, and K at least 1?
    Opening,
    /// Is the row below R?
    RowNumber,
    /// Has each grid at least R x (n + 1) cells?
    GridCells,
}

/// A refused call: the first question answered no, and the place it is about.
#[derive(Clone, Copy, PartialEq, Eq, Debug)]
pub struct Refusal {
    pub question: Question,
    pub place: usize,
}

/// A refusal by a question's number and part, as people read it.
// Beside `Refusal`: here a number and a part may be told of which this checker has no question.
#[derive(Clone, Copy, PartialEq, Eq, Debug)]
pub struct NumberedRefusal {
    pub number: u8,
    pub part: Part,
    pub place: usize,
}

impl Question {
    /// The number by which people name the question.
    pub fn number(self) -> u8
        ensures { result ≡ number_of self }
    {
        match self {
            Question::SheetLength => 1,
            Question::SheetBytes => 2,
            Question::FirstWord => 3,
            Question::NewName => 4,
            Question::OneFormula => 5,
            Question::SheetRows => 6,
            Question::WatchLine => 7,
            Question::SignalsBelowWidth => 8,
            Question::StepRoom => 9,
            Question::Opening => 10,
            Question::RowNumber => 15,
            Question::GridCells => 17,
        }
    }

    /// The part of the checker that asks it.
    pub fn part(self) -> Part
        ensures { result ≡ part_of self }
    {
        match self {
            Question::SheetLength
            | Question::SheetBytes
            | Question::FirstWord
            | Question::NewName
            | Question::OneFormula
            | Question::SheetRows
            | Question::WatchLine => Part::Sheet,
            Question::SignalsBelowWidth | Question::StepRoom | Question::Opening => Part::Recording,
            Question::RowNumber | Question::GridCells => Part::Watch,
        }
    }

    /// The question in words.
    pub fn words(self) -> &'static str
        ensures { result.now ≡ shown_question self }
    {
        match self {
            Question::SheetLength => "Has the sheet at most 4,096 bytes?",
            Question::SheetBytes => "Is every byte 10 or from 32 to 126?",
            Question::FirstWord => "Is the first word a keyword, after no watch line?",
            Question::NewName => {
                "Has the line a second word that is free, not reserved and at most 16 bytes long?"
            }
            Question::OneFormula => {
                "Is the rest of the line exactly one formula, or nothing on a signal line?"
            }
            Question::SheetRows => "Are there at most 32 signals and 64 rows?",
            Question::WatchLine => "Was there a watch line?",
            Question::SignalsBelowWidth => "Are all signals below W?",
            Question::StepRoom => "Has the step room?",
            Question::Opening => "Is W from 1 to 32, and K at least 1?",
            Question::RowNumber => "Is the row below R?",
            Question::GridCells => "Has each grid at least R x (n + 1) cells?",
        }
    }
}

impl Refusal {
    /// The refusal by its question's number and part.
    pub fn numbered(self) -> NumberedRefusal
        ensures { result ≡ numbered self }
    {
        NumberedRefusal {
            number: self.question.number(),
            part: self.question.part(),
            place: self.place,
        }
    }
}

impl fmt::Display for Part {
    ghost output = { λ p. Some (shown_part p) };

    fn fmt<W: fmt::Write>(&self, f: &mut fmt::Formatter<W>) -> fmt::Result {
        match self {
            Part::Sheet => f.write_str("sheet"),
            Part::Recording => f.write_str("recording"),
            Part::Patch => f.write_str("patch"),
            Part::Watch => f.write_str("watch"),
        }
    }
}

impl fmt::Display for Question {
    ghost output = { λ q. Some (shown_question q) };

    fn fmt<W: fmt::Write>(&self, f: &mut fmt::Formatter<W>) -> fmt::Result {
        f.write_str(self.words())
    }
}

impl fmt::Display for NumberedRefusal {
    ghost output = { λ r. Some (shown_numbered r) };

    fn fmt<W: fmt::Write>(&self, f: &mut fmt::Formatter<W>) -> fmt::Result {
        let number = self.number;
        let part = self.part;
        let place = self.place;
        write!(f, "question {number} ({part}), place {place}")
    }
}

impl fmt::Display for Refusal {
    ghost output = { λ r. Some (shown_refusal r) };

    fn fmt<W: fmt::Write>(&self, f: &mut fmt::Formatter<W>) -> fmt::Result {
        let numbered = self.numbered();
        write!(f, "{numbered}")
    }
}
