//! Refusals in words.
ghost use Rattle.std.specs.Prelude.{◌≡◌, Some};
ghost use Rattle.sheet_faults.specs.Shown.{asked, shown_word, shown_formula, shown_name, shown_sheet};

use crate::fault::{FormulaFault, NameFault, SheetFault, WordFault};
use std::error::Error;
use std::fmt;

impl SheetFault {
    /// The question answered no, in words.
    pub fn question(self) -> &'static str
        ensures { result.now ≡ asked self }
    {
        self.refusal().question.words()
    }
}

// Display is written by hand: the derive `thiserror::Error` promises nothing of the text.
impl fmt::Display for WordFault {
    ghost output = { λ e. Some (shown_word e) };

    fn fmt<W: fmt::Write>(&self, f: &mut fmt::Formatter<W>) -> fmt::Result {
        f.write_str(match self {
            WordFault::Unknown { .. } => "the word is neither an operator nor an earlier name",
            WordFault::Missing { .. } => "the line ends where a word is wanted",
        })
    }
}

impl fmt::Display for FormulaFault {
    ghost output = { λ e. Some (shown_formula e) };

    fn fmt<W: fmt::Write>(&self, f: &mut fmt::Formatter<W>) -> fmt::Result {
        match *self {
            FormulaFault::Word(fault) => write!(f, "{fault}"),
            FormulaFault::NoOperator { .. } => {
                f.write_str("the formula of a name line begins with an operator")
            }
            FormulaFault::Surplus { .. } => f.write_str("the line is complete before this word"),
        }
    }
}

impl fmt::Display for NameFault {
    ghost output = { λ e. Some (shown_name e) };

    fn fmt<W: fmt::Write>(&self, f: &mut fmt::Formatter<W>) -> fmt::Result {
        f.write_str(match self {
            NameFault::Missing { .. } => "the line ends where a name is wanted",
            NameFault::Reserved { .. } => "the word is reserved",
            NameFault::Taken { .. } => "an earlier line declares this name",
            NameFault::TooLong { .. } => "the name has more than 16 bytes",
        })
    }
}

impl fmt::Display for SheetFault {
    ghost output = { λ e. Some (shown_sheet e) };

    fn fmt<W: fmt::Write>(&self, f: &mut fmt::Formatter<W>) -> fmt::Result {
        match *self {
            SheetFault::TooLong => f.write_str("the sheet goes on after 4,096 bytes"),
            SheetFault::ForeignByte { .. } => f.write_str("no sheet holds this byte"),
            SheetFault::NoKeyword { .. } => f.write_str("the word is no keyword"),
            SheetFault::AfterWatch { .. } => f.write_str("the watch line is the last"),
            SheetFault::Name(fault) => write!(f, "{fault}"),
            SheetFault::Formula(fault) => write!(f, "{fault}"),
            SheetFault::TooMany { .. } => {
                f.write_str("with this line there are more than 32 signals or 64 rows")
            }
            SheetFault::NoWatch { .. } => f.write_str("the sheet ends without a watch line"),
        }
    }
}

impl Error for SheetFault {}
