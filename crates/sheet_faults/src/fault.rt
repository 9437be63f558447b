//! The refusals of a sheet, each holding the lower one whole: word, formula, sheet.
ghost use Rattle.std.specs.Prelude.{◌≡◌};
ghost use Rattle.sheet_faults.specs.Faults.{word_refusal, formula_refusal, name_refusal, sheet_refusal, row_refusal};
ghost use Rattle.sheet_faults.specs.declared.fault.FormulaFault.TheVariants.{Word as OfWord};
ghost use Rattle.sheet_faults.specs.declared.fault.SheetFault.TheVariants.{Formula as OfFormula, Name as OfName};

use ltl::refusal::{Question, Refusal};

/// Why a word does not continue a formula.
#[derive(Clone, Copy, PartialEq, Eq, Debug)]
pub enum WordFault {
    /// It is neither an operator nor an earlier name.
    Unknown { at: usize },
    /// The line ends where a word is wanted.
    Missing { at: usize },
}

/// Why the rest of a line is not what its keyword asks for.
#[derive(Clone, Copy, PartialEq, Eq, Debug)]
pub enum FormulaFault {
    Word(WordFault),
    /// The formula of a name line begins with no operator.
    NoOperator { at: usize },
    /// A word follows where the line is complete.
    Surplus { at: usize },
}

/// Why a second word is no new name.
#[derive(Clone, Copy, PartialEq, Eq, Debug)]
pub enum NameFault {
    /// The line ends after its keyword.
    Missing { at: usize },
    /// It is an operator, a keyword, `steps` or `-`.
    Reserved { at: usize },
    /// An earlier line declares it.
    Taken { at: usize },
    /// It has more than 16 bytes.
    TooLong { at: usize },
}

/// Why a sheet was not read.
#[derive(Clone, Copy, PartialEq, Eq, Debug)]
pub enum SheetFault {
    /// It has more than 4,096 bytes.
    TooLong,
    /// A byte is neither 10 nor from 32 to 126.
    ForeignByte { at: usize },
    /// A line begins with no keyword.
    NoKeyword { at: usize },
    /// A line follows the watch line.
    AfterWatch { at: usize },
    Name(NameFault),
    Formula(FormulaFault),
    /// With the line that begins here there are more than 32 signals or 64 rows.
    TooMany { at: usize },
    /// No line is a watch line; the place is the sheet's length.
    NoWatch { at: usize },
}

/// A row that the formula does not have.
#[derive(Clone, Copy, PartialEq, Eq, Debug)]
pub struct NoSuchRow;

impl WordFault {
    /// The question answered no and its place.
    // Beside `NameFault`: the two share only the value, written in its parts, and a function of a question and a place is no plainer.
    pub fn refusal(self) -> Refusal
        ensures { result ≡ word_refusal self }
    {
        let (WordFault::Unknown { at: place } | WordFault::Missing { at: place }) = self;
        Refusal {
            question: Question::OneFormula,
            place,
        }
    }
}

impl FormulaFault {
    /// The question answered no and its place.
    pub fn refusal(self) -> Refusal
        ensures { result ≡ formula_refusal self }
    {
        match self {
            FormulaFault::Word(fault) => fault.refusal(),
            FormulaFault::NoOperator { at: place } | FormulaFault::Surplus { at: place } => {
                Refusal {
                    question: Question::OneFormula,
                    place,
                }
            }
        }
    }
}

impl NameFault {
    /// The question answered no and its place.
    // Beside `WordFault`, for the reason that stands there.
    pub fn refusal(self) -> Refusal
        ensures { result ≡ name_refusal self }
    {
        let (NameFault::Missing { at: place }
        | NameFault::Reserved { at: place }
        | NameFault::Taken { at: place }
        | NameFault::TooLong { at: place }) = self;
        Refusal {
            question: Question::NewName,
            place,
        }
    }
}

impl SheetFault {
    /// The question answered no and its place.
    pub fn refusal(self) -> Refusal
        ensures { result ≡ sheet_refusal self }
    {
        let (question, place) = match self {
            SheetFault::TooLong => (Question::SheetLength, 4096),
            SheetFault::ForeignByte { at } => (Question::SheetBytes, at),
            SheetFault::NoKeyword { at } | SheetFault::AfterWatch { at } => {
                (Question::FirstWord, at)
            }
            SheetFault::Name(fault) => return fault.refusal(),
            SheetFault::Formula(fault) => return fault.refusal(),
            SheetFault::TooMany { at } => (Question::SheetRows, at),
            SheetFault::NoWatch { at } => (Question::WatchLine, at),
        };
        Refusal { question, place }
    }
}

impl NoSuchRow {
    /// The question answered no and its place.
    // Beside the faults of other crates that have one question: what they share is this value, written in its parts, and a function of it is no plainer.
    pub fn refusal(self) -> Refusal
        ensures { result ≡ row_refusal }
    {
        Refusal {
            question: Question::RowNumber,
            place: 0,
        }
    }
}

impl From<WordFault> for FormulaFault {
    ghost from_gives = { λ w r. r ≡ OfWord w };

    fn from(word: WordFault) -> FormulaFault {
        FormulaFault::Word(word)
    }
}

impl From<FormulaFault> for SheetFault {
    ghost from_gives = { λ w r. r ≡ OfFormula w };

    fn from(formula: FormulaFault) -> SheetFault {
        SheetFault::Formula(formula)
    }
}

impl From<NameFault> for SheetFault {
    ghost from_gives = { λ w r. r ≡ OfName w };

    fn from(name: NameFault) -> SheetFault {
        SheetFault::Name(name)
    }
}
