//! The line reader: signal, name and watch lines, and the sheet that they make.
ghost use Rattle.std.specs.Prelude.{◌≡◌, ◌≤◌, ◌<◌, length, Ok, Err, MatchResult, not, position};
ghost use Rattle.sheet.specs.Cuts.{part_of, parts_left, end_of};
ghost use Rattle.sheet.specs.Tokens.{token_of};
ghost use Rattle.sheet.specs.declared.token.Keyword.TheVariants as key;
ghost use Rattle.sheet_faults.specs.declared.fault.SheetFault.TheVariants.{TooMany};
ghost use Rattle.sheet_reader.specs.Names.{named, within};
ghost use Rattle.sheet_reader.specs.Sheets.{start, lines, ask_keyword, name_fault, unless, ask_name, ask_operator, by_words, by_lines, finished, allowed, foreign_byte, read_sheet};
ghost use Rattle.sheet_reader.specs.States.{state_of, told_plan, told_left, by_line};
ghost use Rattle.sheet_reader.specs.Promises.{Promised};
ghost use Rattle.sheet_reader.specs.Readings.{told};

use super::super::{Declared, Draft, Line, Name, Names, Plan, Sheet};
use super::{nothing_more, wanted_word};
use ltl::formula::Formula;
use ltl::row::Row;
use sheet::token::{Keyword, Token, is_reserved};
use sheet::words::{Lines, Word, Words};
use sheet_faults::fault::{FormulaFault, NameFault, SheetFault};

/// The most bytes of a sheet.
const MOST: usize = 4096;

/// The most signals and the most rows of a formula.
const SIGNALS: u8 = 32;

const ROWS: usize = 64;

/// The most bytes of a name.
const NAME: usize = 16;

/// Question 3: the keyword that a line begins with, after no watch line.
fn line_keyword(word: Word, watch: Option<usize>) -> Result<Keyword, SheetFault>
    ensures { result ≡ ask_keyword watch word.entry.at (token_of word.entry.text.now word.entry.at) }
{
    let at = word.at;
    match (Token::from(word), watch) {
        (Token::Keyword(keyword), None) => Ok(keyword),
        (Token::Keyword(_), Some(_)) => Err(SheetFault::AfterWatch { at }),
        _ => Err(SheetFault::NoKeyword { at }),
    }
}

/// Question 5 on a name line: whether a formula begins with an operator. Looks at a copy of the words.
fn operator_first(mut words: Words) -> Result<(), FormulaFault>
    ensures { result ≡ ask_operator (parts_left words.entry) (end_of words.entry) }
{
    let word = wanted_word(&mut words)?;
    match Token::from(word) {
        Token::Operator(_) => Ok(()),
        _ => Err(FormulaFault::NoOperator { at: word.at }),
    }
}

impl Name {
    /// A word as the name of a row.
    fn new(word: Word, row: usize) -> Name
        ensures { result ≡ named (part_of word.entry) row }
    {
        Name {
            at: word.at,
            len: word.text.len(),
            row,
        }
    }
}

impl<'a> Declared<'a> {
    /// Question 4 of a second word: whether it may become a name.
    fn fresh(&self, word: Word) -> Result<(), NameFault>
        ensures { result ≡ unless (within name_fault self.now (part_of word.entry)) }
    {
        let at = word.at;
        if is_reserved(word.text) {
            return Err(NameFault::Reserved { at });
        }
        if self.row_named(word.text).is_some() {
            return Err(NameFault::Taken { at });
        }
        if word.text.len() > NAME {
            return Err(NameFault::TooLong { at });
        }
        Ok(())
    }

    /// Question 4: the new name that the words begin with.
    fn new_name<'b>(&self, words: &mut Words<'b>) -> Result<Word<'b>, NameFault>
        ensures name { MatchResult result (λ w. within ask_name self.now (parts_left words.old) (end_of words.old) ≡ Ok (part_of w, parts_left words.new)) (λ f. within ask_name self.now (parts_left words.old) (end_of words.old) ≡ Err f) }
        ensures end { end_of words.new ≡ end_of words.old }
    {
        let word = words
            .next_part()
            .ok_or(NameFault::Missing { at: words.end() })?;
        self.fresh(word)?;
        Ok(word)
    }
}

impl Draft {
    /// Question 6 for the rows of a line whose keyword stands at `first`.
    fn room(&self, first: usize) -> Result<(), SheetFault>
        ensures { MatchResult result (λ _. self.now.count ≤ 64) (λ f. (64 < self.now.count) × (f ≡ TooMany first)) }
    {
        if self.count > ROWS {
            return Err(SheetFault::TooMany { at: first });
        }
        Ok(())
    }
}

impl Plan {
    /// A plan that has read nothing.
    fn new() -> Plan
        ensures { state_of result ≡ start }
    {
        Plan {
            draft: Draft::new(),
            names: Names::new(),
            width: 0,
            watch: None,
        }
    }

    /// Adds a signal line.
    #[tactic(auto, using(crate::proofs::Plans::signal_makes))]
    fn add_signal(&mut self, line: Line) -> Result<(), SheetFault>
        ensures { told_left result self.new ≡ by_line key.Signal line.entry (state_of self.old) }
    {
        let mut words = line.words;
        let declared = Declared::new(line.sheet, &self.names);
        let name = declared.new_name(&mut words)?;
        nothing_more(words)?;
        if self.width >= SIGNALS || self.draft.count >= ROWS {
            return Err(SheetFault::TooMany { at: line.first });
        }
        self.names.push(Name::new(name, self.draft.count));
        self.draft.push(Row::Signal(self.width));
        self.width += 1;
        Ok(())
    }

    /// Adds a name line.
    #[tactic(auto, using(crate::proofs::Plans::known_in, crate::proofs::Plans::name_full, crate::proofs::Plans::name_room, crate::proofs::Plans::name_makes))]
    fn add_name(&mut self, line: Line) -> Result<(), SheetFault>
        ensures { told_left result self.new ≡ by_line key.Name line.entry (state_of self.old) }
    {
        let mut draft = self.draft.copied();
        let mut words = line.words;
        let declared = Declared::new(line.sheet, &self.names);
        let name = declared.new_name(&mut words)?;
        operator_first(words)?;
        let row = declared.whole_formula(words, &mut draft)?;
        draft.room(line.first)?;
        self.names.push(Name::new(name, row));
        self.draft = draft;
        Ok(())
    }

    /// Adds the watch line.
    #[tactic(auto, using(crate::proofs::Plans::known_in, crate::proofs::Plans::watch_sound))]
    fn add_watch(&mut self, line: Line) -> Result<(), SheetFault>
        ensures { told_left result self.new ≡ by_line key.Watch line.entry (state_of self.old) }
    {
        let mut draft = self.draft.copied();
        let declared = Declared::new(line.sheet, &self.names);
        let row = declared.whole_formula(line.words, &mut draft)?;
        draft.room(line.first)?;
        self.draft = draft;
        self.watch = Some(row);
        Ok(())
    }

    /// Adds one line more, which stands at its place in the sheet.
    fn add_line(&mut self, sheet: &[u8], mut words: Words) -> Result<(), SheetFault>
        requires { end_of words ≤ 4096 }
        ensures { told_left result self.new ≡ by_words sheet.now (state_of self.old) (parts_left words.entry) (end_of words.entry) }
    {
        let Some(word) = words.next_part() else {
            return Ok(());
        };
        let keyword = line_keyword(word, self.watch)?;
        let line = Line {
            sheet,
            words,
            first: word.at,
        };
        // A match and no table of functions: it names each kind of line once.
        match keyword {
            Keyword::Signal => self.add_signal(line),
            Keyword::Name => self.add_name(line),
            Keyword::Watch => self.add_watch(line),
        }
    }

    /// Question 7: the formula of the lines and its names.
    #[tactic(auto, using(crate::proofs::Plans::plan_formed))]
    fn finish(self, sheet: &[u8]) -> Result<Sheet, SheetFault>
        ensures { told result ≡ finished (length sheet.now) (state_of self) self.watch }
    {
        let watch = self.watch.ok_or(SheetFault::NoWatch { at: sheet.len() })?;
        Ok(Sheet {
            formula: Formula::new(self.width, &self.draft.rows, watch).unwrap(),
            names: self.names,
        })
    }
}

/// Reads the lines of a sheet.
#[tactic(auto, using(crate::proofs::Counts::line_inside))]
fn read_lines(sheet: &[u8]) -> Result<Plan, SheetFault>
    requires { length sheet.now ≤ 4096 }
    ensures { told_plan result ≡ by_lines sheet.now start (lines sheet.now) }
{
    let mut plan = Plan::new();
    let mut lines = Lines::new(sheet);
    // No `for`, since an item of `Lines` alone does not say that its end fits.
    while let Some(words) = lines.next_words() {
        plan.add_line(sheet, words)?;
    }
    Ok(plan)
}

/// Whether a sheet may hold a byte.
fn allowed(b: u8) -> bool
    ensures { result ≡ allowed b }
{
    matches!(b, b'\n' | 32..=126)
}

/// Where the first byte stands that a sheet may not hold.
fn first_foreign(sheet: &[u8]) -> Option<usize>
    ensures { result ≡ position (λ b. not (allowed b)) sheet.now }
{
    sheet.iter().position(|b| !allowed(*b))
}

/// Question 2: whether every byte is 10 or from 32 to 126.
#[tactic(auto, using(crate::proofs::Bytes::foreign_is))]
fn check_bytes(sheet: &[u8]) -> Result<(), SheetFault>
    ensures { result ≡ unless (foreign_byte 0 sheet.now) }
{
    first_foreign(sheet).map_or(Ok(()), |at| Err(SheetFault::ForeignByte { at }))
}

/// Asks the questions in their order.
// A function of its own: tried in one function twice, and the four goals stay open, one for each return.
fn asked(sheet: &[u8]) -> Result<Sheet, SheetFault>
    ensures { told result ≡ read_sheet sheet.now }
{
    if sheet.len() > MOST {
        return Err(SheetFault::TooLong);
    }
    check_bytes(sheet)?;
    read_lines(sheet)?.finish(sheet)
}

/// Reads a sheet: its formula with the names of its rows, or the first question answered no.
///
/// ```text
/// signal r
/// signal g
/// watch always implies r eventually g
/// ```
#[tactic(auto, using(crate::proofs::Promises::promised_of))]
pub fn read(sheet: &[u8]) -> Result<Sheet, SheetFault>
    ensures answer { told result ≡ read_sheet sheet.now }
    ensures promised { Promised sheet.now (told result) }
{
    asked(sheet)
}
