//! What a sheet that was read tells besides its formula: the labels of its rows, and its signals by name.
ghost use Rattle.std.specs.Prelude.{◌≡◌, ◌<◌, ◌≤◌, IfSome};
ghost use Rattle.sheet_reader.specs.Labels.{shown, label_text, told_label, label_of};
ghost use Rattle.sheet_reader.specs.Readings.{reading_of};
ghost use Rattle.sheet_reader.specs.Signals.{signal_named};

use super::{Declared, Label, Name, Sheet};
use ltl::row::Row;
use sheet::words::Word;
use sheet_faults::fault::NoSuchRow;

/// A name as a label, where the sheet is long enough to have it.
fn label_text<'a>(name: Option<Name>, sheet: &'a [u8], spare: &'a [u8]) -> Label<'a>
    ensures { shown result ≡ label_text name sheet.now spare.now }
{
    let Some(name) = name else {
        return Label::Spare { text: spare };
    };
    match sheet.get(name.at..).and_then(|rest| rest.get(..name.len)) {
        Some(text) => Label::Sheet(Word { text, at: name.at }),
        None => Label::Spare { text: spare },
    }
}

impl Sheet {
    /// The label of a row: its name in the sheet that was read, or the spare text where it has none or the sheet is
    /// too short for it.
    pub fn label<'a>(
        &self,
        sheet: &'a [u8],
        spare: &'a [u8],
        row: usize,
    ) -> Result<Label<'a>, NoSuchRow>
        ensures { told_label result ≡ label_of (reading_of self.now) sheet.now spare.now row }
    {
        if row >= self.formula.row_count() {
            return Err(NoSuchRow);
        }
        let declared = Declared::new(sheet, &self.names);
        Ok(label_text(declared.name_of(row), sheet, spare))
    }

    /// The signal that a word names, if it names one, by the sheet that was read.
    pub fn signal(&self, sheet: &[u8], word: &[u8]) -> Option<u8>
        ensures value { result ≡ signal_named (reading_of self.now) sheet.now word.now }
        ensures below { IfSome result (λ k. k < (reading_of self.now).table.width) }
        ensures few { (reading_of self.now).table.width ≤ 32 }
    {
        let declared = Declared::new(sheet, &self.names);
        match self.formula.row(declared.row_named(word)?) {
            Some(Row::Signal(k)) => Some(k),
            _ => None,
        }
    }
}
