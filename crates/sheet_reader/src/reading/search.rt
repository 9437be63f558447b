//! The row of a name, and the name of a row.
ghost use Rattle.std.specs.Prelude.{◌≡◌, Some, None, MatchResult};
ghost use Rattle.std.specs.List.{find};
ghost use Rattle.std.specs.Str.{bytes_eq};
ghost use Rattle.sheet_reader.specs.Names.{names_in, text_of, row_named, name_of, within};

use super::{Declared, Name, Names};
use sheet::words::Word;
use sheet_faults::fault::WordFault;

impl Name {
    /// Its bytes, as far as the sheet has them.
    fn text_in<'a>(&self, sheet: &'a [u8]) -> &'a [u8]
        ensures { result.now ≡ text_of sheet.now self.now }
    {
        let rest = &sheet[self.at.min(sheet.len())..];
        &rest[..self.len.min(rest.len())]
    }
}

impl<'a> Declared<'a> {
    /// A sheet with its names.
    pub(super) fn new(sheet: &'a [u8], names: &'a Names) -> Declared<'a>
        ensures { result ≡ record { sheet = sheet.entry; names = names.entry } }
    {
        Declared { sheet, names }
    }

    /// The first name with these bytes.
    // `copied` first: with `find` over references the check does not find the proof.
    fn first_named(&self, text: &[u8]) -> Option<Name>
        ensures { result ≡ find (λ n. bytes_eq (text_of self.now.sheet.now n) text.now) (names_in self.now.names.now) }
    {
        let sheet = self.sheet;
        self.names
            .iter()
            .copied()
            .find(|name| name.text_in(sheet) == text)
    }

    /// The row of the first name with these bytes.
    #[tactic(auto, using(crate::proofs::Searches::row_is))]
    pub(super) fn row_named(&self, text: &[u8]) -> Option<usize>
        ensures { result ≡ within row_named self.now text.now }
    {
        self.first_named(text).map(|name| name.row)
    }

    /// The same where a word has to be such a name.
    pub(super) fn row_of(&self, word: Word) -> Result<usize, WordFault>
        ensures { MatchResult result (λ row. within row_named self.now word.entry.text.now ≡ Some row) (λ f. (within row_named self.now word.entry.text.now ≡ None) × (f ≡ WordFault.Unknown word.entry.at)) }
    {
        self.row_named(word.text)
            .ok_or(WordFault::Unknown { at: word.at })
    }

    /// The first name of a row.
    // No chain: with `copied` before `find` a label took a third more time.
    pub(super) fn name_of(&self, row: usize) -> Option<Name>
        ensures { result ≡ name_of (names_in self.now.names.now) row }
    {
        for name in self.names.iter() {
            if name.row == row {
                return Some(*name);
            }
        }
        None
    }
}
