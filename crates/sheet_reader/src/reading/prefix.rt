//! The prefix reader: the words of a formula, and the rows that it makes.
ghost use Rattle.std.specs.Prelude.{◌≡◌, ◌+◌, ◌*◌, ◌<◌, ◌≤◌, [], ◌∷◌, length, Err, IfOk, OnOk, MatchResult};
ghost use Rattle.sheet.specs.Cuts.{part_of, parts_left, end_of};
ghost use Rattle.sheet_reader.specs.Drafts.{kept, Known, line, Got, Bad, Whole};
ghost use Rattle.sheet_reader.specs.Names.{within};
ghost use Rattle.sheet_reader.specs.Sheets.{ask_nothing, ask_formula};

use super::{Declared, Draft};
use sheet::token::{Operator, Token};
use sheet::words::{Word, Words};
use sheet_faults::fault::{FormulaFault, WordFault};

mod lines;

pub use lines::read;

/// The next word, where one is wanted.
fn wanted_word<'a>(words: &mut Words<'a>) -> Result<Word<'a>, WordFault>
    ensures word { MatchResult result (λ w. parts_left words.old ≡ part_of w ∷ parts_left words.new) (λ f. (parts_left words.old ≡ []) × (f ≡ WordFault.Missing (end_of words.old))) }
    ensures end { end_of words.new ≡ end_of words.old }
{
    words
        .next_part()
        .ok_or(WordFault::Missing { at: words.end() })
}

/// Question 5 where a line is complete: no word follows. Looks at a copy of the words.
fn nothing_more(mut words: Words) -> Result<(), FormulaFault>
    ensures { result ≡ ask_nothing (parts_left words.entry) }
{
    words
        .next_part()
        .map_or(Ok(()), |word| Err(FormulaFault::Surplus { at: word.at }))
}

impl<'a> Declared<'a> {
    /// Reads one formula from the front of the words, and tells its row.
    fn formula(&self, words: &mut Words, draft: &mut Draft) -> Result<usize, FormulaFault>
        requires known { within Known self.now draft.old.count }
        requires few { draft.old.count + 4 * length (parts_left words.old) ≤ 20000 }
        ensures row { IfOk result (λ row. row < draft.new.count) }
        ensures grows { OnOk result (draft.old.count ≤ draft.new.count) }
        ensures few { OnOk result (draft.new.count + 4 * length (parts_left words.new) ≤ draft.old.count + 4 * length (parts_left words.old)) }
        ensures formula { MatchResult result (λ row. Got (within line self.now words.old) (within line self.now words.new) (end_of words.old) draft.old.count (kept draft.old) draft.new.count (kept draft.new) row) (λ f. Bad (within line self.now words.old) (end_of words.old) f) }
        ensures end { end_of words.new ≡ end_of words.old }
    {
        let word = wanted_word(words)?;
        match Token::from(word) {
            Token::Operator(Operator::One(operator)) => {
                let a = self.formula(words, draft)?;
                Ok(draft.close_one(operator, a))
            }
            Token::Operator(Operator::Two(operator)) => {
                let a = self.formula(words, draft)?;
                let b = self.formula(words, draft)?;
                Ok(draft.close_two(operator, a, b))
            }
            Token::Keyword(_) => Err(FormulaFault::Word(WordFault::Unknown { at: word.at })),
            Token::Name(word) => Ok(self.row_of(word)?),
        }
    }

    /// Reads all the words as one formula, and tells its row.
    #[tactic(auto, using(crate::proofs::Counts::few_parts, crate::proofs::Wholes::whole))]
    fn whole_formula(&self, mut words: Words, draft: &mut Draft) -> Result<usize, FormulaFault>
        requires known { within Known self.now draft.old.count }
        requires few { draft.old.count ≤ 64 }
        requires short { end_of words ≤ 4096 }
        ensures { MatchResult result (λ row. within Whole self.now (parts_left words.entry) (end_of words.entry) draft.old.count (kept draft.old) draft.new.count (kept draft.new) row) (λ f. within ask_formula self.now (parts_left words.entry) (end_of words.entry) ≡ Err f) }
    {
        let row = self.formula(&mut words, draft)?;
        nothing_more(words)?;
        Ok(row)
    }
}
