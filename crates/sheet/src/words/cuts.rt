//! Going through the parts of a text.
ghost use Rattle.std.specs.Prelude.{◌≡◌, ℕ, ◌+◌, ◌<◌, ◌≤◌, [], ◌∷◌, IfSome, length, drop, MatchOption, not, ◌==◌};
ghost use Rattle.std.specs.List.{take_while};
ghost use Rattle.std.specs.Iterator.{YieldsFirstBy, item_count};
ghost use Rattle.sheet.specs.Parts.{Part, part, parts};
ghost use Rattle.sheet.specs.Cuts.{part_of, parts_left, end_of, FirstPart};

use super::{Lines, Next, Parts, Word, Words};

impl<'a, const SEPARATOR: u8> Parts<'a, SEPARATOR> {
    /// The parts of a text.
    pub fn new(text: &'a [u8]) -> Parts<'a, SEPARATOR>
        ensures parts { parts_left result ≡ parts SEPARATOR 0 text.now }
        ensures end { end_of result ≡ length text.now }
    {
        Parts { rest: text, at: 0 }
    }

    /// The offset where the text ends.
    pub fn end(&self) -> usize
        ensures { result ≡ end_of self.now }
    {
        self.at + self.rest.len()
    }

    /// The next part. Besides what an iterator says of its items, the offset of the end stays.
    // Not clauses of `next`: with more than the trait's there, no `for` over the parts is proved.
    pub fn next_part(&mut self) -> Option<Word<'a>>
        ensures part { YieldsFirstBy part_of parts_left self.old result self.new }
        ensures within { IfSome result (λ w. w.at + length w.text.now ≤ end_of self.old) }
        ensures end { end_of self.new ≡ end_of self.old }
    {
        let word = first_part(self.rest, SEPARATOR)?;
        let at = self.at + word.at;
        let used = word.at + word.text.len();
        self.at += used;
        self.rest = &self.rest[used..];
        Some(Word {
            text: word.text,
            at,
        })
    }
}

impl<'a, const SEPARATOR: u8> Iterator for Parts<'a, SEPARATOR> {
    type Item = Word<'a>;

    ghost next_gives = { YieldsFirstBy part_of parts_left };

    ghost remaining = { item_count parts_left };

    fn next(&mut self) -> Option<Word<'a>> {
        self.next_part()
    }
}

impl<'a> Lines<'a> {
    /// The next line as its words, at their offsets in the whole text.
    pub fn next_words(&mut self) -> Option<Words<'a>>
        ensures line { MatchOption result ((parts_left self.old ≡ []) × (parts_left self.new ≡ [])) (λ w. (l : Part) × (parts_left self.old ≡ l ∷ parts_left self.new) × (parts_left w ≡ parts 32 l.at l.text) × (end_of w ≡ l.at + length l.text)) }
        ensures end { end_of self.new ≡ end_of self.old }
    {
        let line = self.next_part()?;
        Some(Parts {
            rest: line.text,
            at: line.at,
        })
    }
}

/// How many separators stand at the front.
// `s` and `separator` stay parameters of these five functions: a struct of them would be `Parts`, which is made of what they tell.
fn gap_len(s: &[u8], separator: u8) -> usize
    ensures { result ≡ length (take_while (λ b. b == separator) s.now) }
{
    s.iter().take_while(|b| **b == separator).count()
}

/// How many bytes stand before the first separator, or all.
// Beside `gap_len`, which differs in one sign: a test as a parameter would be longer than either line.
pub fn run_len(s: &[u8], separator: u8) -> usize
    ensures { result ≡ length (take_while (λ b. not (b == separator)) s.now) }
{
    s.iter().take_while(|b| **b != separator).count()
}

/// The part that begins at an offset, after separators alone.
fn part_at<'a>(s: &'a [u8], separator: u8, at: usize) -> Word<'a>
    requires gap { at ≡ length (take_while (λ b. b == separator) s.now) }
    requires within { at < length s.now }
    ensures { FirstPart separator s.now (part_of result) }
{
    let end = at + run_len(&s[at..], separator);
    Word {
        text: &s[at..end],
        at,
    }
}

/// The first part of `s`, at its offset there.
#[tactic(auto, using(crate::proofs::Scans::no_part))]
fn first_part<'a>(s: &'a [u8], separator: u8) -> Option<Word<'a>>
    ensures { MatchOption result ((p : ℕ) → parts separator p s.now ≡ []) (λ w. FirstPart separator s.now (part_of w)) }
{
    let at = gap_len(s, separator);
    if at >= s.len() {
        return None;
    }
    Some(part_at(s, separator, at))
}

/// The first word of `s`, or nothing where `s` holds only separators.
// Beside the iterator: the separator may be known only where the program runs, and the rest is told in bytes.
pub fn next_word<'a>(s: &'a [u8], separator: u8) -> Option<Next<'a>>
    ensures { MatchOption result ((p : ℕ) → parts separator p s.now ≡ []) (λ w. (0 < w.used) × (w.used ≤ length s.now) × (w.word.at + length w.word.text.now ≡ w.used) × ((p : ℕ) → parts separator p s.now ≡ part w.word.text.now (p + w.word.at) ∷ parts separator (p + w.used) (drop w.used s.now))) }
{
    let word = first_part(s, separator)?;
    let used = word.at + word.text.len();
    Some(Next { word, used })
}
