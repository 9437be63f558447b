//! What reading a sheet makes: rows, names, and at last a formula with its names.
ghost use Rattle.std.specs.Prelude.{◌≡◌, ◌≤◌, length, min};
ghost use Rattle.sheet.specs.Cuts.{end_of};
ghost use Rattle.sheet_reader.specs.Sound.{Sound, sound_prop};

use arrayvec::ArrayVec;
use ltl::formula::Formula;
use ltl::row::Row;
use sheet::words::{Word, Words};

pub mod labels;
mod prefix;
mod rows;
mod search;
pub mod signals;

pub use prefix::read;

/// A declared name: its place and its bytes' number in the sheet, and the row that it names.
// An offset and a length, and no slice: a name outlives the text that was read.
// `Default`, since an `ArrayVec` fills its free places with it.
#[derive(Clone, Copy, Default)]
struct Name {
    at: usize,
    len: usize,
    row: usize,
}

/// The declared names, at most one for each of 64 rows, in the order of their lines.
type Names = ArrayVec<Name, 64>;

/// Names in the sheet that declares them.
#[derive(Clone, Copy)]
struct Declared<'a> {
    sheet: &'a [u8],
    names: &'a Names,
}

/// Rows in the making: the first 64 of `count`. Rows past these are counted and not kept, since
/// whether a line's rows are too many is asked only after its grammar.
#[derive(Drop)]
struct Draft {
    rows: ArrayVec<Row, 64>,
    count: usize,
    ghost kept: { length rows.items ≡ min count 64 },
}

/// A sheet as read so far: its rows, names and signals, and the watch row once its line is read.
// A line changes it only once nothing of the line can be refused: its ghost fields hold after an `Err` too.
#[derive(Drop)]
struct Plan {
    draft: Draft,
    names: Names,
    width: u8,
    watch: Option<usize>,
    ghost counted: { draft.count ≤ 64 },
    ghost sound: { Sound (record { rows = draft.rows.items; names = names.items; width = width; watch = watch }) } by { sound_prop _ },
}

/// A line behind its keyword: the sheet, the words that are left, and the keyword's place.
#[derive(Clone, Copy)]
struct Line<'a> {
    sheet: &'a [u8],
    words: Words<'a>,
    first: usize,
    ghost short: { end_of words ≤ 4096 },
}

/// A sheet that was read: its formula, and the names of its rows.
#[derive(Drop)]
pub struct Sheet {
    pub formula: Formula,
    names: Names,
}

/// A row's label: its name, which is a word of the sheet, or the spare text.
// No `Result` or `Option`: the spare text is no error, and either case has its text.
#[derive(Clone, Copy, Debug)]
pub enum Label<'a> {
    Sheet(Word<'a>),
    Spare { text: &'a [u8] },
}
