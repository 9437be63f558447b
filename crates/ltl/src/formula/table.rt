//! Making a formula from rows, and reading its rows.
ghost use Rattle.std.specs.Prelude.{◌≡◌, ◌<◌, ◌≤◌, length, IfSome, if◌then◌else◌, Some, None, MatchBool, MatchOption, nat_lt, slice_index_or};
ghost use Rattle.ltl.specs.declared.row.Row.TheVariants.{Signal};
ghost use Rattle.ltl.specs.Rows.{Fits};
ghost use Rattle.ltl.specs.Tables.{WellFormed, AllFit, table_from};
ghost use Rattle.ltl.specs.Formulas.{rows_of, row_count, width_of, table};

use super::Formula;
use crate::row::Row;
use arrayvec::ArrayVec;

/// Whether each row may stand where it does.
fn all_fit(rows: &[Row], width: u8) -> bool
    ensures { MatchBool result (AllFit width rows.now) (¬ AllFit width rows.now) }
{
    rows.iter().enumerate().all(|(r, row)| row.fits(width, r))
}

impl Formula {
    /// The formula of these rows, or nothing where they make none.
    pub fn new(width: u8, rows: &[Row], watch: usize) -> Option<Formula>
        ensures { MatchOption result (¬ WellFormed (table_from width rows.now watch)) (λ f. (table f ≡ table_from width rows.now watch) × WellFormed (table f)) }
    {
        let rows = ArrayVec::try_from(rows).ok()?;
        if !(1..=32).contains(&width) || watch >= rows.len() || !all_fit(rows.as_slice(), width) {
            return None;
        }
        Some(Formula { width, rows, watch })
    }

    /// How many signals the formula has, W.
    pub fn width(&self) -> u8
        ensures value { result ≡ width_of self.now }
        ensures within { (1 ≤ result) × (result ≤ 32) }
    {
        self.width
    }

    /// The rows by number.
    pub fn rows(&self) -> &[Row]
        ensures value { result.now ≡ rows_of self.now }
        ensures well_formed { WellFormed (table self.now) }
    {
        self.rows.as_slice()
    }

    /// How many rows the formula has, R.
    pub fn row_count(&self) -> usize
        ensures value { result ≡ row_count self.now }
        ensures within { (1 ≤ result) × (result ≤ 64) }
        ensures counted { result ≡ length (rows_of self.now) }
    {
        self.rows.len()
    }

    /// The number of the watch row.
    pub fn watch(&self) -> usize
        ensures value { result ≡ (table self.now).watch }
        ensures within { result < row_count self.now }
    {
        self.watch
    }

    /// The row with this number, if there is one.
    pub fn row(&self, r: usize) -> Option<Row>
        ensures value { result ≡ (if nat_lt r (row_count self.now) then Some (slice_index_or (rows_of self.now) r (Signal 0)) else None) }
        ensures fits { IfSome result (λ row. (r < length (rows_of self.now)) × Fits (width_of self.now) r row) }
    {
        self.rows().get(r).copied()
    }
}
