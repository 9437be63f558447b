//! The value of every row at every position: backward, column by column.
ghost use Rattle.std.specs.Prelude.{◌≡◌, ◌+◌, ◌≤◌, length, if◌then◌else◌, nat_le, slice_index_or};
ghost use Rattle.ltl.specs.Formulas.{rows_of, row_count};
ghost use Rattle.ltl.specs.declared.row.Row.TheVariants.{Signal};
ghost use Rattle.ltl.specs.Steps.{step_at, set_of};
ghost use Rattle.ltl.specs.Values.{signal_value};
ghost use Rattle.values.specs.Answers.{evaluated, Filled, Left};
ghost use Rattle.values.specs.Grids.{Ready};
ghost use Rattle.values.specs.Tables.{meaning, HasCell, cell_of, Stands, Frame};

use super::Grid;
use crate::fault::GridTooSmall;
use ltl::formula::Formula;
use ltl::row::Row;
use ltl::step::Step;
use recorder::recording::Recording;
use scales::scale::Scale;

/// A formula, and the recording that it is evaluated over.
// The grid is passed beside it: of a `&mut` in a struct in a struct, `evaluate` could not prove what it leaves.
#[derive(Drop)]
struct Evaluation<'f, 'r, R> {
    formula: &'f Formula,
    recording: &'r R,
}

impl<'f, 'r, R: Recording> Evaluation<'f, 'r, R> {
    /// The value of signal k at position i, where the step is this one.
    fn signal<S: Scale>(&self, step: Step, k: u8, i: usize) -> S
        requires { set_of step ≡ step_at (R.steps self.now.recording.now) i }
        ensures { result ≡ signal_value S.ops (R.steps self.now.recording.now) k i }
    {
        if i > self.recording.len() {
            return S::past();
        }
        if step.has(k) { S::yes() } else { S::no() }
    }

    /// Later of row r at the next position, or the open value after the last step.
    fn ahead<S: Scale>(&self, grid: &Grid<S>, r: usize, i: usize) -> S
        requires { i ≤ length (R.steps self.now.recording.now) → HasCell grid.now r (i + 1) }
        ensures { result ≡ (if nat_le i (length (R.steps self.now.recording.now)) then S.ops.later (cell_of grid.now r (i + 1) S.ops.no) else S.ops.«open») }
    {
        if i <= self.recording.len() {
            grid.at(r, i + 1).later()
        } else {
            S::open()
        }
    }

    /// The value of this row, which is row r, at position i, where the rows below it there, and all rows after there, stand in the grid.
    #[tactic(auto, using(crate::proofs::Cells::of_row))]
    fn cell<S: Scale>(&self, grid: &Grid<S>, step: Step, row: Row, r: usize, i: usize) -> S
        requires row { row ≡ slice_index_or (rows_of self.now.formula.now) r (Signal 0) }
        requires inside { HasCell grid.now r i }
        requires stands { Stands S.ops (R.steps self.now.recording.now) self.now.formula.now grid.now i r }
        requires step { set_of step ≡ step_at (R.steps self.now.recording.now) i }
        ensures { result ≡ meaning S.ops (R.steps self.now.recording.now) self.now.formula.now r i }
    {
        match row {
            Row::Signal(k) => self.signal(step, k, i),
            Row::Not(a) => grid.at(usize::from(a), i).turn(),
            Row::Or(a, b) => grid.at(usize::from(a), i).join(grid.at(usize::from(b), i)),
            Row::Next(a) => {
                let j = if i <= self.recording.len() { i + 1 } else { i };
                grid.at(usize::from(a), j).later()
            }
            Row::Until(a, b) => {
                let x = grid.at(usize::from(a), i);
                let y = grid.at(usize::from(b), i);
                y.join(x.meet(self.ahead(grid, r, i)))
            }
            Row::Eventually(a) => grid.at(usize::from(a), i).join(self.ahead(grid, r, i)),
        }
    }

    /// Fills column i, where the columns after it stand.
    #[tactic(auto, using(crate::proofs::Columns::column_has))]
    fn column<S: Scale>(&self, grid: &mut Grid<S>, i: usize)
        requires within { (1 ≤ i) × (i ≤ grid.old.positions) }
        requires stands { Stands S.ops (R.steps self.now.recording.now) self.now.formula.now grid.old i 0 }
        ensures stands { Stands S.ops (R.steps self.now.recording.now) self.now.formula.now grid.new i (row_count self.now.formula.now) }
        ensures frame { Frame grid.old grid.new }
    {
        let step = self.recording.step(i);
        for (r, row) in self.formula.rows().iter().enumerate() {
            let v = self.cell(grid, step, *row, r, i);
            grid.put(r, i, v);
        }
    }

    /// Fills the grid: every cell of a row and a position holds the row's value there.
    #[tactic(auto, using(crate::proofs::Columns::one_column_more))]
    fn fill<S: Scale>(&self, grid: &mut Grid<S>)
        requires { Ready (row_count self.now.formula.now) (length (R.steps self.now.recording.now)) (length grid.old.cells.now) grid.old.rows grid.old.positions }
        ensures cells { Filled S.ops S.atleast (R.width self.now.recording.now) (R.steps self.now.recording.now) self.now.formula.now grid.old.cells.now grid.new.cells.now }
        ensures memory { grid.new.cells.ghost_name ≡ grid.old.cells.ghost_name }
    {
        // A range, since `i` is the position, and the columns are filled backward.
        for i in (1..=grid.positions).rev() {
            self.column(grid, i);
        }
    }
}

/// Fills the cells with the value of every row at every position from 1 to n + 1, whatever they held.
/// Cells past these stay, and a grid that is too small is left as it is.
// Formula and recording stay two parameters: callers have them apart, and would make a struct of them for this call alone.
pub fn evaluate<S: Scale, R: Recording>(
    formula: &Formula,
    recording: &R,
    cells: &mut [S],
) -> Result<(), GridTooSmall>
    ensures answer { result ≡ evaluated (row_count formula.now) (length (R.steps recording.now)) (length cells.old) }
    ensures cells { Left S.ops S.atleast (R.width recording.now) (R.steps recording.now) formula.now cells.old cells.new result }
{
    let rows = formula.row_count();
    let positions = recording.len() + 1;
    if cells.len() < rows * positions {
        return Err(GridTooSmall);
    }
    let mut grid = Grid {
        cells,
        rows,
        positions,
    };
    Evaluation { formula, recording }.fill(&mut grid);
    Ok(())
}
