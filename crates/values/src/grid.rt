//! A grid: rows and positions of values of one scale, in memory that is handed in.
ghost use Rattle.std.specs.Prelude.{◌≡◌, ◌<◌, length, MatchBool, MatchOption};
ghost use Rattle.values.specs.Grids.{place};
ghost use Rattle.values.specs.Tables.{HasCell, cell_of, Stored};

pub mod columns;

/// So many rows of so many positions. Row r at position i, counted from 1, is cell
/// r x positions + i - 1. Rows and positions that the memory does not hold have no cells.
// A slice with two numbers, and no vector of rows: the caller hands in the memory.
#[derive(Drop)]
pub struct Grid<'a, T> {
    cells: &'a mut [T],
    rows: usize,
    positions: usize,
}

impl<'a, T: Copy> Grid<'a, T> {
    /// The grid over this memory, of which nothing is written.
    pub fn new(cells: &'a mut [T], rows: usize, positions: usize) -> Grid<'a, T>
        ensures cells { result.cells.now ≡ cells.old }
        ensures rows { result.rows ≡ rows }
        ensures positions { result.positions ≡ positions }
    {
        Grid {
            cells,
            rows,
            positions,
        }
    }

    /// Whether row r at position i has a cell.
    pub fn has(&self, r: usize, i: usize) -> bool
        ensures { MatchBool result (HasCell self.now r i) (¬ HasCell self.now r i) }
    {
        self.rows
            .checked_mul(self.positions)
            .is_some_and(|all| all <= self.cells.len())
            && r < self.rows
            && (1..=self.positions).contains(&i)
    }

    /// The value of row r at position i, if it has a cell.
    pub fn get(&self, r: usize, i: usize) -> Option<T>
        ensures { MatchOption result (¬ HasCell self.now r i) (λ x. HasCell self.now r i × (x ≡ cell_of self.now r i x)) }
    {
        // An `if`, and no `then`: with that the check does not find the proof.
        if self.has(r, i) {
            Some(self.at(r, i))
        } else {
            None
        }
    }

    /// Where the cell of row r at position i stands.
    // `HasCell` is asked for, here and below, and no invariant: `has` is its test. Row and position stay two parameters: a struct of
    // them would be made anew at each call.
    #[tactic(auto, using(crate::proofs::Places::inside))]
    fn spot(&self, r: usize, i: usize) -> usize
        requires { HasCell self.now r i }
        ensures place { result ≡ place self.now.positions r i }
        ensures within { result < length self.now.cells.now }
    {
        r * self.positions + i - 1
    }

    /// The value of row r at position i.
    fn at(&self, r: usize, i: usize) -> T
        requires { HasCell self.now r i }
        ensures { result ≡ cell_of self.now r i result }
    {
        self.cells[self.spot(r, i)]
    }

    /// Writes the value of row r at position i.
    fn put(&mut self, r: usize, i: usize, v: T)
        requires { HasCell self.old r i }
        ensures { Stored self.old self.new r i v }
    {
        let k = self.spot(r, i);
        self.cells[k] = v;
    }
}
