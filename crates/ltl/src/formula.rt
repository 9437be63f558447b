//! A formula: its signals, its rows by number, and the row that is watched.
ghost use Rattle.std.proofs.Props.{props};
ghost use Rattle.ltl.specs.Rows.{fits_prop};
ghost use Rattle.ltl.specs.Tables.{WellFormed, table_from};

use crate::row::Row;
use arrayvec::ArrayVec;

/// A formula of 1 to 32 signals and 1 to 64 rows. In every one that exists, each row's operands
/// have smaller numbers than the row, its signals lie below the width, and the watch row is a row.
#[derive(Drop)]
pub struct Formula {
    width: u8,
    rows: ArrayVec<Row, 64>,
    watch: usize,
    ghost well_formed: { WellFormed (table_from width rows.items watch) } by { Prim.hlevel (props, fits_prop) },
}

mod table;
