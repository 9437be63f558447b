//! The rows that operators make.
ghost use Rattle.std.specs.Prelude.{◌≡◌, ◌+◌, ◌-◌, ◌<◌, ◌≤◌, List, [], ◌∷◌, ◌++◌, length, take};
ghost use Rattle.sheet_reader.specs.Drafts.{kept, Agree};
ghost use Rattle.sheet_reader.specs.Rows.{rows1, rows2, size1, size2};

use super::Draft;
use arrayvec::ArrayVec;
use ltl::row::Row;
use sheet::token::{Binary, Unary};

/// A row number as a row that is kept holds it: such a row's operands are below 64.
fn operand(a: usize) -> u8
    ensures { a < 64 → result ≡ a }
{
    u8::try_from(a).unwrap_or(0)
}

impl Draft {
    /// No rows.
    pub(super) fn new() -> Draft
        ensures count { result.count ≡ 0 }
        ensures rows { kept result ≡ [] }
    {
        Draft {
            rows: ArrayVec::new(),
            count: 0,
        }
    }

    /// The same rows.
    // Not `Clone`, which may fail.
    pub(super) fn copied(&self) -> Draft
        ensures count { result.count ≡ self.now.count }
        ensures rows { kept result ≡ kept self.now }
    {
        Draft {
            rows: ArrayVec::try_from(self.rows.as_slice()).unwrap(),
            count: self.count,
        }
    }

    /// Counts one row more and keeps it where it is one of the first 64.
    #[tactic(auto, using(crate::proofs::Drafts::pushed_in, crate::proofs::Drafts::pushed_out))]
    pub(super) fn push(&mut self, row: Row)
        requires { self.old.count < 65536 }
        ensures count { self.new.count ≡ self.old.count + 1 }
        ensures rows { (x : Row) → (self.old.count < 64 → row ≡ x) → kept self.new ≡ take 64 (kept self.old ++ x ∷ []) }
    {
        if !self.rows.is_full() {
            self.rows.push(row);
        }
        self.count += 1;
    }

    /// The same with some rows, of which the last is the operator's own; tells its number.
    // `few` is no invariant of a draft: each row raises the count, and only the words of a sheet bound it.
    fn push_rows(&mut self, rows: &[Row]) -> usize
        requires few { self.old.count < 60000 }
        requires some { 0 < length rows.now }
        requires short { length rows.now ≤ 4 }
        ensures last { result ≡ self.old.count + length rows.now - 1 }
        ensures count { self.new.count ≡ self.old.count + length rows.now }
        ensures rows { (xs : List Row) → Agree self.old.count rows.now xs → kept self.new ≡ take 64 (kept self.old ++ xs) }
    {
        for row in rows {
            self.push(*row);
        }
        self.count - 1
    }

    /// Adds the rows of an operator of one operand, and tells the last.
    pub(super) fn close_one(&mut self, operator: Unary, a: usize) -> usize
        requires operand { a < self.old.count }
        requires few { self.old.count < 60000 }
        ensures last { result ≡ self.old.count + size1 operator - 1 }
        ensures count { self.new.count ≡ self.old.count + size1 operator }
        ensures rows { kept self.new ≡ take 64 (kept self.old ++ rows1 operator a self.old.count) }
    {
        let n = self.count;
        let a = operand(a);
        match operator {
            Unary::Not => self.push_rows(&[Row::Not(a)]),
            Unary::Next => self.push_rows(&[Row::Next(a)]),
            Unary::Eventually => self.push_rows(&[Row::Eventually(a)]),
            Unary::Always => {
                let rows = [
                    Row::Not(a),
                    Row::Eventually(operand(n)),
                    Row::Not(operand(n + 1)),
                ];
                self.push_rows(&rows)
            }
        }
    }

    /// Adds the rows of an operator of two operands, and tells the last.
    pub(super) fn close_two(&mut self, operator: Binary, a: usize, b: usize) -> usize
        requires left { a < self.old.count }
        requires right { b < self.old.count }
        requires few { self.old.count < 60000 }
        ensures last { result ≡ self.old.count + size2 operator - 1 }
        ensures count { self.new.count ≡ self.old.count + size2 operator }
        ensures rows { kept self.new ≡ take 64 (kept self.old ++ rows2 operator a b self.old.count) }
    {
        let n = self.count;
        let a = operand(a);
        let b = operand(b);
        match operator {
            Binary::Or => self.push_rows(&[Row::Or(a, b)]),
            Binary::Until => self.push_rows(&[Row::Until(a, b)]),
            Binary::Implies => self.push_rows(&[Row::Not(a), Row::Or(operand(n), b)]),
            Binary::And => {
                let either = Row::Or(operand(n), operand(n + 1));
                let rows = [Row::Not(a), Row::Not(b), either, Row::Not(operand(n + 2))];
                self.push_rows(&rows)
            }
        }
    }
}
