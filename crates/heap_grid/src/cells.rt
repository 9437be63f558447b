//! The value of every row at every position, in memory of its own.
ghost use Rattle.std.specs.Prelude.{◌≡◌, List, IfOk, zip};
ghost use Rattle.scales.specs.Pairs.{pair_ops, truer_pair};
ghost use Rattle.scales.specs.Truths.{truth_ops, truer};
ghost use Rattle.scales.specs.declared.pair.Pair.{Pair};
ghost use Rattle.scales.specs.declared.truth.Truth.{Truth};
ghost use Rattle.heap_grid.specs.Cells.{AreCells};

use ltl::formula::Formula;
use recorder::recording::Recording;
use scales::pair::Pair;
use scales::scale::Scale;
use scales::truth::Truth;
use std::alloc::{AllocError, Global};
use values::grid::columns::evaluate;

/// The value of every row at every position from 1 to n + 1, and no other cells.
// Formula and recording stay two parameters, as at `evaluate`.
pub fn filled<S: Scale, R: Recording>(
    heap: Global,
    formula: &Formula,
    recording: &R,
) -> Result<Vec<S>, AllocError>
    ensures { IfOk result (λ v. AreCells S.ops S.atleast (R.width recording.now) (R.steps recording.now) formula.now v.items) }
{
    let cells = formula.row_count() * (recording.len() + 1);
    let mut values = vec![in heap; S::past(); cells]?;
    evaluate(formula, recording, values.as_mut_slice()).unwrap();
    Ok(values)
}

/// The three-valued value and the pair of counts of every row at every position, each in cells of their own.
// Two vectors, and not one of both: that stands beside the two while it is made.
pub fn values_and_counts<R: Recording>(
    heap: Global,
    formula: &Formula,
    recording: &R,
) -> Result<(Vec<Truth>, Vec<Pair>), AllocError>
    ensures { IfOk result (λ v. AreCells truth_ops truer (R.width recording.now) (R.steps recording.now) formula.now v.0.items × AreCells pair_ops truer_pair (R.width recording.now) (R.steps recording.now) formula.now v.1.items) }
{
    let values: Vec<Truth> = filled(heap, formula, recording)?;
    let counts: Vec<Pair> = filled(heap, formula, recording)?;
    Ok((values, counts))
}

/// Values and counts, cell by cell.
fn paired(heap: Global, values: &[Truth], counts: &[Pair]) -> Result<Vec<(Truth, Pair)>, AllocError>
    ensures { IfOk result (λ v. v.items ≡ zip values.now counts.now) }
{
    values
        .iter()
        .copied()
        .zip(counts.iter().copied())
        .collect(heap)
}

/// The same, value and pair cell by cell.
pub fn judged<R: Recording>(
    heap: Global,
    formula: &Formula,
    recording: &R,
) -> Result<Vec<(Truth, Pair)>, AllocError>
    ensures { IfOk result (λ v. (values : List Truth) × (counts : List Pair) × AreCells truth_ops truer (R.width recording.now) (R.steps recording.now) formula.now values × AreCells pair_ops truer_pair (R.width recording.now) (R.steps recording.now) formula.now counts × (v.items ≡ zip values counts)) }
{
    let (values, counts) = values_and_counts(heap, formula, recording)?;
    paired(heap, values.as_slice(), counts.as_slice())
}
