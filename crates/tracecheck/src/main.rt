//! Judges a request-grant bench over the steps that standard input tells, one line a step.
#![tactic(auto)]

mod bench;
mod signals;

use anyhow::anyhow;
use bench::bench;
use heap_grid::cells::values_and_counts;
use ltl::formula::Formula;
use recorder::plain::{LIMIT, PlainRecorder};
use recorder::recording::{Recorder, Recording};
use scales::pair::Pair;
use scales::truth::Truth;
use signals::read_line;
use std::alloc::Global;
use std::fmt::Write;
use std::io::{BufRead, BufReader};
use std::process::ExitCode;
use values::grid::Grid;

/// Records the step of one line, or says what is wrong with the line.
// Beside `record_lines` of `input`: this program reads a line at a time, and tells its number.
fn record_line<R: Recorder>(
    recorder: &mut R,
    heap: Global,
    line: &str,
    number: u64,
) -> anyhow::Result<()> {
    match read_line(line.as_bytes()) {
        Ok(None) => Ok(()),
        Ok(Some(step)) => match recorder.record(step) {
            Ok(_) => Ok(()),
            Err(fault) => {
                let refusal = fault.refusal();
                Err(anyhow!(format!(in heap; "line {number}: {refusal}: {fault}")?))
            }
        },
        Err(strange) => {
            let at = strange.at;
            Err(anyhow!(format!(in heap;
                "line {number}: the word at {at} is not r, g, or - alone"
            )?))
        }
    }
}

/// Records the step of every line of standard input.
fn record_lines<R: Recorder>(rt: &HostRuntime, recorder: &mut R) -> anyhow::Result<()> {
    let heap = rt.alloc();
    for (number, line) in (1..u64::MAX).zip(BufReader::new(heap, rt.stdin())?.lines(heap)) {
        match line {
            Ok(line) => record_line(recorder, heap, line.as_str(), number)?,
            Err(e) => return Err(anyhow!(format!(in heap; "line {number}: {e}")?)),
        }
    }
    Ok(())
}

/// Writes one line for each row at position i.
fn rows_at(
    text: &mut String,
    heap: Global,
    formula: &Formula,
    values: &Grid<Truth>,
    counts: &Grid<Pair>,
    i: usize,
) -> anyhow::Result<()> {
    for (r, row) in formula.rows().iter().enumerate() {
        let (Some(value), Some(pair)) = (values.get(r, i), counts.get(r, i)) else {
            return Err(anyhow!("a row has no cell"));
        };
        let row = format!(in heap; "{row}")?;
        let value = format!(in heap; "{value}")?;
        writeln!(text, "  row {r}  {row:<14} {value:<10} {pair}")?;
    }
    Ok(())
}

/// The whole report on a formula over a recording.
// Formula and recording stay two parameters, as at `evaluate`.
fn report<R: Recording>(heap: Global, formula: &Formula, recording: &R) -> anyhow::Result<String> {
    let n = recording.len();
    let rows = formula.row_count();
    let (mut values, mut counts) = values_and_counts(heap, formula, recording)?;
    let values = Grid::new(values.as_mut_slice(), rows, n + 1);
    let counts = Grid::new(counts.as_mut_slice(), rows, n + 1);
    let mut text = String::new(heap);
    let watch = formula.watch();
    writeln!(
        text,
        "always implies r eventually g: signal 0 is r, signal 1 is g, row {watch} is watched"
    )?;
    // A range, since `i` is the position that is printed.
    for i in 1..=n + 1 {
        if i <= n {
            let step = recording.step(i);
            writeln!(text, "position {i}, step {step}")?;
        } else {
            writeln!(text, "position {i}, after the last step")?;
        }
        rows_at(&mut text, heap, formula, &values, &counts, i)?;
    }
    writeln!(text, "steps accepted: {n}")?;
    Ok(text)
}

/// Reads all, judges all, and only then prints.
fn run(rt: &HostRuntime) -> anyhow::Result<()> {
    let heap = rt.alloc();
    let formula = bench();
    let mut words = vec![in heap; 0u32; LIMIT]?;
    // Not `map_err(..)?`: the error holds the words that were handed in, and no proof is made of a closure over it.
    let mut recorder = match PlainRecorder::open(formula.width(), words.as_mut_slice()) {
        Ok(recorder) => recorder,
        Err(refused) => return Err(refused.fault.into()),
    };
    record_lines(rt, &mut recorder)?;
    let text = report(heap, &formula, &recorder)?;
    rt.print(text.as_str())?;
    Ok(())
}

// Beside that of `sheetcheck`: a shared one would take the runtime, the name and the outcome.
fn main(rt: HostRuntime) -> ExitCode {
    match run(&rt) {
        Ok(()) => ExitCode::SUCCESS,
        Err(e) => {
            let _ = rt.eprintln(format_args!("tracecheck: {e}"));
            ExitCode::FAILURE
        }
    }
}
