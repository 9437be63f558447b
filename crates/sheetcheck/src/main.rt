//! Judges a formula sheet over the steps that follow it in a file or on standard input.
#![tactic(auto)]

ghost use Rattle.std.specs.Prelude.{length};
ghost use Rattle.sheet.specs.Parts.{parts};
ghost use Rattle.recorder.specs.Recordings.{record_answer};
ghost use Rattle.sheet_reader.specs.Readings.{reading_of};
ghost use Rattle.sheet_reader.specs.Signals.{signal_named};
ghost use Rattle.input.specs.Recorded.{Recorded};

use anyhow::anyhow;
use heap_grid::cells::values_and_counts;
use input::lines::split_input;
use input::places::line_around;
use input::steps::{StepFault, record_lines};
use ltl::formula::Formula;
use ltl::refusal::Refusal;
use recorder::plain::{LIMIT, PlainRecorder};
use recorder::recording::{Recorder, Recording};
use scales::pair::Pair;
use scales::truth::Truth;
use sheet_reader::reading::signals::SheetSignals;
use sheet_reader::reading::{Sheet, read};
use std::alloc::Global;
use std::fmt::{Display, Write};
use std::io::Read;
use std::process::ExitCode;
use std::{env, fs};
use values::grid::Grid;

/// What `--help` prints.
const HELP: &str = "usage: sheetcheck [FILE]

Judges a formula over a recording. FILE, or standard input, holds a sheet, a line `steps`, and a line for each step:

    signal r
    signal g
    watch always implies r eventually g
    steps
    r
    -
    g

Lines of a sheet are `signal NAME`, `name NAME FORMULA` and, last, `watch FORMULA`. A formula is in prefix order:
not, next, eventually and always take one formula, or, and, implies and until two, and an earlier name none.
A step line has the names of the signals that are present, or `-` alone.

For each position, and `end` after the last step, the watch row's counts s and f and its value are printed. What was
done is told on standard error. A refusal prints `refused NUMBER PLACE` alone; the exit status is then 1.
";

/// The line of a text in which a place lies, and a caret under the place. Bytes that do not print are shown as dots.
fn shown_line(heap: Global, text: &[u8], place: usize) -> anyhow::Result<String> {
    let line = line_around(text, place);
    let mut shown = String::new(heap);
    for b in &text[line.from..line.to] {
        let printed = *b == b' ' || b.is_ascii_graphic();
        shown.push(if printed { char::from(*b) } else { '.' })?;
    }
    shown.push('\n')?;
    // One by one, and no `repeat`, whose text would stand beside a long line.
    for _ in line.from..place.min(text.len()) {
        shown.push(' ')?;
    }
    shown.push('^')?;
    Ok(shown)
}

/// Tells a refusal on standard output by number and place, and on standard error in words, with the line of the text in
/// which this place lies.
// The runtime and a text stay two parameters, here and below: the runtime is passed to whatever prints.
fn tell<D: Display>(
    rt: &HostRuntime,
    refusal: Refusal,
    text: &[u8],
    place: usize,
    fault: &D,
) -> anyhow::Result<ExitCode> {
    let question = refusal.question;
    let number = question.number();
    let part = question.part();
    let told = refusal.place;
    let shown = shown_line(rt.alloc(), text, place)?;
    println!(rt; "refused {number} {told}")?;
    eprintln!(rt; "sheetcheck: refused by question {number} of the {part}: {question}")?;
    eprintln!(rt; "{shown} {fault}")?;
    Ok(ExitCode::FAILURE)
}

/// Step lines of which one tells no step, or a step that was not recorded.
fn refused_steps(rt: &HostRuntime, lines: &[u8], fault: StepFault) -> anyhow::Result<ExitCode> {
    match fault {
        StepFault::Strange { line, word } => {
            let shown = shown_line(rt.alloc(), lines, line.saturating_add(word.at))?;
            eprintln!(rt; "sheetcheck: a step line has names of signals, or `-` alone")?;
            eprintln!(rt; "{shown} {word}")?;
            Ok(ExitCode::FAILURE)
        }
        StepFault::Refused { line, fault } => tell(rt, fault.refusal(), lines, line, &fault),
    }
}

/// One line for each position of a row.
fn table(
    heap: Global,
    values: &Grid<Truth>,
    counts: &Grid<Pair>,
    row: usize,
    n: usize,
) -> anyhow::Result<String> {
    let mut text = String::new(heap);
    writeln!(text, "position s f value")?;
    // A range, since `i` is the position that is printed.
    for i in 1..=n.saturating_add(1) {
        let (Some(value), Some(pair)) = (values.get(row, i), counts.get(row, i)) else {
            return Err(anyhow!("a row has no cell"));
        };
        let s = pair.s;
        let f = pair.f;
        if i <= n {
            writeln!(text, "{i} {s} {f} {value}")?;
        } else {
            writeln!(text, "end {s} {f} {value}")?;
        }
    }
    Ok(text)
}

/// Prints the table of the watch row over a recording, and tells on standard error what was judged.
// Formula and recording stay two parameters, as at `evaluate`.
fn report<R: Recording>(
    rt: &HostRuntime,
    formula: &Formula,
    recording: &R,
) -> anyhow::Result<ExitCode> {
    let heap = rt.alloc();
    let rows = formula.row_count();
    let n = recording.len();
    let (mut values, mut counts) = values_and_counts(heap, formula, recording)?;
    let values = Grid::new(values.as_mut_slice(), rows, n + 1);
    let counts = Grid::new(counts.as_mut_slice(), rows, n + 1);
    let text = table(heap, &values, &counts, formula.watch(), n)?;
    rt.print(text.as_str())?;
    let width = formula.width();
    eprintln!(rt; "sheetcheck: {width} signals, {rows} rows, {n} steps")?;
    Ok(ExitCode::SUCCESS)
}

/// Records the steps that the lines tell, by the signals of a sheet that was read from `text`.
// Beside `record_lines`: what it promises of the sheet, its text and the lines, which meet here, is its own.
fn record_steps<R: Recorder>(
    recorder: &mut R,
    sheet: &Sheet,
    text: &[u8],
    lines: &[u8],
) -> Result<(), StepFault>
    ensures { Recorded (signal_named (reading_of sheet.now) text.now) (λ s. record_answer (R.Recording.width recorder.new) (R.Recorder.room recorder.new s) (length (R.Recording.steps recorder.new)) s) (parts 10 0 lines.now) (R.Recording.steps recorder.old) (R.Recording.steps recorder.new) result }
{
    record_lines(recorder, &SheetSignals { sheet, text }, lines)
}

/// Judges a sheet that was read from `text` over the steps that the lines tell.
fn judge_steps(
    rt: &HostRuntime,
    sheet: &Sheet,
    text: &[u8],
    lines: &[u8],
) -> anyhow::Result<ExitCode> {
    let formula = &sheet.formula;
    let mut words = vec![in rt.alloc(); 0u32; LIMIT]?;
    // Not `map_err(..)?`: the error holds the words that were handed in, and no proof is made of a closure over it.
    let mut recorder = match PlainRecorder::open(formula.width(), words.as_mut_slice()) {
        Ok(recorder) => recorder,
        Err(refused) => return Err(refused.fault.into()),
    };
    match record_steps(&mut recorder, sheet, text, lines) {
        Ok(()) => report(rt, formula, &recorder),
        Err(fault) => refused_steps(rt, lines, fault),
    }
}

/// Judges an input: a sheet, a line `steps`, and step lines.
fn judge(rt: &HostRuntime, input: &[u8]) -> anyhow::Result<ExitCode> {
    let split = split_input(input);
    let text = &input[..split.sheet];
    let lines = &input[split.steps..];
    match read(text) {
        Ok(sheet) => judge_steps(rt, &sheet, text, lines),
        Err(fault) => {
            let refusal = fault.refusal();
            tell(rt, refusal, text, refusal.place, &fault)
        }
    }
}

/// Does what the arguments ask for.
fn run(rt: &HostRuntime) -> anyhow::Result<ExitCode> {
    let mut args = env::args(rt)?;
    let _program = args.next();
    let Some(path) = args.next() else {
        let mut input = Vec::new(rt.alloc());
        let _count = rt.stdin().read_to_end(&mut input)?;
        return judge(rt, input.as_slice());
    };
    if path.as_str() == "--help" {
        rt.print(HELP)?;
        return Ok(ExitCode::SUCCESS);
    }
    if args.next().is_some() || path.as_str().starts_with("--") {
        return Err(anyhow!("usage: sheetcheck [FILE]; see sheetcheck --help"));
    }
    match fs::read(rt, path.as_str()) {
        Ok(input) => judge(rt, input.as_slice()),
        Err(e) => {
            eprintln!(rt; "sheetcheck: {path}: {e}")?;
            Ok(ExitCode::FAILURE)
        }
    }
}

// Beside that of `tracecheck`: a shared one would take the runtime, the name and the outcome.
fn main(rt: HostRuntime) -> ExitCode {
    match run(&rt) {
        Ok(code) => code,
        Err(e) => {
            let _ = rt.eprintln(format_args!("sheetcheck: {e}"));
            ExitCode::FAILURE
        }
    }
}
