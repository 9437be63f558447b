//! Labels, signals by name and step lines of sheets, as tests over the public calls.
use crate::refusals::told;
use input::lines::{split_input, step_line};
use input::places::line_around;
use input::steps::{StepFault, record_lines};
use ltl::refusal::Part;
use recorder::plain::PlainRecorder;
use recorder::recording::Recording;
use sheet_reader::reading::signals::SheetSignals;
use sheet_reader::reading::{Label, Sheet, read};
use std::test::Fail;

const TEXT: &[u8] = b"signal r\nsignal go\nname both and r go\nwatch both";

// A label's place in the sheet, if it stands there, and its number of bytes.
fn label_at(sheet: &[u8], row: usize) -> Result<(Option<usize>, usize), Fail> {
    match read(TEXT)?.label(sheet, b"spare", row) {
        Ok(Label::Sheet(word)) => Ok((Some(word.at), word.text.len())),
        Ok(Label::Spare { text }) => Ok((None, text.len())),
        Err(_) => Err(Fail::new("no such row")),
    }
}

#[test]
fn labels(rt: HostRuntime) -> Result<(), Fail> {
    assert_eq!(rt; label_at(TEXT, 1)?, (Some(16), 2), "a signal's name");
    assert_eq!(rt; label_at(TEXT, 2)?, (None, 5), "a row without a name");
    assert_eq!(rt; label_at(TEXT, 5)?, (Some(24), 4), "the name of a formula");
    assert_eq!(rt;
        label_at(b"signal r\nsignal go", 1)?,
        (Some(16), 2),
        "just long enough"
    );
    assert_eq!(rt;
        label_at(b"signal r\nsignal g", 1)?,
        (None, 5),
        "one byte too short"
    );
    let fifteen = (15, Part::Watch, 0);
    match read(TEXT)?.label(TEXT, b"spare", 6) {
        Ok(_) => Err(Fail::new("the formula has six rows")),
        Err(fault) => {
            assert_eq!(rt; told(fault.refusal()), fifteen);
            Ok(())
        },
    }
}

#[test]
fn signals(rt: HostRuntime) -> Result<(), Fail> {
    let sheet = read(TEXT)?;
    assert_eq!(rt; sheet.signal(TEXT, b"go"), Some(1));
    assert_eq!(rt;
        sheet.signal(TEXT, b"both"),
        None,
        "a row that is no signal"
    );
    assert_eq!(rt; sheet.signal(TEXT, b"g"), None, "a part of a name");
    Ok(())
}

// The names of a sheet that was read from TEXT.
fn signals_of(sheet: &Sheet) -> SheetSignals<'_> {
    SheetSignals { sheet, text: TEXT }
}

// The signals of a step line as bits, or nothing where it is blank or strange.
fn bits(line: &[u8]) -> Result<Option<u64>, Fail> {
    match step_line(&signals_of(&read(TEXT)?), line) {
        Ok(step) => Ok(step.map(|step| step.bits())),
        Err(_) => Ok(None),
    }
}

#[test]
fn step_lines(rt: HostRuntime) -> Result<(), Fail> {
    assert_eq!(rt; bits(b" go  r go ")?, Some(3));
    assert_eq!(rt; bits(b" - ")?, Some(0));
    assert_eq!(rt; bits(b"   ")?, None);
    assert_eq!(rt; bits(b"- r")?, None);
    assert_eq!(rt; bits(b"r both")?, None);
    match step_line(&signals_of(&read(TEXT)?), b"r both x") {
        Err(strange) => {
            assert_eq!(rt; strange.at, 2);
            Ok(())
        },
        Ok(_) => Err(Fail::new("both is no signal")),
    }
}

#[test]
fn inputs(rt: HostRuntime) {
    let split = split_input(b"a steps\n  steps \nr\nsteps");
    assert_eq!(rt; split.sheet, 8, "the line begins before its spaces");
    assert_eq!(rt; split.steps, 16);
    let split = split_input(b"signal a");
    assert_eq!(rt; split.sheet, 8);
    assert_eq!(rt; split.steps, 8);
    let line = line_around(b"ab\ncde\nf", 4);
    assert_eq!(rt; line.from, 3);
    assert_eq!(rt; line.to, 6);
    let line = line_around(b"ab\n", 9);
    assert_eq!(rt; line.from, 3);
    assert_eq!(rt; line.to, 3);
}

#[test]
fn recorded_lines(rt: HostRuntime) -> Result<(), Fail> {
    let sheet = read(TEXT)?;
    let mut words = [0u32; 2];
    let Ok(mut recorder) = PlainRecorder::open(2, &mut words) else {
        return Err(Fail::new("not opened"));
    };
    match record_lines(&mut recorder, &signals_of(&sheet), b"r\n\n go x\nr") {
        Err(StepFault::Strange { line, word }) => {
            assert_eq!(rt; line, 3);
            assert_eq!(rt; word.at, 4);
        }
        _ => return Err(Fail::new("x is no signal")),
    }
    assert_eq!(rt; recorder.len(), 1, "the lines before it are recorded");
    match record_lines(&mut recorder, &signals_of(&sheet), b"go r\n-") {
        Err(StepFault::Refused { line, fault }) => {
            assert_eq!(rt; line, 5);
            assert_eq!(rt; fault.refusal().question.number(), 9);
        }
        _ => return Err(Fail::new("there are two words")),
    }
    assert_eq!(rt; recorder.len(), 2);
    assert_eq!(rt; recorder.step(2).bits(), 3);
    Ok(())
}
