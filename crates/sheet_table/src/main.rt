//! Reads each line of standard input as a sheet, in which `|` stands for byte 10, and prints what reading tells.
#![tactic(auto)]

use anyhow::anyhow;
use sheet_faults::fault::SheetFault;
use sheet_reader::reading::{Label, Sheet, read};
use std::alloc::{AllocError, Global};
use std::fmt::Write;
use std::io::{BufRead, BufReader};

/// The bytes of a sheet from a line of the table.
fn unfolded(heap: Global, line: &[u8]) -> Result<Vec<u8>, AllocError> {
    line.iter()
        .map(|b| if *b == b'|' { b'\n' } else { *b })
        .collect(heap)
}

/// Writes the label of a row: its name and the name's place, or the spare text.
fn write_label(out: &mut String, label: Label) -> anyhow::Result<()> {
    let (text, place) = match label {
        Label::Sheet(word) => (word.text, Some(word.at)),
        Label::Spare { text } => (text, None),
    };
    for b in text {
        out.push(char::from(*b))?;
    }
    if let Some(at) = place {
        write!(out, "@{at}")?;
    }
    Ok(())
}

/// Writes what was read: the signals, the watch row, and each row behind its label.
fn write_sheet(text: &mut String, sheet: &Sheet, bytes: &[u8]) -> anyhow::Result<()> {
    let formula = &sheet.formula;
    let width = formula.width();
    let rows = formula.row_count();
    let watch = formula.watch();
    write!(
        text,
        "accepted: {width} signals, {rows} rows, watch {watch}:"
    )?;
    for (r, row) in formula.rows().iter().enumerate() {
        let Ok(label) = sheet.label(bytes, b".", r) else {
            return Err(anyhow!("a row has no label"));
        };
        text.push(' ')?;
        write_label(text, label)?;
        write!(text, "={row};")?;
    }
    Ok(())
}

/// Writes a refusal by its number and place, with what is wrong.
fn write_refusal(text: &mut String, fault: SheetFault) -> anyhow::Result<()> {
    let refusal = fault.refusal();
    let number = refusal.question.number();
    let place = refusal.place;
    write!(text, "refused {number} {place}")?;
    Ok(())
}

/// One line of the table.
fn row(heap: Global, line: &str) -> anyhow::Result<String> {
    let bytes = unfolded(heap, line.as_bytes())?;
    let mut text = String::new(heap);
    match read(bytes.as_slice()) {
        Ok(sheet) => write_sheet(&mut text, &sheet, bytes.as_slice())?,
        Err(fault) => write_refusal(&mut text, fault)?,
    }
    Ok(text)
}

fn main(rt: HostRuntime) -> anyhow::Result<()> {
    let heap = rt.alloc();
    for line in BufReader::new(heap, rt.stdin())?.lines(heap) {
        let line = line?;
        let told = row(heap, line.as_str())?;
        println!(rt; "{told}")?;
    }
    Ok(())
}
