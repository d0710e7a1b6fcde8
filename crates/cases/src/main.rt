// Runs the opening part of stored sheets, each up to the frame that opens its house, and compares every answer with the
// stored one. The names of the sheets come from standard input, one a line.
#![tactic(auto)]

use sheets::Sheet;
use std::alloc::{AllocError, Global};
use std::fs;
use std::io::{BufRead, BufReader};

// Whether a line begins with the kind of a call on a house, which no sheet takes yet.
fn comes_later(line: &[u8]) -> bool {
    matches!(line, [b'1', b'0'..=b'7', ..])
}

// How many lines of a sheet agree with the stored answers up to the one that opens the house; none if one does not.
fn opening_agrees(
    heap: Global,
    sheet_text: &[u8],
    answers: &[u8],
) -> Result<Option<usize>, AllocError> {
    let mut sheet = Sheet::new(heap)?;
    let mut stored = answers.split(|byte| *byte == b'\n');
    let mut agreed: usize = 0;
    for line in sheet_text.split_inclusive(|byte| *byte == b'\n') {
        let wanted = stored.next().unwrap_or_default();
        let line = line.strip_suffix(b"\n").unwrap_or(line);
        if comes_later(line) {
            continue;
        }
        let mut buffer = [0; 16];
        let answer = sheet.answer(line, &mut buffer);
        let got = answer.strip_suffix(b"\n").unwrap_or(answer);
        if got != wanted {
            return Ok(None);
        }
        agreed = agreed.saturating_add(1);
        if got == b"0400".as_slice() {
            break;
        }
    }
    Ok(Some(agreed))
}

fn run(rt: &HostRuntime) -> anyhow::Result<()> {
    let heap = rt.alloc();
    let mut sheets: usize = 0;
    let mut agreeing: usize = 0;
    let mut lines: usize = 0;
    for name in BufReader::new(heap, rt.stdin())?.lines(heap) {
        let name = name?;
        let sheet = fs::read(rt, format!(in heap; "{name}.sheet")?.as_str())?;
        let answers = fs::read(rt, format!(in heap; "{name}.answers")?.as_str())?;
        sheets = sheets.saturating_add(1);
        match opening_agrees(heap, sheet.as_slice(), answers.as_slice())? {
            Some(agreed) => {
                agreeing = agreeing.saturating_add(1);
                lines = lines.saturating_add(agreed);
            }
            None => println!(rt; "{name} differs")?,
        }
    }
    println!(rt; "{agreeing} of {sheets} sheets open as stored, {lines} lines")?;
    Ok(())
}

fn main(rt: HostRuntime) -> anyhow::Result<()> {
    run(&rt)
}
