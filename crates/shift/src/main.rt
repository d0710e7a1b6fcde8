// Reads a shift sheet from standard input, and writes the answer to each line to standard output.
#![tactic(auto)]

use sheets::line_reading::line_end;
use sheets::{LineBuffer, Sheet};
use std::io;
use std::io::{BufRead, BufReader, BufWriter, Write};

// Answers the line that was read, and begins a new one.
fn answer_line<W: Write>(
    sheet: &mut Sheet,
    line: &mut LineBuffer,
    output: &mut W,
) -> io::Result<()> {
    let mut buffer = [0; 16];
    let answer = sheet.answer(line.text(), &mut buffer);
    line.clear();
    output.write_all(answer)
}

fn main(rt: HostRuntime) -> io::Result<()> {
    let mut sheet = Sheet::new(rt.alloc())?;
    let mut line = LineBuffer::new(rt.alloc())?;
    let mut input = BufReader::new(rt.alloc(), rt.stdin())?;
    let mut output = BufWriter::new(rt.alloc(), rt.stdout())?;
    // A counted loop: that an input comes to an end is known to no proof.
    for _ in 0..u64::MAX {
        let part = input.fill_buf()?;
        if part.is_empty() {
            break;
        }
        let used = match line_end(part) {
            Some(end) => {
                line.append(&part[..end]);
                answer_line(&mut sheet, &mut line, &mut output)?;
                end + 1
            }
            None => {
                line.append(part);
                part.len()
            }
        };
        input.consume(used);
    }
    if !line.text().is_empty() {
        answer_line(&mut sheet, &mut line, &mut output)?;
    }
    output.flush()
}
