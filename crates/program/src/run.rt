// A sheet and letters in, the log out.
ghost use Rattle.std.specs.Prelude.{◌≤◌, IfOk};

use crate::lines::{fault_line, last_line};
use crate::sheets::judge_sheet;
use duty_bench::stream::stream;
use duty_log::line::Line;
use duty_log::logged::Logged;
use plain_queue::queue::PlainQueue;
use std::io;
use std::io::{Read, Write};
use verdict::judged::Judged;

// One byte more than the longest sheet has: a longer one gets the same fault from these as it would whole.
const ROOM: usize = 913;

// Fills the buffer from the input as far as either goes, and gives the number of bytes. A buffer and a number: no heap memory is asked for.
// Each read is one turn of a loop: `io::copy` would try an interrupted read again, for ever if need be, where a read that fails ends the run.
fn fill(input: &mut impl Read, buffer: &mut [u8; ROOM]) -> io::Result<usize>
    ensures { IfOk result (λ n. n ≤ 913) }
{
    let mut count = 0;
    for _ in 0..ROOM {
        let more = input.read(&mut buffer[count..])?;
        if more == 0 {
            break;
        }
        count += more;
    }
    Ok(count)
}

// Runs the judged table on the letters and prints the log.
fn run_judged(judged: Judged, letters: &mut impl Read, output: &mut impl Write) -> io::Result<()> {
    Line::Head.print(output)?;
    Line::Verdict(judged.verdict()).print(output)?;
    output.flush()?;
    let (closing, went) = stream(judged, PlainQueue::new(), letters, output);
    went?;
    last_line(&closing).print(output)
}

// Reads a sheet, and runs it on the letters; or prints the line of a refused sheet.
pub fn run(
    sheet: &mut impl Read,
    letters: &mut impl Read,
    output: &mut impl Write,
) -> io::Result<()> {
    let mut bytes = [0u8; ROOM];
    let count = fill(sheet, &mut bytes)?;
    match judge_sheet(&bytes[..count]) {
        Ok(judged) => run_judged(judged, letters, output)?,
        Err(fault) => fault_line(fault).print(output)?,
    }
    output.flush()
}
