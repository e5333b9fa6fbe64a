// What is true of the lines of a log.
ghost use Rattle.std.specs.Prelude.{◌≡◌, ◌≤◌, length};
ghost use Rattle.duty_log.specs.Examples.{AnswersAsWritten, BuffersAsLeft, LinesAsWritten, LongestReached, NumbersAsWritten, OutcomesAsWritten, VerdictAsWritten, greatest_outcome};
ghost use Rattle.duty_log.specs.Lines.{numbered_bytes, bytes_of, outcome_bytes};

use crate::line::{LONGEST, Line, Numbered, Outcome};
use crate::logged::Logged;

// Lines, outcomes and answers as they stand in a log.
pub fn worked_lines()
    ensures lines { LinesAsWritten }
    ensures numbers { NumbersAsWritten }
    ensures outcomes { OutcomesAsWritten }
    ensures answers { AnswersAsWritten }
    ensures buffers { BuffersAsLeft }
    ensures longest { LongestReached }
    ensures verdict { VerdictAsWritten }
{}

// No line and no outcome has more than `LONGEST` bytes, and one outcome has as many.
pub fn longest_suffices(line: &Line, outcome: &Outcome) -> usize
    ensures line { length (bytes_of line.now) ≤ result }
    ensures outcome { length (outcome_bytes outcome.now) ≤ result }
    ensures reached { length greatest_outcome ≡ result }
{
    // each text stands in an array of that length
    let _line = line.text().as_bytes();
    let _outcome = outcome.text().as_bytes();
    LONGEST
}

// Nor has a line of plain numbers, whatever they are.
pub fn longest_suffices_for_numbers(line: &Numbered) -> usize
    ensures { length (numbered_bytes line.now) ≤ result }
{
    let _line = line.text().as_bytes();
    LONGEST
}
