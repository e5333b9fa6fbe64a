// A run on letters, without its log.
ghost use Rattle.std.specs.Prelude.{◌≡◌, map};
ghost use Rattle.sheet.specs.Reading.{read_sheet};
ghost use Rattle.duty_log.specs.Lines.{bytes_of};
ghost use Rattle.rules.specs.declared.call.Call.TheVariants.{Step};
ghost use Rattle.rules.specs.Promises.{Promised};
ghost use Rattle.rules.specs.Run.{after_run, closing_of};
ghost use Rattle.duty_bench.specs.Model.{judged_rows};
ghost use Rattle.c_bench.specs.Filled.{Filled};
ghost use Rattle.c_bench.specs.Lines.{end_line};

use crate::sheets::put_line;
use duty_bench::run::run_calls;
use duty_log::line::Line;
use plain_queue::queue::PlainQueue;
use program::lines::{fault_line, last_line};
use program::sheets::judge_sheet;
use rules::call::Call;
use rules::closing::Closing;
use verdict::judged::Judged;

// Opens a bench on the judged table, steps with each byte as the character of that number, done or refused, and closes the bench.
fn closed_after(judged: Judged, letters: &[u8]) -> Closing
    ensures rules { result ≡ closing_of (after_run (judged_rows judged) (map Step letters.now)) }
    ensures promised { Promised (judged_rows judged) result }
{
    let calls = letters.iter().map(|letter| Call::Step(char::from(*letter)));
    run_calls(judged, PlainQueue::new(), calls)
}

// The last line of the log of a run on a sheet with letters, or the line of a refused sheet.
fn end_line(sheet: &[u8], letters: &[u8]) -> Line
    ensures { result ≡ end_line letters.now (read_sheet sheet.now) }
{
    match judge_sheet(sheet) {
        Ok(judged) => last_line(&closed_after(judged, letters)),
        Err(fault) => fault_line(fault),
    }
}

// Runs a sheet on letters, each done or refused, and writes the last line of the log, or the line of a refused sheet, to the front of `out`.
// Gives the number of bytes, or 0 where the line has no room, since C has no `Option`; then `out` is as it was.
#[unsafe(no_mangle)]
pub extern "C" fn duty_end(sheet: &[u8], letters: &[u8], out: &mut [u8]) -> usize
    ensures { Filled (bytes_of (end_line letters.now (read_sheet sheet.now))) result out.old out.new }
{
    put_line(&end_line(sheet, letters), out)
}
