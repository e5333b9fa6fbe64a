// What is made of a sheet alone: it is written again, or judged.
ghost use Rattle.std.specs.Prelude.{◌≡◌};
ghost use Rattle.sheet.specs.Reading.{read_sheet};
ghost use Rattle.duty_log.specs.Lines.{bytes_of};
ghost use Rattle.c_bench.specs.Filled.{Filled};
ghost use Rattle.c_bench.specs.Lines.{rewritten, verdict_line};

use duty_log::line::Line;
use duty_log::logged::Logged;
use program::lines::fault_line;
use program::sheets::judge_sheet;
use sheet::table::Table;

// In these calls 0 stands for nothing written, since C has no `Option`; a sheet or a line never has 0 bytes.

// Reads a sheet and writes its table again to the front of `out`. Gives the number of bytes,
// or 0 where the sheet is refused or has no room; then `out` is as it was.
#[unsafe(no_mangle)]
pub extern "C" fn duty_rewrite(sheet: &[u8], out: &mut [u8]) -> usize
    ensures { Filled (rewritten (read_sheet sheet.now)) result out.old out.new }
{
    let mut table = Table::new();
    match table.read(sheet) {
        Ok(()) => table.write(out).unwrap_or(0),
        Err(_) => 0,
    }
}

// Writes a line to the front of `out`. Gives the number of bytes, or 0 where it has no room; then `out` is as it was.
pub(crate) fn put_line(line: &Line, out: &mut [u8]) -> usize
    ensures { Filled (bytes_of line.now) result out.old out.new }
{
    line.write(out).unwrap_or(0)
}

// The line of the verdict on a sheet, or of a refused sheet.
fn verdict_line(sheet: &[u8]) -> Line
    ensures { result ≡ verdict_line (read_sheet sheet.now) }
{
    match judge_sheet(sheet) {
        Ok(judged) => Line::Verdict(judged.verdict()),
        Err(fault) => fault_line(fault),
    }
}

// Judges a sheet and writes the verdict's line, or the line of a refused sheet, to the front of `out`. Gives the number of bytes,
// or 0 where the line has no room; then `out` is as it was.
#[unsafe(no_mangle)]
pub extern "C" fn duty_verdict(sheet: &[u8], out: &mut [u8]) -> usize
    ensures { Filled (bytes_of (verdict_line (read_sheet sheet.now))) result out.old out.new }
{
    put_line(&verdict_line(sheet), out)
}
