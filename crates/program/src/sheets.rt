// Sheets that come in as bytes.
ghost use Rattle.std.specs.Prelude.{◌≡◌, Ok, Err, IfOk, IfErr};
ghost use Rattle.sheet.specs.Reading.{read_sheet};
ghost use Rattle.duty_bench.specs.Model.{judged_rows};

use sheet::fault::Fault;
use sheet::table::Table;
use verdict::judge::judge;
use verdict::judged::Judged;

// Reads a sheet and judges its table, or says what is wrong with the sheet.
pub fn judge_sheet(sheet: &[u8]) -> Result<Judged, Fault>
    ensures judged { IfOk result (λ judged. read_sheet sheet.now ≡ Ok (judged_rows judged)) }
    ensures refused { IfErr result (λ fault. read_sheet sheet.now ≡ Err fault) }
{
    let mut table = Table::new();
    table.read(sheet)?;
    Ok(judge(table))
}
