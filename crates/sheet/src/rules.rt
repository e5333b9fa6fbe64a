// The rules of a row.
ghost use Rattle.std.specs.Prelude.{◌≡◌, ◌≤◌, true, false};
ghost use Rattle.std.specs.List.{list_all};
ghost use Rattle.std.specs.Result.{result_err};
ghost use Rattle.periods.specs.Periods.{cycle, no_entry};
ghost use Rattle.sheet.specs.Rows.{broken, lawful_label, printable};

use crate::fault::Rule;
use crate::row::Row;
use periods::list::CYCLE;

// Whether a label is made of printable characters.
pub(crate) fn is_printable(label: &[u8; 8]) -> bool
    ensures { result ≡ list_all printable label.now }
{
    label.iter().all(|b| (32..=126).contains(b))
}

// The rules after those of the label and the code, where the row before has the deadline `before`; 0 for the first row, since no deadline is below it.
pub(crate) fn check_numbers(before: u32, row: &Row) -> Result<(), Rule>
    requires label { lawful_label row.now.label ≡ true }
    requires code { no_entry row.now.code ≡ false }
    requires period { row.now.period ≤ cycle }
    ensures { result_err result ≡ broken before row.now }
{
    if row.deadline == 0 || row.deadline > 4 * row.period || row.deadline < before {
        return Err(Rule::Deadline);
    }
    if row.phase > CYCLE {
        return Err(Rule::Phase);
    }
    if row.execution == 0 || row.execution > row.period || row.execution > row.deadline {
        return Err(Rule::Execution);
    }
    if row.hold > row.execution {
        return Err(Rule::Hold);
    }
    Ok(())
}
