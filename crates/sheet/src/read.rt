// Reading a sheet: the reader of the bytes calls that of the header, and then that of each row.
ghost use Rattle.std.specs.Prelude.{◌≡◌, ℕ, ◌*◌, ◌/◌, ◌%◌, ◌≤◌, length, Ok};
ghost use Rattle.std.specs.Result.{result_map_both};
ghost use Rattle.sheet.specs.declared.fault.Fault.TheVariants.{Broken};
ghost use Rattle.sheet.specs.Reading.{read_row, read_rows, read_header, read_sheet, Reads, Fills};
ghost use Rattle.sheet.specs.Sheet.{sheet_of};
ghost use Rattle.sheet.specs.Tables.{rows_of};

use crate::fault::{Fault, Rule};
use crate::layout::{HEADER_BYTES, MOST_ROWS, ROW_BYTES, array_at, sheet_size, u16_at, u32_at};
use crate::made::BLANKS;
use crate::row::Row;
use crate::rules::{check_numbers, is_printable};
use crate::table::Table;
use periods::list::CYCLE;

// The row in its bytes, or the first rule that it breaks, where the row before has the deadline `before`.
fn row_in(before: u32, bytes: &[u8; ROW_BYTES]) -> Result<Row, Rule>
    ensures { (k : ℕ) → read_row k before bytes.now ≡ result_map_both (λ row. row) (λ rule. Broken rule k) result }
{
    let label = array_at(bytes, 0);
    if bytes[26] != 0 || bytes[27] != 0 || !is_printable(&label) {
        return Err(Rule::Text);
    }
    let code = u16_at(bytes, 24);
    let period = periods::list::period(code).ok_or(Rule::Code)?;
    let row = Row {
        label,
        phase: u32_at(bytes, 8),
        period,
        code,
        execution: u32_at(bytes, 12),
        deadline: u32_at(bytes, 16),
        hold: u32_at(bytes, 20),
    };
    check_numbers(before, &row)?;
    Ok(row)
}

// The reader of a row: row `k`, counted from 1, where the row before has the deadline `before`.
fn read_row(k: u32, before: u32, bytes: &[u8; ROW_BYTES]) -> Result<Row, Fault>
    ensures { result ≡ read_row k before bytes.now }
{
    row_in(before, bytes).map_err(|rule| Fault::Broken { rule, row: k })
}

// The reader of the header: how many rows it gives.
fn read_header(bytes: &[u8; HEADER_BYTES]) -> Result<usize, Fault>
    ensures { result ≡ read_header bytes.now }
{
    let count = usize::from(u16_at(bytes, 0));
    if count == 0 || count > MOST_ROWS {
        return Err(Fault::RowCount);
    }
    if usize::from(u16_at(bytes, 2)) != HEADER_BYTES
        || u16_at(bytes, 4) != 0
        || u16_at(bytes, 6) != 0
        || u32_at(bytes, 8) != CYCLE
        || u32_at(bytes, 12) as usize != sheet_size(count)
    {
        return Err(Fault::Header);
    }
    Ok(count)
}

// The slots of a table: the rows that the bytes hold, each through all its rules before the next, and blanks after them.
fn read_rows(bytes: &[u8]) -> Result<[Row; MOST_ROWS], Fault>
    requires few { length bytes.now ≤ 28 * 32 }
    requires whole { length bytes.now % 28 ≡ 0 }
    ensures { Fills (length bytes.now / 28) (read_rows (length bytes.now / 28) 1 0 bytes.now) result }
{
    let mut slots = *BLANKS;
    let mut before = 0;
    let (pieces, _) = bytes.as_chunks::<ROW_BYTES>();
    for (k, piece) in pieces.iter().enumerate() {
        let row = read_row(k as u32 + 1, before, piece)?;
        slots[k] = row;
        before = row.deadline;
    }
    Ok(slots)
}

impl Table {
    // Reads a sheet, of any bytes. A refusal leaves the table as it was.
    pub fn read(&mut self, bytes: &[u8]) -> Result<(), Fault>
        ensures said { Reads (read_sheet bytes.now) result self.old self.new }
        ensures rewritten { result ≡ Ok tt → sheet_of (rows_of self.new) ≡ bytes.now }
    {
        let Some((header, rows)) = bytes.split_first_chunk::<HEADER_BYTES>() else {
            return Err(Fault::Short);
        };
        let count = read_header(header)?;
        if bytes.len() != sheet_size(count) {
            return Err(Fault::Length);
        }
        self.slots = read_rows(rows)?;
        self.count = count;
        Ok(())
    }
}
