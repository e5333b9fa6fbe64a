// Writing a sheet into a buffer.
ghost use Rattle.std.specs.Prelude.{◌≡◌, ℕ, ◌+◌, ◌*◌, ◌≤◌, length, take, Ok};
ghost use Rattle.sheet.specs.Sheet.{header_bytes, row_bytes, rows_bytes, sheet_of};
ghost use Rattle.sheet.specs.Writing.{put, Writes};
ghost use Rattle.sheet.specs.Reading.{read_sheet};
ghost use Rattle.sheet.specs.Tables.{rows_of};

use crate::layout::{HEADER_BYTES, ROW_BYTES, sheet_size};
use crate::refusal::WriteRefusal;
use crate::row::Row;
use crate::table::Table;
use periods::list::CYCLE;

// Copies `bytes` into `out` from `at` on.
fn copy_at(out: &mut [u8], at: usize, bytes: &[u8])
    requires { at + length bytes.now ≤ length out.old }
    ensures { out.new ≡ put out.old at bytes.now }
{
    let end = at + bytes.len();
    out[at..end].copy_from_slice(bytes);
}

// The header of a sheet of `count` rows.
fn header_bytes(count: usize) -> [u8; HEADER_BYTES]
    requires { count ≤ 32 }
    ensures { result ≡ header_bytes count }
{
    // bytes 4 to 7 stay 0: there are no handlers
    let mut bytes = [0; HEADER_BYTES];
    copy_at(&mut bytes, 0, &(count as u16).to_be_bytes());
    copy_at(&mut bytes, 2, &(HEADER_BYTES as u16).to_be_bytes());
    copy_at(&mut bytes, 8, &CYCLE.to_be_bytes());
    copy_at(&mut bytes, 12, &(sheet_size(count) as u32).to_be_bytes());
    bytes
}

// A row's bytes in a sheet.
fn row_bytes(row: &Row) -> [u8; ROW_BYTES]
    ensures { result ≡ row_bytes row.now }
{
    // the last two bytes stay 0
    let mut bytes = [0; ROW_BYTES];
    copy_at(&mut bytes, 0, &row.label);
    copy_at(&mut bytes, 8, &row.phase.to_be_bytes());
    copy_at(&mut bytes, 12, &row.execution.to_be_bytes());
    copy_at(&mut bytes, 16, &row.deadline.to_be_bytes());
    copy_at(&mut bytes, 20, &row.hold.to_be_bytes());
    copy_at(&mut bytes, 24, &row.code.to_be_bytes());
    bytes
}

// Writes the rows behind the header.
fn write_rows(out: &mut [u8], rows: &[Row])
    requires few { length rows.now ≤ 32 }
    requires room { 16 + 28 * length rows.now ≤ length out.old }
    ensures { out.new ≡ put out.old 16 (rows_bytes rows.now) }
{
    for (k, row) in rows.iter().enumerate() {
        copy_at(out, sheet_size(k), &row_bytes(row));
    }
}

impl Table {
    // Writes the table's sheet into `out` and gives its length. A refusal alters no byte.
    pub fn write(&self, out: &mut [u8]) -> Result<usize, WriteRefusal>
        ensures written { Writes (sheet_of (rows_of self.now)) result out.old out.new }
        ensures reread { (n : ℕ) → result ≡ Ok n → read_sheet (take n out.new) ≡ Ok (rows_of self.now) }
    {
        let size = sheet_size(self.count);
        if out.len() < size {
            return Err(WriteRefusal::ShortBuffer);
        }
        copy_at(out, 0, &header_bytes(self.count));
        write_rows(out, self.rows());
        Ok(size)
    }
}
