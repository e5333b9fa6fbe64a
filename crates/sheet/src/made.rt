// Making a table, and looking at its rows.
ghost use Rattle.std.specs.Prelude.{◌≡◌, [], ◌∷◌};
ghost use Rattle.sheet.specs.Rows.{blank};
ghost use Rattle.sheet.specs.Tables.{rows_of};

use crate::layout::MOST_ROWS;
use crate::row::Row;
use crate::table::Table;

// Slots that are all blank. As a reference they are copied in one go, where `[Row::BLANK; MOST_ROWS]` would be 160 writes.
pub(crate) const BLANKS: &[Row; MOST_ROWS] = &[Row::BLANK; MOST_ROWS];

impl Table {
    // A new table: one blank row.
    pub fn new() -> Table
        ensures { rows_of result ≡ blank ∷ [] }
    {
        Table {
            slots: *BLANKS,
            count: 1,
        }
    }

    // The rows, first to last: task i is row i, counted from 1.
    pub fn rows(&self) -> &[Row]
        ensures { result.now ≡ rows_of self.now }
    {
        &self.slots[..self.count]
    }
}
