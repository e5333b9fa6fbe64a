// A table of 1 to 32 rows. The ranges of its rows are part of its type: every table keeps them from its making on.
ghost use Rattle.std.specs.Prelude.{◌≡◌, ℕ, ◌≤◌, true, length, take, slice_index_or};
ghost use Rattle.sheet.specs.Rows.{blank, lawful_after};

use crate::layout::MOST_ROWS;
use crate::row::Row;

// It moves and is never copied. Its rows lie in slots with a count beside them, since its memory is fixed: no heap.
// Slots past the count are blank, so that equal rows make equal tables.
#[derive(Drop)]
pub struct Table {
    pub(crate) slots: [Row; MOST_ROWS],
    pub(crate) count: usize,
    ghost some: { 1 ≤ count },
    ghost few: { count ≤ 32 },
    ghost lawful: { lawful_after 0 (take count slots) ≡ true },
    ghost full: { length slots ≡ 32 },
    ghost padded: { (k : ℕ) → count ≤ k → slice_index_or slots k blank ≡ blank },
}
