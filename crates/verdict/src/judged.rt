// A judged table: a table with its own verdict, which the type vouches for. It comes from judging alone.
ghost use Rattle.std.specs.Prelude.{◌≡◌};
ghost use Rattle.sheet.specs.Tables.{rows_of};
ghost use Rattle.verdict.specs.Test.{verdict_of};

use crate::answer::Verdict;
use sheet::row::Row;
use sheet::table::Table;

// Clauses name its table and not a list of rows: the ranges of the rows, which proofs need, are facts of the table.
#[derive(Drop)]
pub struct Judged {
    pub(crate) table: Table,
    pub(crate) verdict: Verdict,
    ghost right: { verdict ≡ verdict_of (rows_of table) },
}

impl Judged {
    pub fn verdict(&self) -> Verdict
        ensures { result ≡ verdict_of (rows_of self.now.table) }
    {
        self.verdict
    }

    // The rows, first to last, as in the table that was judged.
    pub fn rows(&self) -> &[Row]
        ensures { result.now ≡ rows_of self.now.table }
    {
        self.table.rows()
    }

    // The table that was judged, to look at or to write.
    pub fn table(&self) -> &Table
        ensures { result.now ≡ self.now.table }
    {
        &self.table
    }
}
