// Judging a table.
ghost use Rattle.std.specs.Prelude.{◌≡◌};
ghost use Rattle.sheet.specs.Tables.{rows_of};
ghost use Rattle.verdict.specs.Test.{verdict_of};

use crate::judged::Judged;
use crate::test;
use sheet::table::Table;

// Uses up the table: the judged table holds it unaltered, with its verdict.
pub fn judge(table: Table) -> Judged
    ensures same { result.table ≡ table }
    ensures right { result.verdict ≡ verdict_of (rows_of table) }
{
    let verdict = test::verdict(table.rows());
    Judged { table, verdict }
}
