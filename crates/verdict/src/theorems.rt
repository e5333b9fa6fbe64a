// What is true of the test as a whole.
ghost use Rattle.std.specs.Prelude.{List};
ghost use Rattle.sheet.specs.Tables.{rows_of};
ghost use Rattle.sheet.specs.declared.row.Row.{Row};
ghost use Rattle.verdict.specs.Examples.{Passing, Exactly, Blocked, Overloaded, Staggered, Longer, Numbered};
ghost use Rattle.verdict.specs.Laws.{Exact, Small};

use sheet::table::Table;

// For every list of rows: admitted exactly if all pass, and failing at row k exactly if that is the first that fails.
pub fn verdict_is_exact()
    ensures { (rows : List Row) → Exact rows }
{}

// For every table, both sides of the test stay below 10^14 at each row.
pub fn sums_stay_small(table: &Table)
    ensures { Small (rows_of table.now) }
{}

// Five tables, reckoned by the definitions.
pub fn examples_hold()
    ensures passing { Passing }
    ensures exactly { Exactly }
    ensures blocked { Blocked }
    ensures overloaded { Overloaded }
    ensures staggered { Staggered }
    ensures longer { Longer }
    ensures numbered { Numbered }
{}
