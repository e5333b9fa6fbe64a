// Devi's test over the rows of a table, with running sums.
ghost use Rattle.std.specs.Prelude.{◌≡◌, ◌+◌, ◌*◌, ◌≤◌, true, length, nat_le};
ghost use Rattle.periods.specs.Periods.{cycle};
ghost use Rattle.sheet.specs.Rows.{lawful_after};
ghost use Rattle.verdict.specs.Ranges.{InRange, most_load, most_shortfall};
ghost use Rattle.verdict.specs.Test.{gap, load, longest_hold, shortfall, blocking_after, verdict_of};

use crate::answer::Verdict;
use periods::list::CYCLE;
use sheet::row::Row;

// By how much the deadline falls short of the period.
fn gap(period: u32, deadline: u32) -> u32
    ensures { result ≡ gap period deadline }
{
    period.saturating_sub(deadline)
}

// The units that the row's jobs take in a cycle.
fn load(row: &Row) -> u64
    requires { InRange row.now }
    ensures { result ≡ load row.now }
{
    u64::from(row.execution) * u64::from(CYCLE / row.period)
}

// What the row's short deadline costs.
fn shortfall(row: &Row) -> u64
    requires { InRange row.now }
    ensures { result ≡ shortfall row.now }
{
    u64::from(gap(row.period, row.deadline)) * load(row)
}

fn longest_hold(rows: &[Row]) -> u32
    ensures { result ≡ longest_hold rows.now }
{
    rows.iter().fold(0, |longest, row| longest.max(row.hold))
}

// B: the greatest hold of the rows after row k, counted from 1.
fn blocking_after(k: usize, rows: &[Row]) -> u32
    requires { (1 ≤ k) × (k ≤ length rows.now) }
    ensures { result ≡ blocking_after k rows.now }
{
    longest_hold(&rows[k..])
}

// Whether D × S + G + B × C is at most C × D. The sums of 32 rows keep both sides below 10^14.
fn passes(deadline: u32, sum_load: u64, sum_shortfall: u64, blocking: u32) -> bool
    requires near { deadline ≤ 4 * cycle }
    requires loaded { sum_load ≤ most_load }
    requires lost { sum_shortfall ≤ most_shortfall }
    requires held { blocking ≤ cycle }
    ensures { result ≡ nat_le (deadline * sum_load + sum_shortfall + blocking * cycle) (cycle * deadline) }
{
    let asked = u64::from(deadline) * sum_load
        + sum_shortfall
        + u64::from(blocking) * u64::from(CYCLE);
    let room = u64::from(CYCLE) * u64::from(deadline);
    asked <= room
}

// The verdict on the rows of a table: the first row that does not pass, if any.
pub(crate) fn verdict(rows: &[Row]) -> Verdict
    requires lawful { lawful_after 0 rows.now ≡ true }
    requires few { length rows.now ≤ 32 }
    ensures { result ≡ verdict_of rows.now }
{
    let mut sum_load = 0;
    let mut sum_shortfall = 0;
    for (i, row) in rows.iter().enumerate() {
        let k = i + 1;
        sum_load += load(row);
        sum_shortfall += shortfall(row);
        let blocking = blocking_after(k, rows);
        if !passes(row.deadline, sum_load, sum_shortfall, blocking) {
            return Verdict::FailsAt(k as u32);
        }
    }
    Verdict::Admitted
}
