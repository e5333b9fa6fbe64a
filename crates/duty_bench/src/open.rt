// Opening and closing a bench.
ghost use Rattle.std.specs.Prelude.{◌≡◌, ◌-◌, ◌≤◌, ◌++◌, length, replicate};
ghost use Rattle.rules.specs.Accounts.{NumbersFit};
ghost use Rattle.rules.specs.State.{opened, no_counts};
ghost use Rattle.rules.specs.Promises.{Promised};
ghost use Rattle.rules.specs.Run.{closing_of};
ghost use Rattle.duty_bench.specs.Model.{judged_rows};
ghost use Rattle.duty_bench.specs.Reached.{Reached};

use crate::bench::Bench;
use crate::parts::Parts;
use crate::release::first_releases;
use crate::stage::Stage;
use ready::put::TASKS;
use ready::queue::ReadyQueue;
use rules::closing::Closing;
use rules::counts::{Counts, TaskCounts};
use verdict::judged::Judged;

// Opens a bench at clock 0 on a judged table, over a queue that is cleared first. It never refuses.
pub fn open<Q: ReadyQueue>(judged: Judged, mut queue: Q) -> Bench<Q>
    ensures rows { result.rows ≡ judged_rows judged }
    ensures state { result.state ≡ opened (judged_rows judged) }
    ensures reached { Reached result }
{
    queue.clear();
    let coming = first_releases(&judged);
    let parts = Parts {
        queue,
        clock: 0,
        stage: Stage::Free,
        previous: None,
        tasks: [TaskCounts::default(); TASKS as usize],
        counts: Counts::default(),
    };
    Bench {
        judged,
        coming,
        parts,
    }
}

// The counts of each task of a table, and counts of 0 up to 32.
fn padded(tasks: &[TaskCounts]) -> [TaskCounts; TASKS as usize]
    requires { length tasks.now ≤ 32 }
    ensures { result ≡ tasks.now ++ replicate (32 - length tasks.now) no_counts }
{
    let mut all = [TaskCounts::default(); TASKS as usize];
    all[0..tasks.len()].copy_from_slice(tasks);
    all
}

impl<Q: ReadyQueue> Bench<Q> {
    // Closes the bench: it is used up, and its counts, each task's counts, its clock and the miss, if any, come out.
    pub fn close(self) -> Closing
        ensures closing { result ≡ closing_of self.state }
        ensures promised { Promised self.rows result }
        ensures fits { NumbersFit self.rows self.state }
        ensures reached { Reached self }
    {
        let Bench {
            judged,
            coming: _,
            parts,
        } = self;
        let Parts {
            queue: _,
            clock,
            stage,
            previous: _,
            tasks,
            counts,
        } = parts;
        let rows = judged.rows().len();
        Closing {
            clock,
            counts,
            rows,
            tasks: padded(&tasks[0..rows]),
            miss: stage.miss(),
        }
    }
}
