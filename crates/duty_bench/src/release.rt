// Point 1 of a step: the releases.
ghost use Rattle.std.specs.Prelude.{◌≡◌, ℕ, ◌+◌, ◌^◌, ◌<◌, ◌≤◌, length, replicate, Some, slice_index_or};
ghost use Rattle.rules.specs.State.{no_counts, task_at};
ghost use Rattle.rules.specs.Release.{with_release, release as one_release, released as all_released};
ghost use Rattle.duty_bench.specs.Model.{state_of, judged_rows};
ghost use Rattle.duty_bench.specs.Awaited.{Awaited, Awaits, first_due};
ghost use Rattle.duty_bench.specs.Bounds.{Midway};

use crate::parts::Parts;
use crate::tick::row_of;
use heap::release::Release;
use heap::releases::Releases;
use ready::job::Job;
use ready::queue::ReadyQueue;
use rules::counts::TaskCounts;
use sheet::row::Row;
use verdict::judged::Judged;

// The releases to come at clock 0: the first one of each task.
pub(crate) fn first_releases(judged: &Judged) -> Releases
    ensures { Awaited (judged_rows judged.now) (replicate 32 no_counts) result }
{
    let rows = judged.rows();
    let mut coming = Releases::new();
    for (i, row) in rows.iter().enumerate() {
        let _ = coming.add(Release {
            time: row.phase,
            task: i as u32 + 1,
        });
    }
    coming
}

// Counts a released job of a task, and gives its number.
fn count_release(tasks: &mut [TaskCounts], task: u32) -> u32
    requires within { (1 ≤ task) × (task ≤ length tasks.old) }
    requires counted { (k : ℕ) → (slice_index_or tasks.old k no_counts).released < 2 ^ 31 }
    ensures number { result ≡ (task_at task tasks.old).released + 1 }
    ensures counts { tasks.new ≡ with_release task tasks.old }
{
    let counts = &mut tasks[task as usize - 1];
    counts.released += 1;
    counts.released
}

// The first task whose next job is released at that clock, if any.
fn due_task(coming: &Releases, clock: u32) -> Option<u32>
    ensures { result ≡ first_due clock coming.now }
{
    match coming.first() {
        Some(release) if release.time == clock => Some(release.task),
        _ => None,
    }
}

impl<Q: ReadyQueue> Parts<Q> {
    // Releases the next job of that task, and awaits the one after it.
    fn release(&mut self, rows: &[Row], coming: &mut Releases, task: u32)
        requires midway { Midway 0 self.old }
        requires awaits { Awaits rows.now self.old.tasks self.old.clock coming.old }
        requires due { first_due self.old.clock coming.old ≡ Some task }
        ensures is { state_of Q.waiting self.new ≡ one_release rows.now task (state_of Q.waiting self.old) }
        ensures midway { Midway 0 self.new }
        ensures awaits { Awaits rows.now self.new.tasks self.new.clock coming.new }
    {
        let row = row_of(rows, task);
        let number = count_release(&mut self.tasks, task);
        let _ = self.queue.put(Job {
            key: self.clock + row.deadline,
            task,
            number,
            left: row.execution,
        });
        let _ = coming.take();
        let _ = coming.add(Release {
            time: self.clock + row.period,
            task,
        });
    }

    // Releases every job whose release is now, in task order.
    pub(crate) fn release_due(&mut self, rows: &[Row], coming: &mut Releases)
        requires midway { Midway 0 self.old }
        requires awaits { Awaits rows.now self.old.tasks self.old.clock coming.old }
        ensures is { state_of Q.waiting self.new ≡ all_released rows.now (state_of Q.waiting self.old) }
        ensures midway { Midway 0 self.new }
        ensures awaits { Awaits rows.now self.new.tasks (self.new.clock + 1) coming.new }
    {
        while let Some(task) = due_task(coming, self.clock) {
            self.release(rows, coming, task);
        }
    }
}
