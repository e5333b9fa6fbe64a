// A tick of the processor, in the order of the rules.
ghost use Rattle.std.specs.Prelude.{◌≡◌, ℕ, ◌+◌, ◌^◌, ◌<◌, ◌≤◌, length, slice_index_or};
ghost use Rattle.verdict.specs.Test.{row_at};
ghost use Rattle.rules.specs.Tick.{worked as worked_job};
ghost use Rattle.duty_bench.specs.Model.{state_of, hand_of};
ghost use Rattle.rules.specs.State.{no_counts};
ghost use Rattle.duty_bench.specs.Stages.{picked, started, most_holds, credited, moved_with, idled, kept_with, moved, idle_line, tick_of, tick_line, line_by};
ghost use Rattle.duty_log.specs.declared.line.Event.TheVariants.{PutBack, Held as Kept, Done, Idle};
ghost use Rattle.duty_bench.specs.declared.stage.Stage.TheVariants.{Free, Holding as Keeping};
ghost use Rattle.duty_bench.specs.Bounds.{Midway};

use crate::parts::Parts;
use crate::stage::Stage;
use duty_log::line::{Event, Tick};
use ready::job::Job;
use ready::queue::ReadyQueue;
use rules::counts::TaskCounts;
use rules::hand::Held;
use rules::letter::Letter;
use sheet::row::Row;

// The job with one unit less.
fn worked(job: &Job) -> Job
    ensures { result ≡ worked_job job.now }
{
    Job {
        left: job.left.saturating_sub(1),
        ..*job
    }
}

// Counts a tick given to a task, and so many jobs done: a number that is added, and no flag.
fn credit(tasks: &mut [TaskCounts], task: u32, done: u32)
    requires within { (1 ≤ task) × (task ≤ length tasks.old) × (done ≤ 1) }
    requires counted { (k : ℕ) → ((slice_index_or tasks.old k no_counts).done < 2 ^ 31) × ((slice_index_or tasks.old k no_counts).given < 2 ^ 31) }
    ensures { tasks.new ≡ credited done task tasks.old }
{
    let counts = &mut tasks[task as usize - 1];
    counts.done += done;
    counts.given += 1;
}

// The line of a tick in which the job ran, as it is after the tick.
fn line(clock: u32, job: &Job, event: Event) -> Tick
    ensures { result ≡ tick_of clock job.now event }
{
    Tick {
        clock,
        task: job.task,
        job: job.number,
        left: job.left,
        event,
    }
}

// The row of a task; blank beyond the rows, as the rules have it.
pub(crate) fn row_of(rows: &[Row], task: u32) -> Row
    ensures { result ≡ row_at task rows.now }
{
    let at = (task as usize).saturating_sub(1);
    rows.get(at).copied().unwrap_or(Row::BLANK)
}

impl<Q: ReadyQueue> Parts<Q> {
    // Takes the first waiting job into the hand, if that is empty.
    pub(crate) fn pick(&mut self)
        requires { Midway 0 self.old }
        ensures is { state_of Q.waiting self.new ≡ picked (state_of Q.waiting self.old) }
        ensures midway { Midway 0 self.new }
    {
        if let Stage::Free = self.stage {
            if let Some(job) = self.queue.take() {
                // field by field, as below in `work`, so that it passes from queue to hand and back in registers:
                // a copy as a whole costs a busy row a fifth of its speed
                let job = Job { ..job };
                self.stage = Stage::Holding(Held { job, holds: 0 });
            }
        }
    }

    // Counts a job that begins, and a job that takes over from another.
    pub(crate) fn begin(&mut self, rows: &[Row])
        requires { Midway 0 self.old }
        ensures is { state_of Q.waiting self.new ≡ started rows.now (state_of Q.waiting self.old) }
        ensures midway { Midway 1 self.new }
    {
        if let Stage::Holding(Held { job, .. }) = self.stage {
            if job.left == row_of(rows, job.task).execution {
                self.counts.begun += 1;
            }
            if let Some(previous) = self.previous {
                if previous != job.id() {
                    self.counts.interruptions += 1;
                }
            }
        }
    }

    // The most holds in a row of the job in the hand; without one no hold is possible.
    fn most_holds(&self, rows: &[Row]) -> u32
        ensures { result ≡ most_holds rows.now self.now.stage }
    {
        match self.stage {
            Stage::Holding(Held { job, .. }) => row_of(rows, job.task).hold,
            _ => 0,
        }
    }

    // The job is done. This and the two below differ in what becomes of the job, and so in what they leave of the bench.
    fn finish(&mut self, job: Job) -> Tick
        requires midway { Midway 1 self.old }
        requires hand { (holds : ℕ) × (self.old.stage ≡ Keeping (record { job = job; holds = holds })) }
        ensures is { state_of Q.waiting self.new ≡ moved_with Done job 0 (state_of Q.waiting self.old) }
        ensures line { result ≡ tick_line Done job self.old.clock }
    {
        let clock = self.clock;
        credit(&mut self.tasks, job.task, 1);
        self.clock += 1;
        self.stage = Stage::Free;
        self.previous = None;
        line(clock, &worked(&job), Event::Done)
    }

    // The job goes back to the queue.
    fn put_back(&mut self, job: Job) -> Tick
        requires midway { Midway 1 self.old }
        requires hand { (holds : ℕ) × (self.old.stage ≡ Keeping (record { job = job; holds = holds })) }
        ensures is { state_of Q.waiting self.new ≡ moved_with PutBack job 0 (state_of Q.waiting self.old) }
        ensures line { result ≡ tick_line PutBack job self.old.clock }
    {
        let clock = self.clock;
        let back = worked(&job);
        credit(&mut self.tasks, job.task, 0);
        self.clock += 1;
        self.stage = Stage::Free;
        self.previous = Some(job.id());
        let _ = self.queue.put(back);
        line(clock, &back, Event::PutBack)
    }

    // A tick in which nothing is pending.
    fn idle(&mut self) -> Tick
        requires midway { Midway 1 self.old }
        requires free { self.old.stage ≡ Free }
        ensures is { state_of Q.waiting self.new ≡ idled (state_of Q.waiting self.old) }
        ensures line { result ≡ idle_line self.old.clock }
    {
        let clock = self.clock;
        self.clock += 1;
        self.counts.idle += 1;
        self.previous = None;
        Tick {
            clock,
            task: 0,
            job: 0,
            left: 0,
            event: Event::Idle,
        }
    }

    // Counts the tick of a job that keeps the processor, with one hold more.
    fn keep(&mut self, job: Job) -> Tick
        requires midway { Midway 1 self.old }
        requires hand { (holds : ℕ) × (self.old.stage ≡ Keeping (record { job = worked_job job; holds = holds })) }
        ensures is { state_of Q.waiting self.new ≡ kept_with job (state_of Q.waiting self.old) }
        ensures line { result ≡ tick_line Kept job self.old.clock }
    {
        let clock = self.clock;
        credit(&mut self.tasks, job.task, 0);
        self.clock += 1;
        self.previous = Some(job.id());
        line(clock, &worked(&job), Event::Held)
    }

    // The job in the hand works for a tick, or the tick is idle.
    pub(crate) fn work(&mut self, rows: &[Row], letter: Letter) -> Tick
        requires midway { Midway 1 self.old }
        ensures is { state_of Q.waiting self.new ≡ moved rows.now letter (state_of Q.waiting self.old) }
        ensures line { result ≡ line_by rows.now letter (hand_of self.old.stage) self.old.clock }
    {
        let most = self.most_holds(rows);
        match (&mut self.stage, letter) {
            (Stage::Stopped { .. }, _) => unreachable(),
            (Stage::Free, _) => self.idle(),
            (Stage::Holding(held), Letter::Finish) => {
                let job = Job { ..held.job };
                self.finish(job)
            }
            (Stage::Holding(held), Letter::Hold) => {
                let ran = Job { ..held.job };
                if ran.left <= 1 {
                    self.finish(ran)
                } else if held.holds < most {
                    held.job.left -= 1;
                    held.holds += 1;
                    self.keep(ran)
                } else {
                    self.put_back(ran)
                }
            }
            (Stage::Holding(held), Letter::Run) => {
                let job = Job { ..held.job };
                if job.left <= 1 {
                    self.finish(job)
                } else {
                    self.put_back(job)
                }
            }
        }
    }
}
