// Whether a job has missed its deadline.
ghost use Rattle.std.specs.Prelude.{◌≡◌, None};
ghost use Rattle.rules.specs.Tick.{urgent_of, most_urgent, missed, checked, miss_line};
ghost use Rattle.duty_bench.specs.Model.{state_of, hand_of, miss_of};

use crate::parts::Parts;
use crate::stage::Stage;
use duty_log::line::Miss;
use ready::job::Job;
use ready::queue::ReadyQueue;
use rules::hand::Held;

// The more urgent of a job and another, if there is another.
fn more_urgent(job: Job, other: Option<Job>) -> Job
    ensures { result ≡ urgent_of job other }
{
    match other {
        Some(first) if first.is_before(&job) => first,
        _ => job,
    }
}

impl Stage {
    // The hand of a bench in this state.
    pub(crate) fn hand(self) -> Option<Held>
        ensures { result ≡ hand_of self }
    {
        match self {
            Stage::Free => None,
            Stage::Holding(held) => Some(held),
            Stage::Stopped { hand, .. } => hand,
        }
    }

    // The miss of a bench in this state.
    pub(crate) fn miss(self) -> Option<Job>
        ensures { result ≡ miss_of self }
    {
        match self {
            Stage::Stopped { miss, .. } => Some(miss),
            _ => None,
        }
    }
}

impl<Q: ReadyQueue> Parts<Q> {
    // The most urgent job among hand and queue. A hand is looked at where it lies, in either state that has one:
    // an idle tick takes a sixth longer where it is copied out of the two first.
    fn most_urgent(&self) -> Option<Job>
        ensures { result ≡ most_urgent (hand_of self.now.stage) (Q.waiting self.now.queue) }
    {
        match &self.stage {
            Stage::Holding(held)
            | Stage::Stopped {
                hand: Some(held),
                ..
            } => { Some(more_urgent(held.job, self.queue.first())) }
            _ => self.queue.first(),
        }
    }

    // Stops the bench if the most urgent job is late, and says which job that is.
    pub(crate) fn check(&mut self) -> Option<Miss>
        requires { miss_of self.old.stage ≡ None }
        ensures is { state_of Q.waiting self.new ≡ checked (state_of Q.waiting self.old) }
        ensures line { result ≡ miss_line (missed (state_of Q.waiting self.old)) }
    {
        let job = self.most_urgent()?;
        if job.key > self.clock {
            return None;
        }
        let hand = self.stage.hand();
        self.stage = Stage::Stopped { hand, miss: job };
        // built here alone: the log knows no job, and a job no log
        Some(Miss {
            task: job.task,
            job: job.number,
        })
    }
}
