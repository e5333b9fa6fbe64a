// Questions to a bench. They alter nothing, and a stopped bench answers them too. Each says, too, that its numbers are
// within their bounds, and that a run on a table left the bench, so that each law of every run is true of it.
ghost use Rattle.std.specs.Prelude.{◌≡◌};
ghost use Rattle.ready.specs.Waiting.{Lawful};
ghost use Rattle.rules.specs.Accounts.{NumbersFit};
ghost use Rattle.rules.specs.Step.{task_answer, first_answer};
ghost use Rattle.duty_bench.specs.Reached.{Reached};

use crate::bench::Bench;
use ready::job::Job;
use ready::queue::ReadyQueue;
use rules::counts::{Counts, TaskCounts};
use rules::refusal::QuestionRefusal;

impl<Q: ReadyQueue> Bench<Q> {
    // The ticks since the opening.
    pub fn clock(&self) -> u32
        ensures clock { result ≡ self.now.state.clock }
        ensures fits { NumbersFit self.now.rows self.now.state }
        ensures reached { Reached self.now }
    {
        self.parts.clock
    }

    // Idle ticks, jobs begun, interruptions.
    pub fn counts(&self) -> Counts
        ensures counts { result ≡ self.now.state.counts }
        ensures fits { NumbersFit self.now.rows self.now.state }
        ensures reached { Reached self.now }
    {
        self.parts.counts
    }

    // The counts of one task, or a refusal where the task is 0 or beyond the rows.
    pub fn task_counts(&self, task: u32) -> Result<TaskCounts, QuestionRefusal>
        ensures answer { result ≡ task_answer self.now.rows task self.now.state }
        ensures fits { NumbersFit self.now.rows self.now.state }
        ensures reached { Reached self.now }
    {
        if task == 0 || task as usize > self.judged.rows().len() {
            return Err(QuestionRefusal::NoSuchTask);
        }
        Ok(self.parts.tasks[task as usize - 1])
    }

    // The first job that waits in the queue, if any; a job in the hand does not wait.
    pub fn first_waiting(&self) -> Option<Job>
        ensures answer { result ≡ first_answer self.now.state }
        ensures lawful { Lawful self.now.state.waiting }
        ensures fits { NumbersFit self.now.rows self.now.state }
        ensures reached { Reached self.now }
    {
        self.parts.queue.first()
    }
}
