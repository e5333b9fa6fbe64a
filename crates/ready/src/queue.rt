// The interface of a ready queue. A queue means the list of the jobs that wait, most urgent first;
// code above it is proved once, against that list.
ghost use Rattle.std.specs.Prelude.{◌≡◌, List, [], length};
ghost use Rattle.ready.specs.declared.job.Job.{Job};
ghost use Rattle.ready.specs.Waiting.{Lawful, first_of, rest_of, put_answer, put_list};

use crate::job::Job;
use crate::refusal::PutRefusal;

pub trait ReadyQueue: Drop {
    // the jobs that wait, most urgent first
    ghost waiting: { Self → List Job };

    // Empties the queue.
    fn clear(&mut self)
        ensures { waiting self.new ≡ [] };

    // How many jobs wait.
    fn count(&self) -> usize
        ensures { result ≡ length (waiting self.now) };

    // The most urgent job, or none.
    fn first(&self) -> Option<Job>
        ensures { result ≡ first_of (waiting self.now) };

    // Takes the most urgent job out, if one waits.
    fn take(&mut self) -> Option<Job>
        ensures answer { result ≡ first_of (waiting self.old) }
        ensures list { waiting self.new ≡ rest_of (waiting self.old) };

    // Puts a job at its place, or refuses it and leaves the list as it was.
    fn put(&mut self, job: Job) -> Result<(), PutRefusal>
        ensures answer { result ≡ put_answer job (waiting self.old) }
        ensures list { waiting self.new ≡ put_list job (waiting self.old) };

    // in order, of tasks 1 to 32, none twice, at most four of a task
    ghost lawful: { (q : Self) → Lawful (waiting q) };
}
