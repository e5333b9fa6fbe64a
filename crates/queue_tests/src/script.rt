// A long script of calls, the same for every queue, with every answer folded into a checksum.
use checksum::draws::Draws;
use checksum::sum::Checksum;
use ready::job::Job;
use ready::queue::ReadyQueue;
use ready::refusal::PutRefusal;

// What came of a script.
#[derive(Clone, Copy, Debug, PartialEq, Eq, Default)]
pub struct Outcome {
    // over every answer, in order
    pub checksum: Checksum,
    // the most jobs that waited at once
    pub most: usize,
    pub put: u32,
    pub taken: u32,
    // takes that found no job
    pub found_none: u32,
    // refused puts, by kind
    pub no_such_task: u32,
    pub already_waits: u32,
    pub four_wait: u32,
}

// The calls of a script. The queue is filled and drained by turns, each of so many calls.
const CALLS: u32 = 6000;

const TURN: u32 = 800;

impl Outcome {
    fn add_take(&mut self, job: Option<Job>) {
        match job {
            Some(_) => self.taken = self.taken.wrapping_add(1),
            None => self.found_none = self.found_none.wrapping_add(1),
        }
        self.checksum.add_job(job);
    }

    fn add_put(&mut self, answer: Result<(), PutRefusal>) {
        match answer {
            Ok(()) => {
                self.put = self.put.wrapping_add(1);
                self.checksum.add(0);
            }
            Err(refusal) => {
                self.checksum.add(u64::from(refusal.number()));
                self.count_refusal(refusal);
            }
        }
    }

    fn count_refusal(&mut self, refusal: PutRefusal) {
        match refusal {
            PutRefusal::NoSuchTask => self.no_such_task = self.no_such_task.wrapping_add(1),
            PutRefusal::AlreadyWaits => self.already_waits = self.already_waits.wrapping_add(1),
            PutRefusal::FourWait => self.four_wait = self.four_wait.wrapping_add(1),
        }
    }
}

// A job of tasks 0 to 33, with few keys and numbers, so that all ties and all refusals come up.
fn drawn_job(draw: u64) -> Job {
    Job {
        key: (draw % 8) as u32,
        task: (draw / 8 % 34) as u32,
        number: (draw / 1024 % 7) as u32,
        left: (draw / 8192 % 1000) as u32,
    }
}

// One call: a put in `puts` of 16 cases, else a take; then a look at what waits.
fn call<Q: ReadyQueue>(queue: &mut Q, draw: u64, puts: u64, outcome: &mut Outcome) {
    if draw / 0x1000_0000_0000_0000 < puts {
        outcome.add_put(queue.put(drawn_job(draw / 0x0100_0000)));
    } else {
        outcome.add_take(queue.take());
    }
    let count = queue.count();
    outcome.most = outcome.most.max(count);
    outcome.checksum.add(count as u64);
    outcome.checksum.add_job(queue.first());
}

// Runs the script on a queue.
pub fn run<Q: ReadyQueue>(mut queue: Q) -> Outcome {
    let mut outcome = Outcome::default();
    let mut draws = Draws { last: 20_117 };
    queue.clear();
    for i in 0..CALLS {
        let puts = if i / TURN % 2 == 0 { 16 } else { 5 };
        call(&mut queue, draws.draw(), puts, &mut outcome);
        // once in the midst of a filling turn
        if i == CALLS / 3 {
            queue.clear();
            outcome.checksum.add(queue.count() as u64);
        }
    }
    outcome
}
