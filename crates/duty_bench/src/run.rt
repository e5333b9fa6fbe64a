// A whole run: a bench is opened, any list of calls is made on it, and it is closed.
ghost use Rattle.std.specs.Prelude.{◌≡◌, List};
ghost use Rattle.std.specs.Iterator.{Drains, IsFinite};
ghost use Rattle.rules.specs.declared.call.Call.{Call};
ghost use Rattle.rules.specs.Promises.{Promised};
ghost use Rattle.rules.specs.Run.{called, after_run, closing_of};
ghost use Rattle.duty_bench.specs.Model.{judged_rows};

use crate::bench::Bench;
use crate::open::open;
use ready::queue::ReadyQueue;
use rules::call::Call;
use rules::closing::Closing;
use verdict::judged::Judged;

impl<Q: ReadyQueue> Bench<Q> {
    // Makes a call, done or refused. A match, and no closure, makes it: calls are data, and the promise speaks of every list of them.
    fn make(&mut self, call: Call)
        ensures state { self.new.state ≡ called self.old.rows call self.old.state }
        ensures rows { self.new.rows ≡ self.old.rows }
    {
        match call {
            Call::Step(letter) => {
                let _ = self.step(letter);
            }
            Call::Counts => {
                let _ = (self.clock(), self.counts());
            }
            Call::TaskCounts(task) => {
                let _ = self.task_counts(task);
            }
            Call::First => {
                let _ = self.first_waiting();
            }
        }
    }
}

// Opens a bench on the judged table over the queue, makes each call that the iterator gives, done or refused, and closes the bench.
pub fn run_calls<Q: ReadyQueue, I: Iterator<Item = Call> + Drop>(
    judged: Judged,
    queue: Q,
    calls: I,
) -> Closing
    requires can { I.can_next calls }
    requires ends { IsFinite (I.remaining calls) }
    ensures rules { (list : List Call) × Drains I.next_gives calls list × (result ≡ closing_of (after_run (judged_rows judged) list)) }
    ensures promised { Promised (judged_rows judged) result }
{
    let mut bench = open(judged, queue);
    for call in calls {
        bench.make(call);
    }
    bench.close()
}

// Opens a bench on the judged table over the queue, makes each call, done or refused, and closes the bench.
pub fn run<Q: ReadyQueue>(judged: Judged, queue: Q, calls: &[Call]) -> Closing
    ensures rules { result ≡ closing_of (after_run (judged_rows judged) calls.now) }
    ensures promised { Promised (judged_rows judged) result }
{
    run_calls(judged, queue, calls.iter().copied())
}
