// A tick of the processor as a whole: who runs, what it does, and whether a deadline is missed.
ghost use Rattle.std.specs.Prelude.{◌≡◌};
ghost use Rattle.rules.specs.Release.{released as all_released};
ghost use Rattle.rules.specs.Tick.{tick as ticked};
ghost use Rattle.duty_bench.specs.Awaited.{Awaits};
ghost use Rattle.duty_bench.specs.Bounds.{Midway, Settled};
ghost use Rattle.duty_bench.specs.Model.{state_of};

use crate::parts::Parts;
use duty_log::line::Outcome;
use heap::releases::Releases;
use ready::queue::ReadyQueue;
use rules::letter::Letter;
use sheet::row::Row;

impl<Q: ReadyQueue> Parts<Q> {
    pub(crate) fn tick(&mut self, rows: &[Row], letter: Letter) -> Outcome
        requires { Midway 0 self.old }
        ensures is { state_of Q.waiting self.new ≡ (ticked rows.now letter (state_of Q.waiting self.old)).state }
        ensures outcome { result ≡ (ticked rows.now letter (state_of Q.waiting self.old)).outcome }
    {
        self.pick();
        self.begin(rows);
        let tick = self.work(rows, letter);
        let miss = self.check();
        Outcome { tick, miss }
    }
}

impl<Q: ReadyQueue> Parts<Q> {
    // The due releases, and then a tick.
    pub(crate) fn advance(&mut self, rows: &[Row], coming: &mut Releases, letter: Letter) -> Outcome
        requires midway { Midway 0 self.old }
        requires awaits { Awaits rows.now self.old.tasks self.old.clock coming.old }
        ensures is { state_of Q.waiting self.new ≡ (ticked rows.now letter (all_released rows.now (state_of Q.waiting self.old))).state }
        ensures outcome { result ≡ (ticked rows.now letter (all_released rows.now (state_of Q.waiting self.old))).outcome }
        ensures settled { Settled self.new.clock self.new.tasks }
        ensures awaits { Awaits rows.now self.new.tasks self.new.clock coming.new }
    {
        self.release_due(rows, coming);
        self.tick(rows, letter)
    }
}
