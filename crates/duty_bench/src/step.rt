// A step of the bench.
ghost use Rattle.std.specs.Prelude.{◌≡◌};
ghost use Rattle.rules.specs.Step.{step as rules_step};
ghost use Rattle.rules.specs.Accounts.{NumbersFit};
ghost use Rattle.duty_bench.specs.Reached.{Reached};

use crate::bench::Bench;
use crate::stage::Stage;
use duty_log::line::Outcome;
use duty_log::refusal::StepRefusal;
use ready::queue::ReadyQueue;
use rules::letter::Letter;

// The clock at which a bench takes no more steps.
pub const LAST_CLOCK: u32 = 1_000_000_000;

impl<Q: ReadyQueue> Bench<Q> {
    // One step with a letter: r to run, h to hold the processor, f to finish. A refused step alters nothing.
    // That the rows stay, here and in what calls it, is said beside the state, which does not tell it.
    pub fn step(&mut self, letter: char) -> Result<Outcome, StepRefusal>
        ensures state { self.new.state ≡ (rules_step self.old.rows letter self.old.state).state }
        ensures answer { result ≡ (rules_step self.old.rows letter self.old.state).answer }
        ensures rows { self.new.rows ≡ self.old.rows }
        ensures fits { NumbersFit self.new.rows self.new.state }
        ensures reached { Reached self.new }
    {
        if let Stage::Stopped { .. } = self.parts.stage {
            return Err(StepRefusal::Stopped);
        }
        if self.parts.clock == LAST_CLOCK {
            return Err(StepRefusal::LastClock);
        }
        let letter = Letter::try_from(letter)?;
        Ok(
            self.parts
                .advance(self.judged.rows(), &mut self.coming, letter),
        )
    }
}
