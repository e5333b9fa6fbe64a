// The lines of a log.
ghost use Rattle.std.specs.Prelude.{◌≡◌};
ghost use Rattle.duty_log.specs.Lines.{letter_of};

use crate::refusal::StepRefusal;
use sheet::fault::Fault;
use verdict::answer::Verdict;

// The most bytes that a line, or the lines of a step, can have: a tick line of 46 and a miss line of 27,
// with ten digits to each number. A buffer of this size always suffices.
pub const LONGEST: usize = 73;

// What became of the job that ran in a tick, as its letter in the tick's line.
#[derive(Clone, Copy, Debug, PartialEq, Eq)]
pub enum Event {
    // it went back to the ready queue
    PutBack = b'r' as isize,
    // it stayed in the hand
    Held = b'h' as isize,
    // it is finished
    Done = b'd' as isize,
    // no job ran
    Idle = b'i' as isize,
}

impl Event {
    // The letter of the event in a tick line.
    pub fn letter(self) -> u8
        ensures { result ≡ letter_of self }
    {
        self as u8
    }
}

// The line of a tick. An idle tick has 0 for task, job and left: every tick line has the same five fields.
#[derive(Clone, Copy, Debug, PartialEq, Eq)]
pub struct Tick {
    // the clock before the step
    pub clock: u32,
    pub task: u32,
    pub job: u32,
    // the units of execution left after the tick
    pub left: u32,
    pub event: Event,
}

// The line of a missed deadline: whose it was, in the log's own words, since a log knows no queue and none of its jobs.
#[derive(Clone, Copy, Debug, PartialEq, Eq)]
pub struct Miss {
    pub task: u32,
    pub job: u32,
}

// The last line: the clock and the counts of a closed bench.
#[derive(Clone, Copy, Debug, PartialEq, Eq)]
pub struct End {
    pub clock: u32,
    pub idle: u32,
    pub begun: u32,
    pub interruptions: u32,
}

// A line that tells plain numbers, whatever they stand for.
#[derive(Clone, Copy, Debug, PartialEq, Eq)]
pub enum Numbered {
    // 0 where the table is admitted, else the first row that fails
    Verdict(u32),
    // a refused sheet: the refusal's number, the layer that found it, and the row or 0
    Sheet { number: u32, layer: u32, row: u32 },
    // a refused step, by the refusal's number
    Refused(u32),
}

#[derive(Clone, Copy, Debug, PartialEq, Eq)]
pub enum Line {
    // the names of a tick line's fields, which begin every log
    Head,
    // what the test says of the table
    Verdict(Verdict),
    // a refused sheet: what is wrong with it
    Sheet(Fault),
    Tick(Tick),
    Miss(Miss),
    // a refused step
    Refused(StepRefusal),
    End(End),
}

// What a step adds to the log: the line of its tick, and that of a miss if there is one.
#[derive(Clone, Copy, Debug, PartialEq, Eq)]
pub struct Outcome {
    pub tick: Tick,
    pub miss: Option<Miss>,
}
