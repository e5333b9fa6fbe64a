// Runs of a bench, with all that it answers folded into a checksum.
use checksum::sum::Checksum;
use duty_bench::bench::Bench;
use duty_bench::open::open;
use duty_log::line::{LONGEST, Line, Outcome};
use duty_log::logged::Logged;
use duty_log::refusal::StepRefusal;
use program::lines::last_line;
use ready::job::JobId;
use ready::queue::ReadyQueue;
use rules::closing::Closing;
use sheet::table::Table;
use verdict::answer::Verdict;
use verdict::judge::judge;

// What came of a run.
#[derive(Clone, Copy, Debug, PartialEq, Eq)]
pub struct Run {
    // over every answer, in order
    pub checksum: Checksum,
    // refused steps
    pub refused: u32,
    pub verdict: Verdict,
    // the last line of the log: clock, idle ticks, jobs begun, interruptions
    pub end: Line,
    // the job that missed its deadline, if one did
    pub miss: Option<JobId>,
}

// The answers so far.
#[derive(Clone, Copy, Default)]
struct Answers {
    checksum: Checksum,
    refused: u32,
}

impl Answers {
    // The log bytes of the step, and the buffer behind them.
    fn add_outcome(&mut self, outcome: &Outcome) {
        let mut buffer = [0u8; LONGEST];
        match outcome.write(&mut buffer) {
            Ok(count) => self.checksum.add(count as u64),
            Err(refusal) => self.checksum.add(u64::from(refusal.number())),
        }
        for byte in &buffer {
            self.checksum.add(u64::from(*byte));
        }
    }

    fn add_answer(&mut self, answer: Result<Outcome, StepRefusal>) {
        match answer {
            Ok(outcome) => self.add_outcome(&outcome),
            Err(refusal) => {
                self.refused = self.refused.wrapping_add(1);
                self.checksum.add(u64::from(refusal.number()));
            }
        }
    }

    // A step, and then a question.
    fn step<Q: ReadyQueue>(&mut self, bench: &mut Bench<Q>, letter: char) {
        self.add_answer(bench.step(letter));
        self.checksum.add_job(bench.first_waiting());
    }

    fn add_closing(&mut self, closing: &Closing) {
        for counts in &closing.tasks {
            self.checksum.add(u64::from(counts.released));
            self.checksum.add(u64::from(counts.done));
            self.checksum.add(u64::from(counts.given));
        }
        self.checksum.add(closing.rows as u64);
        self.checksum.add_job(closing.miss);
    }
}

// A run with these letters.
pub fn run_letters<Q: ReadyQueue>(table: Table, queue: Q, letters: &[u8]) -> Run {
    let judged = judge(table);
    let verdict = judged.verdict();
    let mut bench = open(judged, queue);
    let mut answers = Answers::default();
    for letter in letters {
        answers.step(&mut bench, char::from(*letter));
    }
    let closing = bench.close();
    answers.add_closing(&closing);
    Run {
        checksum: answers.checksum,
        refused: answers.refused,
        verdict,
        end: last_line(&closing),
        miss: closing.miss.map(|job| job.id()),
    }
}
