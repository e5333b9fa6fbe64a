// Each run goes the same way over the three queues, and as recorded.
use crate::runs::{Run, run_letters};
use crate::sheets::{CROWDED, EXAMPLE, MIXED, OVERLOADED, Task, table};
use checksum::draws::Draws;
use duty_log::line::{End, Line};
use heap_queue::queue::HeapQueue;
use lane_queue::queue::LaneQueue;
use plain_queue::queue::PlainQueue;
use ready::job::JobId;
use std::process::Abort;
use std::test::Fail;
use verdict::answer::Verdict;

// How many letters are drawn.
const STEPS: usize = 3000;

// The run with these letters, where the queues agree on it.
fn agreed(rt: &impl Abort, tasks: &[Task], letters: &[u8]) -> Result<Run, Fail> {
    let plain = run_letters(table(tasks)?, PlainQueue::new(), letters);
    assert_eq!(rt;
        plain,
        run_letters(table(tasks)?, HeapQueue::new(), letters)
    );
    assert_eq!(rt;
        plain,
        run_letters(table(tasks)?, LaneQueue::new(), letters)
    );
    Ok(plain)
}

// Of 16 letters eight are r, four h, three f, and one is no letter of the bench.
fn letter_of(draw: u64) -> u8 {
    match draw / 0x1000_0000_0000_0000 {
        0..=7 => b'r',
        8..=11 => b'h',
        12..=14 => b'f',
        _ => b'q',
    }
}

// The letters that are drawn.
fn drawn() -> [u8; STEPS] {
    let mut letters = [0; STEPS];
    let mut draws = Draws { last: 20_117 };
    letters.fill_with(|| letter_of(draws.draw()));
    letters
}

fn end(clock: u32, idle: u32, begun: u32, interruptions: u32) -> Line {
    Line::End(End {
        clock,
        idle,
        begun,
        interruptions,
    })
}

fn job(task: u32, number: u32) -> Option<JobId> {
    Some(JobId { task, number })
}

#[test]
fn the_example_is_run_without_holds(rt: HostRuntime) -> Result<(), Fail> {
    let run = agreed(&rt, &EXAMPLE, b"rrrrrr")?;
    assert_eq!(rt; run.verdict, Verdict::Admitted);
    assert_eq!(rt; run.refused, 0);
    assert_eq!(rt; run.end, end(6, 1, 3, 1));
    assert_eq!(rt; run.miss, None);
    Ok(())
}

#[test]
fn a_hold_saves_the_interruption(rt: HostRuntime) -> Result<(), Fail> {
    let run = agreed(&rt, &EXAMPLE, b"rrrhrr")?;
    assert_eq!(rt; run.refused, 0);
    assert_eq!(rt; run.end, end(6, 1, 3, 0));
    assert_eq!(rt; run.miss, None);
    Ok(())
}

#[test]
fn an_overloaded_table_stops_at_its_miss(rt: HostRuntime) -> Result<(), Fail> {
    let run = agreed(&rt, &OVERLOADED, b"rrrr")?;
    assert_eq!(rt; run.refused, 0);
    assert_eq!(rt; run.verdict, Verdict::FailsAt(2));
    assert_eq!(rt; run.end, end(4, 0, 2, 0));
    assert_eq!(rt; run.miss, job(2, 1));
    // a stopped bench takes no step more
    let longer = agreed(&rt, &OVERLOADED, b"rrrrrhf")?;
    assert_eq!(rt; longer.refused, 3);
    assert_eq!(rt; longer.end, run.end);
    assert_eq!(rt; longer.miss, run.miss);
    Ok(())
}

#[test]
fn the_example_with_drawn_letters(rt: HostRuntime) -> Result<(), Fail> {
    let run = agreed(&rt, &EXAMPLE, &drawn())?;
    assert_eq!(rt; run.checksum.value, 12_206_951_489_861_091_571);
    assert_eq!(rt; run.refused, 184);
    assert_eq!(rt; run.end, end(2816, 966, 1173, 124));
    assert_eq!(rt; run.miss, None);
    Ok(())
}

#[test]
fn the_overloaded_table_with_drawn_letters(rt: HostRuntime) -> Result<(), Fail> {
    let run = agreed(&rt, &OVERLOADED, &drawn())?;
    assert_eq!(rt; run.checksum.value, 11_637_863_553_073_644_898);
    assert_eq!(rt; run.refused, 2996);
    assert_eq!(rt; run.end, end(4, 0, 2, 0));
    assert_eq!(rt; run.miss, job(2, 1));
    Ok(())
}

#[test]
fn the_mixed_table_with_drawn_letters(rt: HostRuntime) -> Result<(), Fail> {
    let run = agreed(&rt, &MIXED, &drawn())?;
    assert_eq!(rt; run.checksum.value, 14_621_179_796_965_171_165);
    assert_eq!(rt; run.refused, 184);
    assert_eq!(rt; run.end, end(2816, 61, 1640, 238));
    assert_eq!(rt; run.miss, None);
    Ok(())
}

#[test]
fn the_crowded_table_with_drawn_letters(rt: HostRuntime) -> Result<(), Fail> {
    let run = agreed(&rt, &CROWDED, &drawn())?;
    assert_eq!(rt; run.checksum.value, 13_333_044_421_101_543_762);
    assert_eq!(rt; run.refused, 2936);
    assert_eq!(rt; run.end, end(64, 0, 16, 0));
    assert_eq!(rt; run.miss, job(16, 1));
    Ok(())
}
