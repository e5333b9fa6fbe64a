// The tests that every queue passes: a queue is added by one line in each of the two.
use crate::cases::{PUTS, TAKES};
use crate::script::{Outcome, run};
use checksum::sum::Checksum;
use heap_queue::queue::HeapQueue;
use lane_queue::queue::LaneQueue;
use plain_queue::queue::PlainQueue;
use ready::job::Job;
use ready::queue::ReadyQueue;
use std::process::Abort;
use std::test::Fail;

#[test]
fn the_script_goes_as_recorded(rt: HostRuntime) {
    goes_as_recorded(&rt, PlainQueue::new());
    goes_as_recorded(&rt, HeapQueue::new());
    goes_as_recorded(&rt, LaneQueue::new());
}

#[test]
fn the_cases_go_as_listed(rt: HostRuntime) -> Result<(), Fail> {
    goes_as_listed(&rt, PlainQueue::new())?;
    goes_as_listed(&rt, HeapQueue::new())?;
    goes_as_listed(&rt, LaneQueue::new())
}

// What the script comes to.
const RECORDED: Outcome = Outcome {
    checksum: Checksum {
        value: 17_296_265_762_435_851_475,
    },
    most: 128,
    put: 1348,
    taken: 1224,
    found_none: 709,
    no_such_task: 221,
    already_waits: 1544,
    four_wait: 954,
};

fn goes_as_recorded<Q: ReadyQueue>(rt: &impl Abort, queue: Q) {
    assert_eq!(rt; run(queue), RECORDED);
}

fn goes_as_listed<Q: ReadyQueue>(rt: &impl Abort, mut queue: Q) -> Result<(), Fail> {
    queue.clear();
    for case in &PUTS {
        let (key, task, number, expected) = *case;
        let job = Job {
            key,
            task,
            number,
            left: 100,
        };
        assert_eq!(rt; queue.put(job), expected);
    }
    assert_eq!(rt; queue.count(), TAKES.len());
    for expected in &TAKES {
        let first = queue.first().ok_or("nothing waits")?;
        let job = queue.take().ok_or("nothing waits")?;
        assert_eq!(rt; (first.task, first.number), *expected);
        assert_eq!(rt; (job.task, job.number), *expected);
    }
    assert_eq!(rt; queue.count(), 0);
    assert!(rt; queue.take().is_none());
    Ok(())
}
