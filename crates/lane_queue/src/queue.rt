// The queue of lanes.
ghost use Rattle.std.specs.Prelude.{◌≡◌, ℕ, ◌+◌, ◌≤◌, length, get_or, if◌then◌else◌, count_by, nat_lt, slice_index_or};
ghost use Rattle.std.specs.List.{flat_map};
ghost use Rattle.ready.specs.Waiting.{is_job, of_task};
ghost use Rattle.lane_queue.specs.Lanes.{lane_jobs, empty};
ghost use Rattle.lane_queue.specs.Words.{bit};

use crate::lane::Lane;
use ready::put::TASKS;

pub mod operations;
mod search;

// A lane for each task, and a word that marks those in use: so this queue is to keep its jobs.
#[derive(Drop)]
pub struct LaneQueue {
    // lane i is for task i + 1
    lanes: [Lane; TASKS as usize],
    // bit i is set where lane i holds a job
    used: u32,
    // how many jobs wait
    count: usize,
    ghost whole: { length lanes ≡ 32 },
    ghost marked: { (i : ℕ) → bit i used ≡ (if nat_lt 0 (get_or lanes i empty).len then 1 else 0) },
    ghost counted: { count ≡ length (flat_map lane_jobs lanes) },
    ghost owned: { (i : ℕ) → count_by (of_task (i + 1)) (lane_jobs (slice_index_or lanes i empty)) ≡ (get_or lanes i empty).len },
    ghost once: { (task number : ℕ) → count_by (is_job task number) (flat_map lane_jobs lanes) ≤ 1 },
}
