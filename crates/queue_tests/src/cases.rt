// A table of puts with their answers, and the order in which the jobs then come out.
use ready::refusal::PutRefusal::{self, AlreadyWaits, FourWait, NoSuchTask};

// Key, task and number of a job that is put, and the answer.
// They are put one after the other into an empty queue.
pub const PUTS: [(u32, u32, u32, Result<(), PutRefusal>); 18] = [
    // tasks are numbered from 1 to 32
    (1, 0, 1, Err(NoSuchTask)),
    (1, 33, 1, Err(NoSuchTask)),
    (1, 4_294_967_295, 1, Err(NoSuchTask)),
    (50, 1, 1, Ok(())),
    (50, 32, 1, Ok(())),
    // the same job again, whatever its key
    (50, 1, 1, Err(AlreadyWaits)),
    (49, 1, 1, Err(AlreadyWaits)),
    // equal keys: the task decides; equal keys and tasks: the number
    (50, 7, 3, Ok(())),
    (50, 7, 1, Ok(())),
    (50, 7, 2, Ok(())),
    // the fourth of a task is put, the fifth refused, and one that waits is told so first
    (40, 7, 4, Ok(())),
    (30, 7, 5, Err(FourWait)),
    (30, 7, 3, Err(AlreadyWaits)),
    // a full task does not hinder another one
    (60, 6, 5, Ok(())),
    // the ends of the ranges
    (4_294_967_295, 2, 1, Ok(())),
    (0, 31, 4_294_967_295, Ok(())),
    (0, 31, 4_294_967_294, Ok(())),
    (4_294_967_295, 1, 2, Ok(())),
];

// Task and number of each job that comes out then.
pub const TAKES: [(u32, u32); 11] = [
    (31, 4_294_967_294),
    (31, 4_294_967_295),
    (7, 4),
    (1, 1),
    (7, 1),
    (7, 2),
    (7, 3),
    (32, 1),
    (6, 5),
    (1, 2),
    (2, 1),
];
