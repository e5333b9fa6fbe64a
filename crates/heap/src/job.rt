// Waiting jobs as entries of a heap, the most urgent first.
ghost use Rattle.ready.specs.Order.{before as urgent};
ghost use Rattle.heap.specs.Jobs.{job_fields};
ghost use Rattle.std.proofs.Common.{rules};

use crate::entry::HeapEntry;
use ready::job::Job;

impl HeapEntry for Job {
    // four jobs of each of 32 tasks, written out: each kind of entry is to name its own number
    const MOST: usize = 128;

    ghost MOST = { 128 };

    ghost fields = { job_fields };

    ghost ahead = { urgent };

    ghost one = { Prim.search rules };

    ghost neither = { Prim.search rules };

    ghost chain = { Prim.search rules };

    fn before(&self, other: &Job) -> bool {
        self.is_before(other)
    }
}
