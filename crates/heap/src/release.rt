// Coming releases as entries of a heap, the earliest first.
ghost use Rattle.heap.specs.Coming.{release_fields, earlier};
ghost use Rattle.std.proofs.Common.{rules};

use crate::entry::HeapEntry;

// The next release of a task.
#[derive(Clone, Copy, Debug, PartialEq, Eq, PartialOrd, Ord, Default)]
pub struct Release {
    // the clock at which the job is released
    pub time: u32,
    // its task, from 1 on
    pub task: u32,
}

impl HeapEntry for Release {
    // one for each of 32 tasks, written out: each kind of entry is to name its own number
    const MOST: usize = 32;

    ghost MOST = { 32 };

    ghost fields = { release_fields };

    ghost ahead = { earlier };

    ghost one = { Prim.search rules };

    ghost neither = { Prim.search rules };

    ghost chain = { Prim.search rules };

    fn before(&self, other: &Release) -> bool {
        self < other
    }
}
