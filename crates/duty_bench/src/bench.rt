// The bench. It comes from opening alone, and cannot be copied.
use crate::parts::Parts;
use heap::releases::Releases;
use ready::queue::ReadyQueue;
use std::marker::Model;
use verdict::judged::Judged;

pub struct Bench<Q: ReadyQueue> {
    pub(crate) judged: Judged,
    // the next release of each task
    pub(crate) coming: Releases,
    pub(crate) parts: Parts<Q>,
}

// Contracts see the rows of its table and a state of the rules. That a run leaves it is part of its own type.
impl<Q: ReadyQueue> Model for Bench<Q> {
    ghost use Rattle.duty_bench.specs.Model.{BenchState, bench_of};
    ghost use Rattle.duty_bench.specs.Reached.{Kept};

    ghost Value = { BenchState };

    ghost view = { λ b. bench_of Q.waiting b.judged b.parts };

    ghost invariant = { λ b. Kept Q.waiting b.judged b.coming b.parts };
}
