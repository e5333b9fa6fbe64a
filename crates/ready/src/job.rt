// A job that is released and not done: what a ready queue holds.
ghost use Rattle.std.specs.Prelude.{◌≡◌};

// A job by its task and its number.
#[derive(Clone, Copy, Debug, PartialEq, Eq)]
pub struct JobId {
    pub task: u32,
    pub number: u32,
}

#[derive(Clone, Copy, Debug, PartialEq, Eq, Default)]
pub struct Job {
    // its rank among waiting jobs: the smaller key is the more urgent
    pub key: u32,
    // its task, from 1 on
    pub task: u32,
    // its number among the jobs of its task, from 1 on
    pub number: u32,
    // the units of execution that are left
    pub left: u32,
}

impl Job {
    ghost use Rattle.ready.specs.Jobs.{id_of};

    // Which job it is.
    pub fn id(&self) -> JobId
        ensures { result ≡ id_of self.now }
    {
        JobId {
            task: self.task,
            number: self.number,
        }
    }
}
