// Why a queue does not take a job.
ghost use Rattle.std.specs.Prelude.{◌≡◌};
ghost use Rattle.ready.specs.Refusals.{number_of};

#[derive(Clone, Copy, Debug, PartialEq, Eq)]
pub enum PutRefusal {
    // the task is 0 or above 32
    NoSuchTask = 16,
    // the job of that task and number waits already
    AlreadyWaits = 17,
    // four jobs of that task wait
    FourWait = 18,
}

impl PutRefusal {
    // The refusal's number in logs and documents. A method: `u32::from` would not say which number.
    pub fn number(self) -> u32
        ensures { result ≡ number_of self }
    {
        self as u32
    }
}
