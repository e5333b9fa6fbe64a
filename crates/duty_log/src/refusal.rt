// Why a step is refused, and why a line is not written.
ghost use Rattle.std.specs.Prelude.{◌≡◌};
ghost use Rattle.duty_log.specs.Refusals.{number_of, step_number};

#[derive(Clone, Copy, Debug, PartialEq, Eq)]
pub enum StepRefusal {
    // the bench is stopped
    Stopped = 12,
    // the clock is at its last value
    LastClock = 13,
    // the letter is none of r, h, f
    NoSuchLetter = 14,
}

impl StepRefusal {
    // The refusal's number in logs and documents. A method: `u32::from` would not say which number.
    pub fn number(self) -> u32
        ensures { result ≡ step_number self }
    {
        self as u32 // 12, 13 or 14
    }
}

// A type beside the sheet's refusal of a short buffer: a signature then says what is not written, and each has its own number.
#[derive(Clone, Copy, Debug, PartialEq, Eq)]
pub enum LogRefusal {
    // the buffer is shorter than what is to be written
    ShortBuffer = 19,
}

impl LogRefusal {
    // The refusal's number in logs and documents. A method: `u32::from` would not say which number.
    pub fn number(self) -> u32
        ensures { result ≡ number_of self }
    {
        self as u32
    }
}
