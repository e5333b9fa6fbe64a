// Why a sheet is not written.
ghost use Rattle.std.specs.Prelude.{◌≡◌};
ghost use Rattle.sheet.specs.Faults.{refusal_number};

// A type beside the log's refusal of a short buffer: a signature then says what is not written, and each has its own number.
#[derive(Clone, Copy, Debug, PartialEq, Eq)]
pub enum WriteRefusal {
    // the buffer is shorter than the sheet
    ShortBuffer = 11,
}

impl WriteRefusal {
    // The refusal's number in logs and documents. A method: `u32::from` would not say which number.
    pub fn number(self) -> u32
        ensures { result ≡ refusal_number self }
    {
        self as u32
    }
}
