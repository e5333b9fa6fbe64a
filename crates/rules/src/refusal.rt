// Why a question is refused.
ghost use Rattle.std.specs.Prelude.{◌≡◌};
ghost use Rattle.rules.specs.Refusals.{question_number};

#[derive(Clone, Copy, Debug, PartialEq, Eq)]
pub enum QuestionRefusal {
    // the task is 0 or beyond the rows
    NoSuchTask = 15,
}

impl QuestionRefusal {
    // The refusal's number in logs and documents. A method: `u32::from` would not say which number.
    pub fn number(self) -> u32
        ensures { result ≡ question_number self }
    {
        self as u32
    }
}
