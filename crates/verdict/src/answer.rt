// What the test says of a table.
ghost use Rattle.std.specs.Prelude.{◌≡◌};
ghost use Rattle.verdict.specs.Test.{number_of};

// An answer of its own, and no Option: it is printed by its number, and `Admitted` says what `None` would not.
#[derive(Clone, Copy, Debug, PartialEq, Eq)]
pub enum Verdict {
    // every row passes
    Admitted,
    // the first row that does not pass, counted from 1
    FailsAt(u32),
}

impl Verdict {
    // As a number: 0 if admitted, else the row that fails.
    pub fn number(self) -> u32
        ensures { result ≡ number_of self }
    {
        match self {
            Verdict::Admitted => 0,
            Verdict::FailsAt(row) => row,
        }
    }
}
