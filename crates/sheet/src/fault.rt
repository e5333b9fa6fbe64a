// What is wrong with a sheet.
ghost use Rattle.std.specs.Prelude.{◌≡◌};
ghost use Rattle.sheet.specs.Faults.{rule_number, layer_number, number_of, layer_of, row_of_fault};

// The rules of a row, in the order in which they are tried, each with the number of the fault that its breach is.
#[derive(Clone, Copy, Debug, PartialEq, Eq)]
pub enum Rule {
    // eight printable characters, and two closing bytes of 0
    Text = 5,
    // the code names a period of the list
    Code = 6,
    // the deadline is 1 to four periods, and not below that of the row before
    Deadline = 7,
    // the phase is at most the cycle
    Phase = 8,
    // the execution is 1 to the smaller of period and deadline
    Execution = 9,
    // the hold is at most the execution
    Hold = 10,
}

impl Rule {
    // The number of the fault that a broken rule is. A method: `u32::from` would not say which number.
    fn number(self) -> u32
        ensures { result ≡ rule_number self }
    {
        self as u32
    }
}

// The readers of a sheet, each of which calls the next.
#[derive(Clone, Copy, Debug, PartialEq, Eq)]
pub enum Layer {
    Bytes = 1,
    Header = 2,
    Row = 3,
}

impl Layer {
    // The layer's number in logs and documents. A method: `u32::from` would not say which number.
    pub fn number(self) -> u32
        ensures { result ≡ layer_number self }
    {
        self as u32
    }
}

#[derive(Clone, Copy, Debug, PartialEq, Eq)]
pub enum Fault {
    // fewer bytes than a header has
    Short,
    // no rows, or more than 32
    RowCount,
    // another field of the header is not as the layout has it
    Header,
    // not as many bytes as the header says
    Length,
    // a row, counted from 1, breaks a rule
    Broken { rule: Rule, row: u32 },
}

impl Fault {
    // The fault's number in logs and documents. By a match: a broken rule has its own, so a fault has no number beside each case.
    pub fn number(self) -> u32
        ensures { result ≡ number_of self }
    {
        match self {
            Fault::Short => 1,
            Fault::RowCount => 2,
            Fault::Header => 3,
            Fault::Length => 4,
            Fault::Broken { rule, .. } => rule.number(),
        }
    }

    // The reader that found it.
    pub fn layer(self) -> Layer
        ensures { result ≡ layer_of self }
    {
        match self {
            Fault::Short | Fault::Length => Layer::Bytes,
            Fault::RowCount | Fault::Header => Layer::Header,
            Fault::Broken { .. } => Layer::Row,
        }
    }

    // The row that breaks a rule, counted from 1, where the fault is of a row.
    pub fn row(self) -> Option<u32>
        ensures { result ≡ row_of_fault self }
    {
        match self {
            Fault::Broken { row, .. } => Some(row),
            _ => None,
        }
    }
}
