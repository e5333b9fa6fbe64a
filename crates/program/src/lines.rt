// The lines of a log that no step gives.
ghost use Rattle.std.specs.Prelude.{◌≡◌};
ghost use Rattle.program.specs.Lines.{fault_line, last_line};

use duty_log::line::{End, Line};
use rules::closing::Closing;
use sheet::fault::Fault;

// The single line of a refused sheet.
pub fn fault_line(fault: Fault) -> Line
    ensures { result ≡ fault_line fault }
{
    Line::Sheet(fault)
}

// The last line of a log.
pub fn last_line(closing: &Closing) -> Line
    ensures { result ≡ last_line closing.now }
{
    Line::End(End {
        clock: closing.clock,
        idle: closing.counts.idle,
        begun: closing.counts.begun,
        interruptions: closing.counts.interruptions,
    })
}
