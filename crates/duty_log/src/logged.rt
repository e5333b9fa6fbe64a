// What stands in a log, and how it is written.
ghost use Rattle.std.specs.Prelude.{◌≡◌, ℕ, ◌≤◌, List, length, OnOk};
ghost use Rattle.std.specs.Io.KnownBytes.{Appends};
ghost use Rattle.duty_log.specs.Lines.{longest};
ghost use Rattle.duty_log.specs.Written.{Written};

use crate::refusal::LogRefusal;
use crate::text::Text;
use std::io;
use std::io::Write;

// A line, or the lines of a step: what has bytes in a log.
pub trait Logged {
    // the bytes as they stand in the log
    ghost bytes: { Self → List ℕ };

    // Puts the bytes together.
    fn text(&self) -> Text
        ensures { result ≡ bytes self.now };

    // Writes the bytes to the front of `out`, and says how many they are.
    // A buffer that is too short is left as it was; one of `LONGEST` bytes never is.
    final fn write(&self, out: &mut [u8]) -> Result<usize, LogRefusal>
        ensures written { Written (bytes self.now) result out.old out.new }
        ensures fits { length (bytes self.now) ≤ longest }
    {
        self.text().copy_to(out)
    }

    // Hands the bytes to a writer.
    final fn print<W: Write>(&self, output: &mut W) -> io::Result<()>
        ensures { OnOk result (Appends (W.contents output.old) (W.contents output.new) (bytes self.now)) }
    {
        output.write_all(self.text().as_bytes())
    }
}
