// The text of a line, or of a step's lines. It is put together by hand: `write!` cannot be proved never to fail, and the
// program takes twice as long where it prints by it.
ghost use Rattle.std.specs.Prelude.{◌≡◌, ◌+◌, ◌≤◌, ◌<◌, [], ◌∷◌, ◌++◌, length, decimal};
ghost use Rattle.duty_log.specs.Lines.{longest};
ghost use Rattle.duty_log.specs.Written.{Written};

use crate::line::LONGEST;
use crate::refusal::LogRefusal;
use std::marker::Model;

// The bytes so far. They stand at the front of an array that has room for the longest, since there is no heap.
#[derive(Drop)]
pub struct Text {
    bytes: [u8; LONGEST],
    len: usize,
}

impl Model for Text {
    ghost use Rattle.std.specs.Prelude.{ℕ, List, ◌≤◌, take};
    ghost use Rattle.duty_log.specs.Lines.{longest};

    ghost Value = { List ℕ };

    ghost view = { λ t. take t.len t.bytes };

    ghost invariant = { λ t. t.len ≤ longest };
}

impl Text {
    // A text with nothing in it.
    pub(crate) fn new() -> Text
        ensures { result ≡ [] }
    {
        Text {
            bytes: [0; LONGEST],
            len: 0,
        }
    }

    // Adds a byte.
    fn push(&mut self, byte: u8)
        requires { length self.old < longest }
        ensures { self.new ≡ self.old ++ byte ∷ [] }
    {
        self.bytes[self.len] = byte;
        self.len += 1;
    }

    // Adds some bytes.
    pub(crate) fn append(&mut self, part: &[u8])
        requires { length self.old + length part.now ≤ longest }
        ensures { self.new ≡ self.old ++ part.now }
    {
        let end = self.len + part.len();
        self.bytes[self.len..end].copy_from_slice(part);
        self.len = end;
    }

    // Adds a number in decimal. Its digits come last first: those after the first are put together from the end of an array.
    // Their place is counted, since they are cut off there at last, whatever the loop; a recursion takes half as long again.
    fn digits(&mut self, n: u32)
        requires { length self.old + length (decimal n) ≤ longest }
        ensures { self.new ≡ self.old ++ decimal n }
    {
        let mut digits = [0; 10];
        let mut first = 10;
        let mut rest = n;
        while rest >= 10 {
            first -= 1;
            digits[first] = b'0' + (rest % 10) as u8;
            rest /= 10;
        }
        self.push(b'0' + rest as u8);
        self.append(&digits[first..]);
    }

    // Adds a number and the byte that ends it, a space or the end of the line.
    #[tactic(auto, using(crate::proofs::Digits::field_lengths))]
    pub(crate) fn field(&mut self, n: u32, end: u8)
        requires { length self.old + 11 ≤ longest }
        ensures bytes { self.new ≡ self.old ++ (decimal n ++ end ∷ []) }
        ensures len { length self.new ≤ length self.old + 11 }
    {
        self.digits(n);
        self.push(end);
    }

    // The bytes.
    pub fn as_bytes(&self) -> &[u8]
        ensures bytes { result.now ≡ self.now }
        ensures fits { length self.now ≤ longest }
    {
        &self.bytes[..self.len]
    }

    // Copies the text to the front of `out`, or refuses where there is no room for all of it.
    pub(crate) fn copy_to(&self, out: &mut [u8]) -> Result<usize, LogRefusal>
        ensures { Written self.now result out.old out.new }
    {
        let bytes = self.as_bytes();
        if out.len() < bytes.len() {
            return Err(LogRefusal::ShortBuffer);
        }
        out[..bytes.len()].copy_from_slice(bytes);
        Ok(bytes.len())
    }
}
