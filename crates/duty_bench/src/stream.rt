// A run on letters that come from a reader, with its log going to a writer.
ghost use Rattle.std.specs.Prelude.{◌≡◌, ℕ, List, map, take};
ghost use Rattle.rules.specs.declared.call.Call.TheVariants.{Step};
ghost use Rattle.rules.specs.Promises.{Promised};
ghost use Rattle.rules.specs.Run.{run_from, after_run, closing_of};
ghost use Rattle.duty_bench.specs.Model.{judged_rows};

use crate::bench::Bench;
use crate::open::open;
use duty_log::logged::Logged;
use ready::queue::ReadyQueue;
use rules::closing::Closing;
use std::io;
use std::io::{Read, Write};
use verdict::judged::Judged;

impl<Q: ReadyQueue> Bench<Q> {
    // Steps with each byte, as the character of that number, and hands each step's lines to the writer; ends early where that fails.
    fn feed<W: Write>(&mut self, letters: &[u8], output: &mut W) -> io::Result<()>
        ensures state { (n : ℕ) × (self.new.state ≡ run_from self.old.rows (map Step (take n letters.now)) self.old.state) }
        ensures rows { self.new.rows ≡ self.old.rows }
    {
        for letter in letters {
            self.step(char::from(*letter)).print(output)?;
        }
        Ok(())
    }
}

// The most bytes that are read at a time.
const CHUNK: usize = 4096;

impl<Q: ReadyQueue> Bench<Q> {
    // Reads letters to the end of the input and steps with each; ends early where reading or writing fails.
    // What a chunk of letters gave is written out before the next chunk is waited for.
    fn follow<R: Read, W: Write>(&mut self, input: &mut R, output: &mut W) -> io::Result<()>
        ensures state { (letters : List ℕ) × (self.new.state ≡ run_from self.old.rows (map Step letters) self.old.state) }
        ensures rows { self.new.rows ≡ self.old.rows }
    {
        let mut chunk = [0u8; CHUNK];
        // counted, since nothing else bounds how often an input has more
        for _ in 0..u64::MAX {
            let count = input.read(&mut chunk)?;
            if count == 0 {
                break;
            }
            self.feed(&chunk[0..count], output)?;
            output.flush()?;
        }
        Ok(())
    }
}

// Opens a bench on the judged table over the queue, steps with each letter that comes from the input, hands the lines of
// each step to the output, and closes the bench. Gives what closing gives, and whether reading and writing went well.
pub fn stream<Q: ReadyQueue, R: Read, W: Write>(
    judged: Judged,
    queue: Q,
    input: &mut R,
    output: &mut W,
) -> (Closing, io::Result<()>)
    ensures rules { (letters : List ℕ) × (result.0 ≡ closing_of (after_run (judged_rows judged) (map Step letters))) }
    ensures promised { Promised (judged_rows judged) result.0 }
{
    let mut bench = open(judged, queue);
    let went = bench.follow(input, output);
    (bench.close(), went)
}
