// bench: judges the sheet in the working folder, runs it on the letters of standard input, and prints the log.
#![tactic(auto)]

use program::run::run;
use std::fs::File;
use std::io::BufWriter;

fn bench(rt: &HostRuntime) -> anyhow::Result<()> {
    let mut letters = rt.stdin();
    let mut output = BufWriter::new(rt.alloc(), rt.stdout())?;
    match File::open(rt, "sheet.bin") {
        Ok(mut sheet) => run(&mut sheet, &mut letters, &mut output)?,
        // a file that cannot be opened counts as an empty sheet
        Err(_) => run(&mut &b""[..], &mut letters, &mut output)?,
    }
    Ok(())
}

fn main(rt: HostRuntime) -> anyhow::Result<()> {
    bench(&rt)
}
