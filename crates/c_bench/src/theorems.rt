// What is true of the lines that callers get.
ghost use Rattle.c_bench.specs.Examples.{LinesAsWritten};

// Lines of sheets and runs, by example.
pub fn worked_lines()
    ensures { LinesAsWritten }
{}
