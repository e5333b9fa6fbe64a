// What is true of sheets and tables as a whole.
ghost use Rattle.sheet.specs.Examples.{BuffersAsLeft, FaultsInOrder, Numbered, RowEdges};
ghost use Rattle.sheet.specs.Laws.{ReadsBack, WritesBack, SaysLawful, LongerAlike, RowsHaveTable, RowsMakeTable, NewSheet, RangeEnds};

// The sheet of lawful rows says those rows, and bytes that say rows are their sheet.
pub fn round_trips()
    ensures reads { ReadsBack }
    ensures writes { WritesBack }
    ensures lawful { SaysLawful }
{}

// A file that is longer than any sheet gets its fault from any part of it that is.
pub fn longer_files_get_the_same_fault()
    ensures { LongerAlike }
{}

// A table is told by its rows.
pub fn rows_make_the_table()
    ensures one { RowsMakeTable }
    ensures some { RowsHaveTable }
{}

// The bytes of the smallest sheet.
pub fn new_sheet()
    ensures { NewSheet }
{}

// The last code and the longest deadline are read, and the next ones are faults.
pub fn range_ends()
    ensures { RangeEnds }
{}

// Sheets at the edges of what is accepted, faults in their order with their numbers, and buffers.
pub fn sheets_by_example()
    ensures edges { RowEdges }
    ensures order { FaultsInOrder }
    ensures numbered { Numbered }
    ensures buffers { BuffersAsLeft }
{}
