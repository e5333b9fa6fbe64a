// A row of a table: one periodic task.
#[derive(Clone, Copy, Debug, PartialEq, Eq)]
pub struct Row {
    // eight printable characters
    pub label: [u8; 8],
    // when the first job is released
    pub phase: u32,
    // the ticks from one release to the next
    pub period: u32,
    // the place of the period in the period list, from 1 on
    pub code: u16,
    // the longest run of a job, in ticks
    pub execution: u32,
    // the ticks from a job's release to its deadline
    pub deadline: u32,
    // the most ticks in a row for which a job may hold the processor
    pub hold: u32,
}

impl Row {
    // The row of a new table.
    pub const BLANK: Row = Row {
        label: [32; 8],
        phase: 0,
        period: 1,
        code: 1,
        execution: 1,
        deadline: 1,
        hold: 0,
    };
}
