// Sheets to run, as rows of phase, period, execution, deadline and hold.
use sheet::fault::Fault;
use sheet::table::Table;

// The periods here are at most 16, where a period is its own code.
pub type Task = (u32, u32, u32, u32, u32);

pub const EXAMPLE: [Task; 2] = [(0, 4, 1, 3, 0), (2, 6, 3, 6, 1)];

// More work than there is time: it stops soon.
pub const OVERLOADED: [Task; 2] = [(0, 4, 2, 2, 0), (0, 4, 3, 4, 0)];

// Nearly as much work as time, deadlines below and above the periods, and holds.
pub const MIXED: [Task; 8] = [
    (3, 9, 1, 5, 1),
    (5, 14, 3, 8, 0),
    (0, 12, 1, 14, 1),
    (16, 16, 1, 24, 0),
    (19, 16, 4, 30, 0),
    (9, 15, 4, 36, 3),
    (1, 16, 1, 44, 1),
    (20, 15, 2, 52, 2),
];

// 32 tasks with the longest jobs and deadlines: four jobs of nearly every task wait before the first miss.
pub const CROWDED: [Task; 32] = [(0, 16, 16, 64, 4); 32];

// Puts in a big-endian number at a place. The tests of sheets have their own, since it is one line.
fn put(bytes: &mut [u8], at: usize, number: u32) {
    for (byte, digit) in bytes.iter_mut().skip(at).zip(number.to_be_bytes()) {
        *byte = digit;
    }
}

// Puts in a row, with a blank label.
fn put_row(bytes: &mut [u8], task: Task) {
    let (phase, period, execution, deadline, hold) = task;
    put(bytes, 0, 0x2020_2020);
    put(bytes, 4, 0x2020_2020);
    put(bytes, 8, phase);
    put(bytes, 12, execution);
    put(bytes, 16, deadline);
    put(bytes, 20, hold);
    put(bytes, 24, period.wrapping_mul(65536));
}

// Fills in the sheet of these rows, and gives its size: no heap memory is asked for.
pub fn fill(bytes: &mut [u8; 912], tasks: &[Task]) -> usize {
    let count = tasks.len().min(32);
    let size = 16 + 28 * count;
    put(bytes, 0, count as u32 * 65536 + 16);
    put(bytes, 8, 720_720);
    put(bytes, 12, size as u32);
    for (row, task) in bytes[16..].chunks_exact_mut(28).zip(tasks) {
        put_row(row, *task);
    }
    size.min(912)
}

// The table of the sheet with these rows.
pub fn table(tasks: &[Task]) -> Result<Table, Fault> {
    let mut bytes = [0u8; 912];
    let end = fill(&mut bytes, tasks).min(912);
    let mut table = Table::new();
    table.read(&bytes[0..end])?;
    Ok(table)
}
