// Whole logs of the program, from a sheet and letters that come in two parts each.
use crate::sheets::{EXAMPLE, OVERLOADED, Task, fill};
use program::run::run;
use std::io;
use std::io::{Cursor, ErrorKind, Read};
use std::process::Abort;

// A run has this log.
fn logged(rt: &impl Abort, sheet: &mut impl Read, letters: &mut impl Read, expected: &[u8]) {
    let mut log = [0u8; 400];
    let mut output = Cursor::new(&mut log[..]);
    let went = run(sheet, letters, &mut output);
    assert!(rt; went.is_ok());
    let size = output.position();
    assert_eq!(rt; size, expected.len() as u64);
    assert!(rt; &log[..expected.len().min(400)] == expected);
}

// A run with a sheet and letters, each cut at a place, has this log.
fn has_log(rt: &impl Abort, sheet: &[u8], letters: &[u8], cut: usize, expected: &[u8]) {
    let (first, second) = sheet.split_at(cut.min(sheet.len()));
    let (head, tail) = letters.split_at(cut.min(letters.len()));
    logged(
        rt,
        &mut first.chain(second),
        &mut head.chain(tail),
        expected,
    );
}

// The sheet of these rows, whole and in parts.
fn logs(rt: &impl Abort, tasks: &[Task], letters: &[u8], expected: &[u8]) {
    let mut bytes = [0u8; 912];
    let size = fill(&mut bytes, tasks).min(912);
    for cut in [0usize, 1, 20, 1000] {
        has_log(rt, &bytes[..size], letters, cut, expected);
    }
}

#[test]
fn the_example_is_logged(rt: HostRuntime) {
    let log =
        b"tick task job left event\nverdict 0\n0 1 1 0 d\n1 0 0 0 i\n2 2 1 2 r\n3 2 1 1 r\n4 1 2 0 d\n5 2 1 0 d\nend 6 1 3 1\n";
    logs(&rt, &EXAMPLE, b"rrrrrr", log);
}

#[test]
fn holds_early_ends_and_refused_letters_are_logged(rt: HostRuntime) {
    let log =
        b"tick task job left event\nverdict 0\n0 1 1 0 d\nrefused 14\n1 0 0 0 i\nrefused 14\n2 2 1 2 h\n3 2 1 1 d\nrefused 14\n4 1 2 0 d\nend 5 1 3 0\n";
    logs(&rt, &EXAMPLE, b"r\nhRhf f", log);
}

#[test]
fn a_miss_is_logged_and_then_refusals(rt: HostRuntime) {
    let log =
        b"tick task job left event\nverdict 2\n0 1 1 1 r\n1 1 1 0 d\n2 2 1 2 r\n3 2 1 1 r\nmiss 2 1\nrefused 12\nrefused 12\nend 4 0 2 0\n";
    logs(&rt, &OVERLOADED, b"rrrrrx", log);
}

#[test]
fn no_letters_give_no_ticks(rt: HostRuntime) {
    logs(
        &rt,
        &EXAMPLE,
        b"",
        b"tick task job left event\nverdict 0\nend 0 0 0 0\n",
    );
}

#[test]
fn refused_sheets_have_one_line(rt: HostRuntime) {
    has_log(&rt, b"", b"rrr", 0, b"sheet 1 1 0\n");
    // the second row's deadline is 0
    logs(
        &rt,
        &[(0, 4, 1, 3, 0), (2, 6, 3, 0, 1)],
        b"rrr",
        b"sheet 7 3 2\n",
    );
}

// 32 rows, and then a byte, or many bytes, that belong to no row.
#[test]
fn longer_files_are_refused(rt: HostRuntime) {
    let mut bytes = [0u8; 912];
    let _ = fill(&mut bytes, &[(0, 16, 1, 16, 0); 32]);
    let refused = b"sheet 4 1 0\n";
    logged(
        &rt,
        &mut bytes[..].chain(&b"x"[..]),
        &mut &b"r"[..],
        refused,
    );
    logged(
        &rt,
        &mut bytes[..].chain(&[32u8; 5000][..]),
        &mut &b"r"[..],
        refused,
    );
}

// More letters than are read at a time: each of them is a step.
#[test]
fn every_letter_is_a_step(rt: HostRuntime) {
    let mut bytes = [0u8; 912];
    let size = fill(&mut bytes, &EXAMPLE).min(912);
    let letters = [114u8; 10_000];
    let mut log = [0u8; 160_000];
    let mut output = Cursor::new(&mut log[..]);
    let went = run(&mut &bytes[..size], &mut &letters[..], &mut output);
    assert!(rt; went.is_ok());
    let end = output.position() as usize;
    let last = b"end 10000 2500 4167 833\n";
    assert!(rt; end >= last.len() && end <= 160_000);
    assert!(rt; &log[end - last.len()..end] == &last[..]);
}

// A reader of which one read is interrupted, before its bytes come.
#[derive(Drop)]
struct InterruptedOnce<'a> {
    interrupted: bool,
    bytes: &'a [u8],
}

impl Read for InterruptedOnce<'_> {
    fn read(&mut self, buffer: &mut [u8]) -> io::Result<usize> {
        if self.interrupted {
            self.interrupted = false;
            return Err(io::Error::from(ErrorKind::Interrupted));
        }
        self.bytes.read(buffer)
    }
}

// A read that fails ends the run, also one that a second try would mend; nothing is printed then.
#[test]
fn an_interrupted_sheet_ends_the_run(rt: HostRuntime) {
    let mut bytes = [0u8; 912];
    let size = fill(&mut bytes, &EXAMPLE).min(912);
    let mut log = [0u8; 400];
    let mut output = Cursor::new(&mut log[..]);
    let mut sheet = InterruptedOnce {
        interrupted: true,
        bytes: &bytes[..size],
    };
    let went = run(&mut sheet, &mut &b"rrrrrr"[..], &mut output);
    assert!(rt; went.is_err());
    assert_eq!(rt; output.position(), 0);
}
