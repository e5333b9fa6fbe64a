use crate::cases::{Answer, CASES, Change, Number, SHEET};
use sheet::table::Table;

fn put(bytes: &mut [u8], at: usize, digits: &[u8]) {
    for (byte, digit) in bytes.iter_mut().skip(at).zip(digits) {
        *byte = *digit;
    }
}

fn change(bytes: &mut [u8], at: usize, number: Number) {
    match number {
        Number::Byte(n) => put(bytes, at, &[n]),
        Number::Two(n) => put(bytes, at, &n.to_be_bytes()),
        Number::Four(n) => put(bytes, at, &n.to_be_bytes()),
    }
}

fn answer(length: usize, changes: &[Change]) -> Answer {
    let mut bytes = SHEET;
    for (at, number) in changes {
        change(&mut bytes, *at, *number);
    }
    let mut table = Table::new();
    let read = table.read(&bytes[..length.min(SHEET.len())]);
    read.map_err(|fault| (fault.number(), fault.layer().number(), fault.row()))
}

#[test]
fn each_refusal_at_its_edge(rt: HostRuntime) {
    for (length, changes, expected) in &CASES {
        assert_eq!(rt; answer(*length, changes), *expected);
    }
}

#[test]
fn an_accepted_sheet_is_written_again_to_the_byte(rt: HostRuntime) {
    let mut table = Table::new();
    assert!(rt; table.read(&SHEET[..72]).is_ok());
    let mut out = [7u8; 80];
    assert_eq!(rt; table.write(&mut out).ok(), Some(72));
    assert!(rt; out[..72] == SHEET[..72]);
    assert!(rt; out[72..] == [7u8; 8]);
    let mut short = [7u8; 71];
    assert!(rt; table.write(&mut short).is_err());
    assert!(rt; short == [7u8; 71]);
}
