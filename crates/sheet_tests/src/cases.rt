// Changes to a sheet of two rows, and what reading answers.
use Number::{Byte, Four, Two};

// A number put into a sheet, its highest byte first.
#[derive(Clone, Copy)]
pub enum Number {
    Byte(u8),
    Two(u16),
    Four(u32),
}

// A number and its place.
pub type Change = (usize, Number);

// Accepted, or the fault's number, layer and row.
pub type Answer = Result<(), (u32, u32, Option<u32>)>;

// How many of the first bytes of the sheet, with which changes, and what reading them answers.
pub type Case = (usize, &'static [Change], Answer);

// Rows (F, P, E, D, H) = (0, 4, 1, 3, 0) and (2, 6, 3, 6, 1), and a byte that is not part of the sheet.
pub const SHEET: [u8; 73] = [
    0, 2, 0, 16, 0, 0, 0, 0, 0, 10, 255, 80, 0, 0, 0, 72, 115, 111, 117, 110, 100, 101, 114, 32, 0,
    0, 0, 0, 0, 0, 0, 1, 0, 0, 0, 3, 0, 0, 0, 0, 0, 4, 0, 0, 115, 99, 114, 101, 101, 110, 32, 32,
    0, 0, 0, 2, 0, 0, 0, 3, 0, 0, 0, 6, 0, 0, 0, 1, 0, 6, 0, 0, 0,
];

pub const CASES: [Case; 50] = [
    // the example sheet
    (72, &[], Ok(())),
    // no bytes
    (0, &[], Err((1, 1, None))),
    // 15 bytes
    (15, &[], Err((1, 1, None))),
    // 16 bytes: a header alone
    (16, &[], Err((4, 1, None))),
    // no rows
    (72, &[(0, Two(0))], Err((2, 2, None))),
    // 33 rows
    (72, &[(0, Two(33))], Err((2, 2, None))),
    // 32 rows, but the length of two
    (72, &[(0, Two(32))], Err((3, 2, None))),
    // 32 rows and their length, but the bytes of two
    (72, &[(0, Two(32)), (12, Four(912))], Err((4, 1, None))),
    // row offset 17
    (72, &[(2, Two(17))], Err((3, 2, None))),
    // handler count 1
    (72, &[(4, Two(1))], Err((3, 2, None))),
    // handler offset 1
    (72, &[(6, Two(1))], Err((3, 2, None))),
    // cycle 720,721
    (72, &[(8, Four(720_721))], Err((3, 2, None))),
    // length 71 told
    (72, &[(12, Four(71))], Err((3, 2, None))),
    // 71 bytes
    (71, &[], Err((4, 1, None))),
    // 73 bytes
    (73, &[], Err((4, 1, None))),
    // one row and its length
    (44, &[(0, Two(1)), (12, Four(44))], Ok(())),
    // label byte 31
    (72, &[(16, Byte(31))], Err((5, 3, Some(1)))),
    // label byte 32
    (72, &[(16, Byte(32))], Ok(())),
    // label byte 126
    (72, &[(23, Byte(126))], Ok(())),
    // label byte 127
    (72, &[(23, Byte(127))], Err((5, 3, Some(1)))),
    // first closing byte 1
    (72, &[(70, Byte(1))], Err((5, 3, Some(2)))),
    // second closing byte 1
    (72, &[(71, Byte(1))], Err((5, 3, Some(2)))),
    // code 0
    (72, &[(40, Two(0))], Err((6, 3, Some(1)))),
    // code 240
    (72, &[(68, Two(240))], Ok(())),
    // code 241
    (72, &[(68, Two(241))], Err((6, 3, Some(2)))),
    // deadline 0
    (72, &[(32, Four(0))], Err((7, 3, Some(1)))),
    // deadline 4 x P
    (72, &[(60, Four(24))], Ok(())),
    // deadline above 4 x P
    (72, &[(60, Four(25))], Err((7, 3, Some(2)))),
    // deadline of the row before
    (72, &[(60, Four(3))], Ok(())),
    // deadline below the row before
    (72, &[(60, Four(2))], Err((7, 3, Some(2)))),
    // phase 720,720
    (72, &[(24, Four(720_720))], Ok(())),
    // phase 720,721
    (72, &[(24, Four(720_721))], Err((8, 3, Some(1)))),
    // execution 0
    (72, &[(28, Four(0))], Err((9, 3, Some(1)))),
    // execution of the deadline
    (72, &[(28, Four(3))], Ok(())),
    // execution above the deadline
    (72, &[(28, Four(4))], Err((9, 3, Some(1)))),
    // execution of the period
    (72, &[(56, Four(6)), (60, Four(9))], Ok(())),
    // execution above the period
    (72, &[(56, Four(7)), (60, Four(9))], Err((9, 3, Some(2)))),
    // hold of the execution
    (72, &[(64, Four(3))], Ok(())),
    // hold above the execution
    (72, &[(64, Four(4))], Err((10, 3, Some(2)))),
    // no rows, and a wrong offset
    (72, &[(0, Two(0)), (2, Two(17))], Err((2, 2, None))),
    // a wrong offset, and too few bytes
    (71, &[(2, Two(17))], Err((3, 2, None))),
    // too few bytes, and a bad label
    (71, &[(16, Byte(31))], Err((4, 1, None))),
    // a bad label and a bad code
    (72, &[(16, Byte(31)), (40, Two(241))], Err((5, 3, Some(1)))),
    // a bad code and a bad closing byte
    (72, &[(40, Two(241)), (42, Byte(1))], Err((5, 3, Some(1)))),
    // a bad code and a bad deadline
    (72, &[(40, Two(0)), (32, Four(0))], Err((6, 3, Some(1)))),
    // a bad deadline and a bad phase
    (
        72,
        &[(32, Four(0)), (24, Four(720_721))],
        Err((7, 3, Some(1))),
    ),
    // a bad phase and a bad execution
    (
        72,
        &[(24, Four(720_721)), (28, Four(0))],
        Err((8, 3, Some(1))),
    ),
    // a bad execution and a bad hold
    (72, &[(28, Four(0)), (36, Four(1))], Err((9, 3, Some(1)))),
    // a bad hold in row 1, and a bad label in row 2
    (72, &[(44, Byte(31)), (36, Four(2))], Err((10, 3, Some(1)))),
    // a bad label in row 2, and nothing in row 1
    (72, &[(44, Byte(127)), (64, Four(99))], Err((5, 3, Some(2)))),
];
