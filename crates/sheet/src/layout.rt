// The sizes of a sheet's parts, and the numbers in them.
ghost use Rattle.std.specs.Prelude.{◌≡◌, ◌+◌, ◌≤◌, length, take, drop};
ghost use Rattle.sheet.specs.Sheet.{two_at, four_at, sheet_size};

pub(crate) const HEADER_BYTES: usize = 16;

pub(crate) const ROW_BYTES: usize = 28;

pub(crate) const MOST_ROWS: usize = 32;

// How many bytes the sheet of `count` rows has. That there are at most 32 is a fact of the table or of the header,
// and what is private here asks for it where it reckons.
pub(crate) fn sheet_size(count: usize) -> usize
    requires { count ≤ 32 }
    ensures { result ≡ sheet_size count }
{
    HEADER_BYTES + ROW_BYTES * count
}

// The bytes from `at` on, as many as the array has.
pub(crate) fn array_at<const N: usize>(bytes: &[u8], at: usize) -> [u8; N]
    requires { at + N ≤ length bytes.now }
    ensures { result ≡ take N (drop at bytes.now) }
{
    let mut array = [0; N];
    array.copy_from_slice(&bytes[at..at + N]);
    array
}

// The number in the two bytes from `at` on. It and `u32_at` are two, since `from_be_bytes` is of no trait.
pub(crate) fn u16_at(bytes: &[u8], at: usize) -> u16
    requires { at + 2 ≤ length bytes.now }
    ensures { result ≡ two_at bytes.now at }
{
    u16::from_be_bytes(array_at(bytes, at))
}

// The number in the four bytes from `at` on.
pub(crate) fn u32_at(bytes: &[u8], at: usize) -> u32
    requires { at + 4 ≤ length bytes.now }
    ensures { result ≡ four_at bytes.now at }
{
    u32::from_be_bytes(array_at(bytes, at))
}
