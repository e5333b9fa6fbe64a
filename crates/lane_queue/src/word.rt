// One bit of a word, set or cleared.
ghost use Rattle.std.specs.Prelude.{◌≡◌, ◌-◌, ◌*◌, ◌%◌, ◌^◌, ◌<◌, bit_and, bit_or};

// The word with bit i set.
pub(crate) fn with_bit(word: u32, i: usize) -> u32
    requires { i < 32 }
    ensures { result ≡ bit_or word ((1 * 2 ^ i) % 2 ^ 32) }
{
    word | (1 << i)
}

// The word with bit i cleared.
pub(crate) fn without_bit(word: u32, i: usize) -> u32
    requires { i < 32 }
    ensures { result ≡ bit_and word (2 ^ 32 - 1 - (1 * 2 ^ i) % 2 ^ 32) }
{
    word & !(1 << i)
}
