//! Messages and sums as numbers: bit `i` of the number is bit `i` of the message.

ghost use Rattle.std.specs.Prelude.{◌≡◌, ℕ, ◌*◌, ◌^◌, ◌<◌, ◌≤◌, Bool, length, slice_index};
ghost use Rattle.std.specs.Int.{bit_at};
ghost use Rattle.wom_code.specs.Packed.{word_bit};
ghost use Rattle.coset_code.specs.Sums.{syndrome, bits_of};

/// The number whose bits are those of a packed message of at most 128.
pub fn number_of(words: &[u64]) -> u128
    requires { length words.now ≤ 2 }
    ensures { (i : ℕ) → bit_at result i ≡ word_bit words.now i }
{
    match words {
        [] => 0,
        [low] => *low as u128,
        [low, high, ..] => (*high as u128) << 64 | *low as u128,
    }
}

/// Writes the bits of a number as a packed message.
pub fn write_number(number: u128, words: &mut [u64])
    requires room { length words.old ≤ 2 }
    requires fits { number < 2 ^ (64 * length words.old) }
    ensures { (i : ℕ) → word_bit words.new i ≡ bit_at number i }
{
    for (place, word) in words.iter_mut().enumerate() {
        *word = (number >> (64 * place) & u64::MAX as u128) as u64;
    }
}

/// The sum of the columns of the charged cells.
pub fn sum_of(columns: &[u128], cells: &[bool]) -> u128
    requires { length columns.now ≡ length cells.now }
    ensures { result ≡ syndrome columns.now cells.now }
{
    let mut sum = 0;
    for (cell, column) in columns.iter().enumerate() {
        if cells[cell] {
            sum ^= *column;
        }
    }
    sum
}

/// Writes the lowest bits of a number as truth values.
pub fn write_bits(number: u128, bits: &mut [bool])
    requires { length bits.old ≤ 128 }
    ensures { bits.new ≡ bits_of (length bits.old) number }
{
    for (i, bit) in bits.iter_mut().enumerate() {
        *bit = number >> i & 1 == 1;
    }
}
