//! Chunks side by side in one word: chunk `j` has the `N` cells from bit `j * N` on.

ghost use Rattle.std.specs.Prelude.{◌≡◌, ℕ, ◌+◌, ◌-◌, ◌≤◌, ◌<◌, ◌^◌};
ghost use Rattle.std.specs.Int.{bit_at};
ghost use Rattle.wom_code.specs.Packed.{IsRow, word_bit};

/// The number whose lowest `count` bits are set.
fn ones(count: usize) -> u64
    requires some { 1 ≤ count }
    requires word { count ≤ 64 }
    ensures { result ≡ 2 ^ count - 1 }
{
    u64::MAX >> (64 - count)
}

/// The `count` bits of a word from bit `at` on.
pub fn bits_from(word: u64, at: usize, count: usize) -> u64
    requires some { 1 ≤ count }
    requires within { at + count ≤ 64 }
    ensures bits { (i : ℕ) → i < count → bit_at result i ≡ bit_at word (at + i) }
    ensures narrow { result < 2 ^ count }
{
    word >> at & ones(count)
}

/// The word of a packed row of at most 64 cells.
pub fn word_of(row: &[u64], cells: usize) -> u64
    requires row { IsRow cells row.now }
    requires some { 1 ≤ cells }
    requires few { cells ≤ 64 }
    ensures bits { (i : ℕ) → i < cells → bit_at result i ≡ word_bit row.now i }
    ensures narrow { result < 2 ^ cells }
{
    row[0]
}
