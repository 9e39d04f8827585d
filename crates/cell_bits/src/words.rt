//! Words of a row: eight bytes side by side are 64 cells, the lowest in the first byte.

ghost use Rattle.std.specs.Prelude.{◌≡◌, ℕ, ◌+◌, ◌*◌, ◌≤◌, ◌<◌, length};
ghost use Rattle.std.specs.Int.{bit_at};
ghost use Rattle.cell_bits.specs.Cells.{charge_at};

/// The 64 cells of the eight bytes from `start` on.
pub fn take_word(row: &[u8], start: usize) -> u64
    requires { start + 8 ≤ length row.now }
    ensures { (i : ℕ) → i < 64 → bit_at result i ≡ charge_at row.now (8 * start + i) }
{
    u64::from_le_bytes([
        row[start],
        row[start + 1],
        row[start + 2],
        row[start + 3],
        row[start + 4],
        row[start + 5],
        row[start + 6],
        row[start + 7],
    ])
}

/// Replaces the 64 cells of the eight bytes from `start` on, and leaves all others.
pub fn put_word(row: &mut [u8], start: usize, word: u64)
    requires { start + 8 ≤ length row.old }
    ensures bits { (i : ℕ) → i < 64 → charge_at row.new (8 * start + i) ≡ bit_at word i }
    ensures below { (c : ℕ) → c < 8 * start → charge_at row.new c ≡ charge_at row.old c }
    ensures above { (c : ℕ) → 8 * start + 64 ≤ c → charge_at row.new c ≡ charge_at row.old c }
{
    row[start..start + 8].copy_from_slice(&word.to_le_bytes());
}
