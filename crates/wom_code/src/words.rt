//! Packed rows: cell `i` of a row is bit `i % 64` of word `i / 64`.

ghost use Rattle.std.specs.Prelude.{◌≡◌, ◌↔◌, ℕ, ◌+◌, ◌*◌, ◌≤◌, ◌<◌, Bool, true, List, length, nat_eq, slice_set};
ghost use Rattle.wom_code.specs.Packed.{IsRow, cells_of, words_for, word_bit};

/// Whether a cell of a packed row is charged.
pub fn is_charged(words: &[u64], cell: usize) -> bool
    requires { cell < 64 * length words.now }
    ensures { result ≡ nat_eq (word_bit words.now cell) 1 }
{
    words[cell / 64] >> (cell % 64) & 1 == 1
}

/// Charges a cell of a packed row.
pub fn charge(words: &mut [u64], cell: usize)
    requires { cell < 64 * length words.old }
    ensures set { word_bit words.new cell ≡ 1 }
    ensures others { (i : ℕ) → (i ≡ cell → ⊥) → word_bit words.new i ≡ word_bit words.old i }
{
    words[cell / 64] |= 1 << (cell % 64);
}

/// Packs cells into words. The bits past the last cell become zeros.
pub fn pack(cells: &[bool], words: &mut [u64])
    requires { length words.old ≡ words_for (length cells.now) }
    ensures row { IsRow (length cells.now) words.new }
    ensures cells { cells_of (length cells.now) words.new ≡ cells.now }
{
    words.fill(0);
    for (cell, charged) in cells.iter().enumerate() {
        if *charged {
            charge(words, cell);
        }
    }
}

/// Unpacks cells from words.
pub fn unpack(words: &[u64], cells: &mut [bool])
    requires { length cells.old ≤ 64 * length words.now }
    ensures { cells.new ≡ cells_of (length cells.old) words.now }
{
    for cell in 0..cells.len() {
        cells[cell] = is_charged(words, cell);
    }
}
