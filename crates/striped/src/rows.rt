//! Runs of cells between bytes and packed rows, by whole words of a row.
//! A packed row holds cell `i` as bit `i % 64` of word `i / 64`.

ghost use Rattle.std.specs.Prelude.{◌≡◌, ℕ, ◌+◌, ◌*◌, ◌/◌, ◌%◌, ◌≤◌, ◌<◌, ◌^◌, ◌-◌, ◌⊎◌, length};
ghost use Rattle.cell_bits.specs.Cells.{charge_at};
ghost use Rattle.wom_code.specs.Packed.{word_bit};

use cell_bits::{put_bits, take_bits};

/// A number whose lowest bits are set.
pub fn ones(count: usize) -> u64
    requires some { 1 ≤ count }
    requires word { count ≤ 64 }
    ensures { result ≡ 2 ^ count - 1 }
{
    u64::MAX >> (64 - count)
}

/// Takes cells of bytes, from `at` on, into a packed row, from its cell `start` on.
fn take_row(bytes: &[u8], at: usize, count: usize, words: &mut [u64], start: usize)
    requires small { 8 * length bytes.now < 2 ^ 32 }
    requires within { at + count ≤ 8 * length bytes.now }
    requires room { start + count ≤ 64 * length words.old }
    requires short { start + count < 2 ^ 32 }
    requires blank { (i : ℕ) → start ≤ i → word_bit words.old i ≡ 0 }
    ensures taken { (i : ℕ) → i < count → word_bit words.new (start + i) ≡ charge_at bytes.now (at + i) }
    ensures below { (i : ℕ) → i < start → word_bit words.new i ≡ word_bit words.old i }
    ensures above { (i : ℕ) → start + count ≤ i → word_bit words.new i ≡ 0 }
{
    let mut done = 0;
    while done < count {
        let cell = start + done;
        let more = (64 - cell % 64).min(count - done);
        words[cell / 64] |= take_bits(bytes, (at + done) as u32, more as u32) << (cell % 64);
        done += more;
    }
}

/// Puts cells of a packed row, from its cell `start` on, into bytes, from cell `at` on.
fn put_row(bytes: &mut [u8], at: usize, count: usize, words: &[u64], start: usize)
    requires small { 8 * length bytes.old < 2 ^ 32 }
    requires within { at + count ≤ 8 * length bytes.old }
    requires room { start + count ≤ 64 * length words.now }
    requires short { start + count < 2 ^ 32 }
    ensures put { (i : ℕ) → i < count → charge_at bytes.new (at + i) ≡ word_bit words.now (start + i) }
    ensures below { (c : ℕ) → c < at → charge_at bytes.new c ≡ charge_at bytes.old c }
    ensures above { (c : ℕ) → at + count ≤ c → charge_at bytes.new c ≡ charge_at bytes.old c }
{
    let mut done = 0;
    while done < count {
        let cell = start + done;
        let more = (64 - cell % 64).min(count - done);
        let bits = words[cell / 64] >> (cell % 64) & ones(more);
        put_bits(bytes, (at + done) as u32, more as u32, bits);
        done += more;
    }
}

/// Takes the cells of a chunk: `cells` of them stand on each page, from cell `first` on.
pub fn take_chunk(
    bytes: &[u8],
    page_bytes: usize,
    span: usize,
    first: usize,
    cells: usize,
    words: &mut [u64],
)
    requires small { 8 * length bytes.now < 2 ^ 32 }
    requires unit { length bytes.now ≡ span * page_bytes }
    requires within { first + cells ≤ 8 * page_bytes }
    requires some { 1 ≤ cells }
    requires room { span * cells ≤ 64 * length words.old }
    requires short { span * cells < 2 ^ 32 }
    ensures taken { (c : ℕ) → c < span * cells → word_bit words.new c ≡ charge_at bytes.now (8 * page_bytes * (c / cells) + first + c % cells) }
    ensures above { (c : ℕ) → span * cells ≤ c → word_bit words.new c ≡ 0 }
{
    words.fill(0);
    for page in 0..span {
        take_row(
            bytes,
            8 * page_bytes * page + first,
            cells,
            words,
            page * cells,
        );
    }
}

/// Puts the cells of a chunk.
pub fn put_chunk(
    bytes: &mut [u8],
    page_bytes: usize,
    span: usize,
    first: usize,
    cells: usize,
    words: &[u64],
)
    requires small { 8 * length bytes.old < 2 ^ 32 }
    requires unit { length bytes.old ≡ span * page_bytes }
    requires within { first + cells ≤ 8 * page_bytes }
    requires some { 1 ≤ cells }
    requires room { span * cells ≤ 64 * length words.now }
    requires short { span * cells < 2 ^ 32 }
    ensures put { (c : ℕ) → c < span * cells → charge_at bytes.new (8 * page_bytes * (c / cells) + first + c % cells) ≡ word_bit words.now c }
    ensures others { (page c : ℕ) → c < 8 * page_bytes → (c < first) ⊎ (first + cells ≤ c) → charge_at bytes.new (8 * page_bytes * page + c) ≡ charge_at bytes.old (8 * page_bytes * page + c) }
{
    for page in 0..span {
        put_row(
            bytes,
            8 * page_bytes * page + first,
            cells,
            words,
            page * cells,
        );
    }
}

/// Takes the bits of a message, the last of which may be past the sector's end.
pub fn take_message(sector: &[u8], first: usize, count: usize, words: &mut [u64])
    requires small { 8 * length sector.now < 2 ^ 32 }
    requires starts { first < 8 * length sector.now }
    requires room { count ≤ 64 * length words.old }
    requires short { count < 2 ^ 32 }
    ensures taken { (i : ℕ) → i < count → word_bit words.new i ≡ charge_at sector.now (first + i) }
    ensures above { (i : ℕ) → count ≤ i → word_bit words.new i ≡ 0 }
{
    words.fill(0);
    let here = count.min(8 * sector.len() - first);
    take_row(sector, first, here, words, 0);
}

/// Puts the bits of a message that stand within the sector.
pub fn put_message(sector: &mut [u8], first: usize, count: usize, words: &[u64])
    requires small { 8 * length sector.old < 2 ^ 32 }
    requires starts { first < 8 * length sector.old }
    requires room { count ≤ 64 * length words.now }
    requires short { count < 2 ^ 32 }
    ensures put { (i : ℕ) → i < count → first + i < 8 * length sector.old → charge_at sector.new (first + i) ≡ word_bit words.now i }
    ensures below { (c : ℕ) → c < first → charge_at sector.new c ≡ charge_at sector.old c }
{
    let here = count.min(8 * sector.len() - first);
    put_row(sector, first, here, words, 0);
}
