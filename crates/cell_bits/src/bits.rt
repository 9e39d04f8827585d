//! Cells of a row, one at a time or up to 64 side by side.
//! Cells side by side go by a word where some eight bytes of the row hold them all, and else by the
//! pieces that they fill of each byte. No other cell changes.

ghost use Rattle.std.specs.Prelude.{◌≡◌, ℕ, ◌+◌, ◌*◌, ◌≤◌, ◌<◌, ◌^◌, ◌-◌, ◌⊎◌, length};
ghost use Rattle.std.specs.Int.{bit_at};
ghost use Rattle.cell_bits.specs.Cells.{charge_at, is_charged, with_charged};

use crate::words::{put_word, take_word};

/// Whether cell `i` of the row is charged.
pub fn bit(row: &[u8], i: u32) -> bool
    requires { i < 8 * length row.now }
    ensures { result ≡ is_charged row.now i }
{
    row[(i / 8) as usize] >> (i % 8) & 1 == 1
}

/// Charges cell `i` of the row, and leaves all others.
pub fn set_bit(row: &mut [u8], i: u32)
    requires { i < 8 * length row.old }
    ensures { row.new ≡ with_charged row.old i }
{
    row[(i / 8) as usize] |= 1 << (i % 8);
}

/// The number whose lowest `count` bits are set.
fn ones(count: u32) -> u64
    requires some { 1 ≤ count }
    requires word { count ≤ 64 }
    ensures { result ≡ 2 ^ count - 1 }
{
    u64::MAX >> (64 - count)
}

/// The `count` bits of a byte from bit `first` on.
fn piece_of(byte: u8, first: u32, count: u32) -> u64
    requires some { 1 ≤ count }
    requires within { first + count ≤ 8 }
    ensures bits { (i : ℕ) → i < count → bit_at result i ≡ bit_at byte (first + i) }
    ensures narrow { result < 2 ^ count }
{
    (byte >> first) as u64 & ones(count)
}

/// The byte with its `count` bits from bit `first` on replaced by the lowest of `bits`.
fn with_piece(byte: u8, first: u32, count: u32, bits: u64) -> u8
    requires some { 1 ≤ count }
    requires within { first + count ≤ 8 }
    ensures bits { (i : ℕ) → i < count → bit_at result (first + i) ≡ bit_at bits i }
    ensures below { (i : ℕ) → i < first → bit_at result i ≡ bit_at byte i }
    ensures above { (i : ℕ) → first + count ≤ i → bit_at result i ≡ bit_at byte i }
{
    let change = ((byte >> first) as u64 ^ bits) & ones(count);
    byte ^ (change << first) as u8
}

/// Eight bytes of a row that hold cell `at`: the first of them, and the cell's place in them. They begin
/// with the cell's byte, or earlier where the row ends before.
fn window_of(bytes: usize, at: u32) -> (usize, u32)
    requires word { 8 ≤ bytes }
    requires within { at < 8 * bytes }
    ensures room { result.0 + 8 ≤ bytes }
    ensures place { 8 * result.0 + result.1 ≡ at }
    ensures inside { result.1 < 64 }
{
    let start = (at as usize / 8).min(bytes - 8);
    (start, (at as usize - 8 * start) as u32)
}

/// The `count` bits of a word from bit `first` on.
fn word_piece(word: u64, first: u32, count: u32) -> u64
    requires some { 1 ≤ count }
    requires within { first + count ≤ 64 }
    ensures bits { (i : ℕ) → i < count → bit_at result i ≡ bit_at word (first + i) }
    ensures narrow { result < 2 ^ count }
{
    word >> first & ones(count)
}

/// The word with its `count` bits from bit `first` on replaced by the lowest of `bits`.
fn with_word_piece(word: u64, first: u32, count: u32, bits: u64) -> u64
    requires some { 1 ≤ count }
    requires within { first + count ≤ 64 }
    ensures bits { (i : ℕ) → i < count → bit_at result (first + i) ≡ bit_at bits i }
    ensures below { (i : ℕ) → i < first → bit_at result i ≡ bit_at word i }
    ensures above { (i : ℕ) → first + count ≤ i → bit_at result i ≡ bit_at word i }
{
    let change = (word >> first ^ bits) & ones(count);
    word ^ change << first
}

/// Cells `at` to `at + count - 1` of the row as a number, the lowest cell as its lowest bit.
pub fn take_bits(row: &[u8], at: u32, count: u32) -> u64
    requires some { 1 ≤ count }
    requires word { count ≤ 64 }
    requires within { at + count ≤ 8 * length row.now }
    ensures bits { (i : ℕ) → i < count → bit_at result i ≡ charge_at row.now (at + i) }
    ensures narrow { result < 2 ^ count }
{
    if row.len() >= 8 {
        let (start, first) = window_of(row.len(), at);
        if first + count <= 64 {
            return word_piece(take_word(row, start), first, count);
        }
    }
    let mut bits: u64 = 0;
    let mut done: u32 = 0;
    while done < count {
        let cell = at as usize + done as usize;
        let first = (cell % 8) as u32;
        let more = (8 - first).min(count - done);
        bits |= piece_of(row[cell / 8], first, more) << done;
        done += more;
    }
    bits
}

/// Makes cells `at` to `at + count - 1` of the row equal to the lowest `count` bits of a number, the
/// lowest bit first, and leaves all others.
pub fn put_bits(row: &mut [u8], at: u32, count: u32, bits: u64)
    requires some { 1 ≤ count }
    requires word { count ≤ 64 }
    requires within { at + count ≤ 8 * length row.old }
    requires narrow { bits < 2 ^ count }
    ensures bits { (i : ℕ) → i < count → charge_at row.new (at + i) ≡ bit_at bits i }
    ensures below { (c : ℕ) → c < at → charge_at row.new c ≡ charge_at row.old c }
    ensures above { (c : ℕ) → at + count ≤ c → charge_at row.new c ≡ charge_at row.old c }
{
    if row.len() >= 8 {
        let (start, first) = window_of(row.len(), at);
        if first + count <= 64 {
            let word = with_word_piece(take_word(row, start), first, count, bits);
            return put_word(row, start, word);
        }
    }
    let mut done: u32 = 0;
    while done < count {
        let cell = at as usize + done as usize;
        let first = (cell % 8) as u32;
        let more = (8 - first).min(count - done);
        row[cell / 8] = with_piece(row[cell / 8], first, more, bits >> done);
        done += more;
    }
}
