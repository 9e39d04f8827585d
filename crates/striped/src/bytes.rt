//! Cells side by side that fill whole bytes: those go by themselves, and no byte beside them is read or written.

ghost use Rattle.std.specs.Prelude.{◌≡◌, ℕ, ◌+◌, ◌*◌, ◌≤◌, ◌<◌, ◌^◌, length, slice_index};
ghost use Rattle.std.specs.Int.{bit_at};
ghost use Rattle.cell_bits.specs.Cells.{charge_at};

use cell_bits::{put_bits, take_bits};

/// Byte `k` of the `count` bytes from `start` on, and a zero past them.
#[inline(always)]
fn byte_at(row: &[u8], start: usize, count: usize, k: usize) -> u8
    requires within { start + count ≤ length row.now }
    ensures inside { k < count → result ≡ slice_index row.now (start + k) }
    ensures past { count ≤ k → result ≡ 0 }
{
    if k < count { row[start + k] } else { 0 }
}

/// The cells of `count` bytes.
#[inline(always)]
fn take_bytes(row: &[u8], start: usize, count: usize) -> u64
    requires few { count ≤ 8 }
    requires within { start + count ≤ length row.now }
    ensures bits { (i : ℕ) → i < 8 * count → bit_at result i ≡ charge_at row.now (8 * start + i) }
    ensures narrow { result < 2 ^ (8 * count) }
{
    u64::from_le_bytes([
        byte_at(row, start, count, 0),
        byte_at(row, start, count, 1),
        byte_at(row, start, count, 2),
        byte_at(row, start, count, 3),
        byte_at(row, start, count, 4),
        byte_at(row, start, count, 5),
        byte_at(row, start, count, 6),
        byte_at(row, start, count, 7),
    ])
}

/// Replaces the cells of `count` bytes by the lowest bits of a word.
#[inline(always)]
fn put_bytes(row: &mut [u8], start: usize, count: usize, word: u64)
    requires few { count ≤ 8 }
    requires within { start + count ≤ length row.old }
    ensures bits { (i : ℕ) → i < 8 * count → charge_at row.new (8 * start + i) ≡ bit_at word i }
    ensures below { (c : ℕ) → c < 8 * start → charge_at row.new c ≡ charge_at row.old c }
    ensures above { (c : ℕ) → 8 * (start + count) ≤ c → charge_at row.new c ≡ charge_at row.old c }
{
    row[start..start + count].copy_from_slice(&word.to_le_bytes()[..count]);
}

/// Replaces the cells of four bytes by the lowest bits of a word.
#[inline(always)]
fn put_four(row: &mut [u8], start: usize, word: u64)
    requires { start + 4 ≤ length row.old }
    ensures bits { (i : ℕ) → i < 32 → charge_at row.new (8 * start + i) ≡ bit_at word i }
    ensures below { (c : ℕ) → c < 8 * start → charge_at row.new c ≡ charge_at row.old c }
    ensures above { (c : ℕ) → 8 * start + 32 ≤ c → charge_at row.new c ≡ charge_at row.old c }
{
    row[start..start + 4].copy_from_slice(&((word & 0xffff_ffff) as u32).to_le_bytes());
}

/// Replaces the cells of two bytes by the lowest bits of a word.
#[inline(always)]
fn put_two(row: &mut [u8], start: usize, word: u64)
    requires { start + 2 ≤ length row.old }
    ensures bits { (i : ℕ) → i < 16 → charge_at row.new (8 * start + i) ≡ bit_at word i }
    ensures below { (c : ℕ) → c < 8 * start → charge_at row.new c ≡ charge_at row.old c }
    ensures above { (c : ℕ) → 8 * start + 16 ≤ c → charge_at row.new c ≡ charge_at row.old c }
{
    row[start..start + 2].copy_from_slice(&((word & 0xffff) as u16).to_le_bytes());
}

/// Replaces the cells of six bytes by the lowest bits of a word.
#[inline(always)]
fn put_six(row: &mut [u8], start: usize, word: u64)
    requires { start + 6 ≤ length row.old }
    ensures bits { (i : ℕ) → i < 48 → charge_at row.new (8 * start + i) ≡ bit_at word i }
    ensures below { (c : ℕ) → c < 8 * start → charge_at row.new c ≡ charge_at row.old c }
    ensures above { (c : ℕ) → 8 * start + 48 ≤ c → charge_at row.new c ≡ charge_at row.old c }
{
    put_four(row, start, word);
    put_two(row, start + 4, word >> 32);
}

/// Cells `at` to `at + count - 1` of the row; whole bytes go by themselves.
#[inline(always)]
pub fn take_cells(row: &[u8], at: usize, count: usize) -> u64
    requires small { 8 * length row.now < 2 ^ 32 }
    requires some { 1 ≤ count }
    requires word { count ≤ 64 }
    requires within { at + count ≤ 8 * length row.now }
    ensures bits { (i : ℕ) → i < count → bit_at result i ≡ charge_at row.now (at + i) }
    ensures narrow { result < 2 ^ count }
{
    if count % 8 == 0 && at % 8 == 0 {
        take_bytes(row, at / 8, count / 8)
    } else {
        take_bits(row, at as u32, count as u32)
    }
}

/// Replaces cells `at` to `at + count - 1` of the row by the lowest bits of a word, and leaves all others; whole bytes
/// go by themselves.
#[inline(always)]
pub fn put_cells(row: &mut [u8], at: usize, count: usize, bits: u64)
    requires small { 8 * length row.old < 2 ^ 32 }
    requires some { 1 ≤ count }
    requires word { count ≤ 64 }
    requires within { at + count ≤ 8 * length row.old }
    requires narrow { bits < 2 ^ count }
    ensures bits { (i : ℕ) → i < count → charge_at row.new (at + i) ≡ bit_at bits i }
    ensures below { (c : ℕ) → c < at → charge_at row.new c ≡ charge_at row.old c }
    ensures above { (c : ℕ) → at + count ≤ c → charge_at row.new c ≡ charge_at row.old c }
{
    if count % 8 == 0 && at % 8 == 0 {
        match count {
            32 => put_four(row, at / 8, bits),
            48 => put_six(row, at / 8, bits),
            _ => put_bytes(row, at / 8, count / 8, bits),
        }
    } else {
        put_bits(row, at as u32, count as u32, bits);
    }
}
