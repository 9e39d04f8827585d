//! Up to nine chunks of seven cells side by side in one word: chunk `j` has the cells from bit `7 * j` on, and its
//! message the bits from bit `3 * j` on.

ghost use Rattle.std.specs.Prelude.{◌≡◌, ℕ, ◌+◌, ◌-◌, ◌*◌, ◌≤◌, ◌<◌, ◌^◌, true, IfSome, IfNone};
ghost use Rattle.wom_code.specs.Cells.{Carries, NoneCarries};
ghost use Rattle.wom_code.specs.Groups.{chunk_of};
ghost use Rattle.hamming_seven.specs.Words.{first_of, is_first, message_of};

use crate::first::FIRST;
use crate::tables::{NEXT, NONE};

/// The first cell of each chunk.
const FIRST_CELLS: u64 = 0x0102_0408_1020_4081;

/// The number whose lowest `count` bits are set.
#[inline(always)]
fn ones(count: usize) -> u64
    requires { count < 64 }
    ensures { result ≡ 2 ^ count - 1 }
{
    (1 << count) - 1
}

/// The messages that chunks carry. Bit `b` of a message is the sum of the cells whose column has bit `b`.
#[inline(always)]
pub fn decode_chunks(cells: u64) -> u64
    ensures { (j : ℕ) → j < 9 → chunk_of 3 result j ≡ message_of (chunk_of 7 cells j) }
{
    let next = cells ^ cells >> 1;
    let second_next = cells ^ cells >> 2;
    let low = (second_next ^ second_next >> 4) & FIRST_CELLS;
    let middle = (next ^ next >> 4) & FIRST_CELLS << 1;
    let high = (next ^ next >> 2) >> 1 & FIRST_CELLS << 2;
    let messages = low | middle | high;
    let pairs = (messages | messages >> 4) & 0x0700_fc03_f00f_c03f;
    let fours = (pairs | pairs >> 8) & 0x0700_00ff_f000_0fff;
    (fours | fours >> 16) & 0x00ff_ffff | fours >> 32 & 0x0700_0000
}

/// The cells of four messages over blank ones.
#[inline(always)]
fn first_four(messages: u64, four: usize) -> u64
    requires { four < 3 }
    ensures first { (t : ℕ) → t < 4 → chunk_of 7 result t ≡ first_of (chunk_of 3 messages (4 * four + t)) }
    ensures narrow { result < 2 ^ 28 }
{
    FIRST[(messages >> (12 * four) & 4095) as usize] as u64
}

/// The cells of messages over blank ones.
#[inline(always)]
fn first_chunks(messages: u64) -> u64
    ensures { (t : ℕ) → t < 9 → chunk_of 7 result t ≡ first_of (chunk_of 3 messages t) }
{
    first_four(messages, 0) | first_four(messages, 1) << 28 | first_four(messages, 2) << 56
}

/// The cells that a chunk gets for its message, or `NONE` where it does not take it.
#[inline(always)]
fn next_chunk(cells: u64, messages: u64, j: usize) -> u64
    requires { j < 9 }
    ensures carried { result < 128 → Carries message_of (chunk_of 7 cells j) (chunk_of 3 messages j) (chunk_of 7 result 0) }
    ensures given { result < 128 → is_first (chunk_of 7 cells j) (chunk_of 3 messages j) (chunk_of 7 result 0) ≡ true }
    ensures declined { result ≡ 128 → NoneCarries message_of 7 (chunk_of 7 cells j) (chunk_of 3 messages j) }
    ensures small { result ≤ 128 }
{
    NEXT[(messages >> (j * 3) & 7) as usize][(cells >> (j * 7) & 127) as usize]
}

/// The cells of the first `count` chunks with each message over the old ones, or None where one does not take its own.
/// That is tested once for all of them.
#[inline(always)]
fn next_chunks(count: usize, cells: u64, messages: u64) -> Option<u64>
    requires few { count ≤ 9 }
    ensures carried { IfSome result (λ new. (j : ℕ) → j < count → Carries message_of (chunk_of 7 cells j) (chunk_of 3 messages j) (chunk_of 7 new j)) }
    ensures given { IfSome result (λ new. (j : ℕ) → j < count → is_first (chunk_of 7 cells j) (chunk_of 3 messages j) (chunk_of 7 new j) ≡ true) }
    ensures narrow { IfSome result (λ new. new < 2 ^ (count * 7)) }
    ensures declined { IfNone result ((j : ℕ) × (j < count) × NoneCarries message_of 7 (chunk_of 7 cells j) (chunk_of 3 messages j)) }
{
    let mut new = 0;
    let mut any = 0;
    for j in 0..count {
        let next = next_chunk(cells, messages, j);
        new |= next << (j * 7);
        any |= next;
    }
    if any >= NONE {
        return None;
    }
    Some(new)
}

/// The cells of the first `count` chunks with each message over the old ones, or None where one does not take its own.
#[inline(always)]
pub fn over_chunks(count: usize, cells: u64, messages: u64) -> Option<u64>
    requires few { count ≤ 9 }
    ensures carried { IfSome result (λ new. (j : ℕ) → j < count → Carries message_of (chunk_of 7 cells j) (chunk_of 3 messages j) (chunk_of 7 new j)) }
    ensures given { IfSome result (λ new. (j : ℕ) → j < count → is_first (chunk_of 7 cells j) (chunk_of 3 messages j) (chunk_of 7 new j) ≡ true) }
    ensures narrow { IfSome result (λ new. new < 2 ^ (count * 7)) }
    ensures declined { IfNone result ((j : ℕ) × (j < count) × NoneCarries message_of 7 (chunk_of 7 cells j) (chunk_of 3 messages j)) }
{
    if cells == 0 {
        return Some(first_chunks(messages) & ones(count * 7));
    }
    next_chunks(count, cells, messages)
}
