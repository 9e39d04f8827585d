//! What a code promises: `over` charges cells so that they carry the message, and declines exactly
//! where no cells above the old ones do. The codes know nothing of pages, sectors or dies.

ghost use Rattle.std.specs.Prelude.{◌≡◌, ℕ, ◌*◌, ◌≤◌, ◌<◌, ◌^◌, List, Bool, true, length, IfSome, IfNone};
ghost use Rattle.wom_code.specs.Cells.{Carries, NoneCarries};
ghost use Rattle.wom_code.specs.Groups.{chunk_of};
ghost use Rattle.wom_code.specs.Packed.{IsRow, cells_of, words_for};

use crate::groups::{bits_from, word_of};

/// Whether a message went over the old cells.
#[derive(Clone, Copy, Debug, PartialEq, Eq)]
pub enum Carry {
    /// The cells now carry the message.
    Carried,
    /// No cells above the old ones carry the message.
    Declined,
}

/// A code that keeps messages of `K` bits in `N` write-once cells (Rivest and Shamir, 1982).
pub trait WomCode<const K: usize, const N: usize> {
    /// The message that cells carry.
    ghost decoding: { Self → List Bool → List Bool };

    /// Whether these are the cells that it gives over old ones for a message: old cells, message, given cells.
    ghost gives: { Self → List Bool → List Bool → List Bool → Bool };

    /// Reads the message that `N` cells carry into the `K` bits of `msg`.
    fn decode(&self, cells: &[bool], msg: &mut [bool])
        requires cells { length cells.now ≡ N }
        requires message { length msg.old ≡ K }
        ensures message { msg.new ≡ decoding self.now cells.now };

    /// Charges cells of `old` so that `out` carries the message, where that can be done.
    /// Where it cannot, `out` stays as it was.
    fn over(&mut self, old: &[bool], msg: &[bool], out: &mut [bool]) -> Carry
        requires old { length old.now ≡ N }
        requires message { length msg.now ≡ K }
        requires out { length out.old ≡ N }
        ensures carried { result ≡ Carry.Carried → Carries (decoding self.old) old.now msg.now out.new }
        ensures given { result ≡ Carry.Carried → gives self.old old.now msg.now out.new ≡ true }
        ensures declined { result ≡ Carry.Declined → NoneCarries (decoding self.old) N old.now msg.now }
        ensures kept { result ≡ Carry.Declined → out.new ≡ out.old }
        ensures same_code { (cells : List Bool) → decoding self.new cells ≡ decoding self.old cells }
        ensures same_cells { (before message after : List Bool) → gives self.new before message after ≡ gives self.old before message after };
}

/// A code that also works on packed rows: cell `i` is bit `i % 64` of word `i / 64`, and the bits
/// past the last cell are zeros.
pub trait PackedCode<const K: usize, const N: usize>: WomCode<K, N> {
    /// `decode` on packed rows of `N` cells and `K` bits.
    fn decode_words(&self, cells: &[u64], msg: &mut [u64])
        requires cells { IsRow N cells.now }
        requires message { length msg.old ≡ words_for K }
        ensures row { IsRow K msg.new }
        ensures message { cells_of K msg.new ≡ Self.decoding self.now (cells_of N cells.now) };

    /// `over` on packed rows of `N` cells and `K` bits.
    fn over_words(&mut self, old: &[u64], msg: &[u64], out: &mut [u64]) -> Carry
        requires old { IsRow N old.now }
        requires message { IsRow K msg.now }
        requires out { length out.old ≡ words_for N }
        ensures row { result ≡ Carry.Carried → IsRow N out.new }
        ensures carried { result ≡ Carry.Carried → Carries (Self.decoding self.old) (cells_of N old.now) (cells_of K msg.now) (cells_of N out.new) }
        ensures given { result ≡ Carry.Carried → Self.gives self.old (cells_of N old.now) (cells_of K msg.now) (cells_of N out.new) ≡ true }
        ensures declined { result ≡ Carry.Declined → NoneCarries (Self.decoding self.old) N (cells_of N old.now) (cells_of K msg.now) }
        ensures kept { result ≡ Carry.Declined → out.new ≡ out.old }
        ensures same_code { (cells : List Bool) → Self.decoding self.new cells ≡ Self.decoding self.old cells }
        ensures same_cells { (before message after : List Bool) → Self.gives self.new before message after ≡ Self.gives self.old before message after };

    /// `decode` on up to sixteen chunks side by side in one word: chunk `j` has the `N` cells from bit `j * N` on,
    /// and its message stands in the `K` bits from bit `j * K` on.
    fn decode_group(&self, count: usize, cells: u64) -> u64
        requires some_bits { 1 ≤ K }
        requires some_cells { 1 ≤ N }
        requires few { count ≤ 16 }
        requires messages { count * K ≤ 64 }
        requires cells { count * N ≤ 64 }
        ensures { (j : ℕ) → j < count → chunk_of K result j ≡ Self.decoding self.now (chunk_of N cells j) }
    {
        let mut messages = 0;
        for j in 0..count {
            let mut message = [0];
            self.decode_words(&[bits_from(cells, j * N, N)], &mut message);
            messages |= word_of(&message, K) << (j * K);
        }
        messages
    }

    /// `over` on up to sixteen chunks side by side in one word, or None where one of them does not take its message.
    fn over_group(&mut self, count: usize, cells: u64, messages: u64) -> Option<u64>
        requires some_bits { 1 ≤ K }
        requires some_cells { 1 ≤ N }
        requires few { count ≤ 16 }
        requires messages { count * K ≤ 64 }
        requires cells { count * N ≤ 64 }
        ensures carried { IfSome result (λ new. (j : ℕ) → j < count → Carries (Self.decoding self.old) (chunk_of N cells j) (chunk_of K messages j) (chunk_of N new j)) }
        ensures given { IfSome result (λ new. (j : ℕ) → j < count → Self.gives self.old (chunk_of N cells j) (chunk_of K messages j) (chunk_of N new j) ≡ true) }
        ensures narrow { IfSome result (λ new. new < 2 ^ (count * N)) }
        ensures declined { IfNone result ((j : ℕ) × (j < count) × NoneCarries (Self.decoding self.old) N (chunk_of N cells j) (chunk_of K messages j)) }
        ensures same_code { (row : List Bool) → Self.decoding self.new row ≡ Self.decoding self.old row }
        ensures same_cells { (before message after : List Bool) → Self.gives self.new before message after ≡ Self.gives self.old before message after }
    {
        let mut new = 0;
        for j in 0..count {
            let mut out = [0];
            let old = bits_from(cells, j * N, N);
            let message = bits_from(messages, j * K, K);
            match self.over_words(&[old], &[message], &mut out) {
                Carry::Declined => return None,
                Carry::Carried => new |= word_of(&out, N) << (j * N),
            }
        }
        Some(new)
    }
}

/// A code that takes every message over blank cells.
pub trait FromBlank<const K: usize, const N: usize>: PackedCode<K, N> {
    /// Some cells carry each message; and all cells are above blank ones.
    ghost takes_all: { (code : Self) (message : List Bool) → length message ≡ K → (cells : List Bool) × (length cells ≡ N) × (Self.decoding code cells ≡ message) };
}
