//! The code of Rivest and Shamir (1982): two bits in three cells, written twice. Cells a, b, c hold
//! the bits b xor c and a xor c; a word carries its message, or else its complement does.
#![tactic(auto)]

ghost use Rattle.std.specs.Prelude.{◌≡◌, ℕ, ◌*◌, ◌≤◌, ◌<◌, ◌^◌, List, Bool, true, IfSome, IfNone};
ghost use Rattle.wom_code.specs.Cells.{Carries, NoneCarries};
ghost use Rattle.wom_code.specs.Groups.{chunk_of};
ghost use Rattle.rivest_shamir.specs.Words.{message_of, is_least};

mod laws;
mod triples;

use crate::triples::{decode_triples, over_triples};
pub use laws::given_cells_are_least;
use wom_code::{Carry, FromBlank, PackedCode, WomCode, pack, unpack};

/// The message of each word of three cells; the bit b xor c is bit 0.
const MESSAGE: [u64; 8] = [0, 2, 1, 3, 3, 1, 2, 0];

/// Stands in `NEXT` where no word above the old one carries the message.
const NONE: u64 = 8;

/// The word of least charge above the old word that carries the message, by message and old word;
/// cell a is bit 0.
const NEXT: [[u64; 8]; 4] = [
    [0, 7, 7, 7, 7, 7, 7, 7],
    [2, 5, 2, 8, 5, 5, 8, 8],
    [1, 1, 6, 8, 6, 8, 6, 8],
    [4, 3, 3, 3, 4, 8, 8, 8],
];

/// Two bits in three cells. `over` gives the word of least charge, and there is one alone.
#[derive(Clone, Copy, Debug)]
pub struct RivestShamir;

impl RivestShamir {
    /// The code, which keeps no state.
    pub fn new() -> RivestShamir {
        RivestShamir
    }
}

impl WomCode<2, 3> for RivestShamir {
    ghost decoding = { λ code. message_of };

    ghost gives = { λ code. is_least };

    fn decode(&self, cells: &[bool], msg: &mut [bool]) {
        let mut cell_row = [0];
        let mut message_row = [0];
        pack(cells, &mut cell_row);
        self.decode_words(&cell_row, &mut message_row);
        unpack(&message_row, msg);
    }

    fn over(&mut self, old: &[bool], msg: &[bool], out: &mut [bool]) -> Carry {
        let mut old_row = [0];
        let mut message_row = [0];
        let mut out_row = [0];
        pack(old, &mut old_row);
        pack(msg, &mut message_row);
        let carry = self.over_words(&old_row, &message_row, &mut out_row);
        if carry == Carry::Carried {
            unpack(&out_row, out);
        }
        carry
    }
}

impl PackedCode<2, 3> for RivestShamir {
    fn decode_words(&self, cells: &[u64], msg: &mut [u64]) {
        msg[0] = MESSAGE[cells[0] as usize];
    }

    fn over_words(&mut self, old: &[u64], msg: &[u64], out: &mut [u64]) -> Carry {
        let next = NEXT[msg[0] as usize][old[0] as usize];
        if next == NONE {
            return Carry::Declined;
        }
        out[0] = next;
        Carry::Carried
    }

    fn decode_group(&self, _count: usize, cells: u64) -> u64 {
        decode_triples(cells)
    }

    fn over_group(&mut self, count: usize, cells: u64, messages: u64) -> Option<u64>
        requires few { count ≤ 16 }
        ensures carried { IfSome result (λ new. (j : ℕ) → j < count → Carries message_of (chunk_of 3 cells j) (chunk_of 2 messages j) (chunk_of 3 new j)) }
        ensures given { IfSome result (λ new. (j : ℕ) → j < count → is_least (chunk_of 3 cells j) (chunk_of 2 messages j) (chunk_of 3 new j) ≡ true) }
        ensures narrow { IfSome result (λ new. new < 2 ^ (count * 3)) }
        ensures declined { IfNone result ((j : ℕ) × (j < count) × NoneCarries message_of 3 (chunk_of 3 cells j) (chunk_of 2 messages j)) }
        ensures same_code { (row : List Bool) → message_of row ≡ message_of row }
        ensures same_cells { (before message after : List Bool) → is_least before message after ≡ is_least before message after }
    {
        over_triples(count, cells, messages)
    }
}

impl FromBlank<2, 3> for RivestShamir {
    ghost use Rattle.rivest_shamir.specs.Words.{word_for};

    ghost takes_all = { λ code. word_for };
}

#[cfg(test)]
mod tests;
