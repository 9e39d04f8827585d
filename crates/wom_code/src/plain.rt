//! The plain code: the message stands in the first `K` cells, and the others stay.

ghost use Rattle.std.specs.Prelude.{◌≤◌, take};
ghost use Rattle.wom_code.specs.Plain.{plain_gives};

use crate::code::{Carry, FromBlank, PackedCode, WomCode};
use crate::front::{fits_front, lay_front, take_front};
use crate::turned::fits;

/// The message stands in the first `K` cells.
#[derive(Clone, Copy, Debug)]
pub struct Plain<const K: usize, const N: usize> {
    ghost some_bit: { 1 ≤ K },
    ghost fits: { K ≤ N },
}

impl<const K: usize, const N: usize> Plain<K, N> {
    /// The plain code of these sizes.
    pub fn new() -> Plain<K, N>
        requires some_bit { 1 ≤ K }
        requires fits { K ≤ N }
    {
        Plain {}
    }
}

impl<const K: usize, const N: usize> WomCode<K, N> for Plain<K, N> {
    ghost decoding = { λ code cells. take K cells };

    ghost gives = { λ code. plain_gives K };

    fn decode(&self, cells: &[bool], msg: &mut [bool]) {
        msg.copy_from_slice(&cells[..K]);
    }

    fn over(&mut self, old: &[bool], msg: &[bool], out: &mut [bool]) -> Carry {
        if !fits(msg, false, &old[..K]) {
            return Carry::Declined;
        }
        out.copy_from_slice(old);
        out[..K].copy_from_slice(msg);
        Carry::Carried
    }
}

impl<const K: usize, const N: usize> PackedCode<K, N> for Plain<K, N> {
    fn decode_words(&self, cells: &[u64], msg: &mut [u64]) {
        take_front(cells, K, false, msg);
    }

    fn over_words(&mut self, old: &[u64], msg: &[u64], out: &mut [u64]) -> Carry {
        if !fits_front(msg, K, false, old) {
            return Carry::Declined;
        }
        out.copy_from_slice(old);
        lay_front(msg, K, false, out);
        Carry::Carried
    }
}

impl<const K: usize, const N: usize> FromBlank<K, N> for Plain<K, N> {
    ghost use Rattle.wom_code.specs.Plain.{takes_front};

    ghost takes_all = { λ code message len. takes_front K N message len code.fits };
}
