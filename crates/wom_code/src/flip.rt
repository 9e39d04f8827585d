//! The flip code: the message stands in the first `K` cells, inverted where the flag, cell `K`, is
//! charged. The result with fewer charged cells is taken, and on a tie the one without the flag.

ghost use Rattle.std.specs.Prelude.{◌≡◌, ◌+◌, ◌-◌, ◌≤◌, ◌<◌, ◌^◌, ◌&&◌, Bool, true, false, not, IfSome, IfNone};
ghost use Rattle.wom_code.specs.Flip.{IsChoice, flip_message, is_fewest};

use crate::code::{Carry, FromBlank, PackedCode, WomCode};
use crate::front::{count_charged_words, fits_front, lay_front, take_front};
use crate::turned::{count_charged, fits, write_turned};
use crate::words::{charge, is_charged};

/// Whether to turn a message of `count` bits, `ones` of them ones: where only that is possible, or
/// where it saves charged cells. `flagged` says that the flag is charged already.
fn choose(flagged: bool, straight: bool, turned: bool, ones: usize, count: usize) -> Option<bool>
    requires ones { ones ≤ count }
    requires count { count + 1 < 2 ^ 64 }
    ensures some { IfSome result (λ flag. IsChoice flagged straight turned ones count flag) }
    ensures none { IfNone result (((straight && not flagged) ≡ false) × (turned ≡ false)) }
{
    match (straight && !flagged, turned) {
        (false, false) => None,
        (true, true) => Some(count - ones + 1 < ones),
        (_, turned) => Some(turned),
    }
}

/// The message stands in the first `K` cells, each bit inverted where cell `K` is charged.
#[derive(Clone, Copy, Debug)]
pub struct Flip<const K: usize, const N: usize> {
    ghost some_bit: { 1 ≤ K },
    ghost fits: { K < N },
}

impl<const K: usize, const N: usize> Flip<K, N> {
    /// The flip code of these sizes.
    pub fn new() -> Flip<K, N>
        requires some_bit { 1 ≤ K }
        requires fits { K < N }
    {
        Flip {}
    }
}

impl<const K: usize, const N: usize> WomCode<K, N> for Flip<K, N> {
    ghost decoding = { λ code. flip_message K };

    ghost gives = { λ code. is_fewest K };

    fn decode(&self, cells: &[bool], msg: &mut [bool]) {
        write_turned(&cells[..K], cells[K], msg);
    }

    fn over(&mut self, old: &[bool], msg: &[bool], out: &mut [bool]) -> Carry {
        let straight = fits(msg, false, &old[..K]);
        let turned = fits(msg, true, &old[..K]);
        let Some(flag) = choose(old[K], straight, turned, count_charged(msg), K) else {
            return Carry::Declined;
        };
        out.copy_from_slice(old);
        write_turned(msg, flag, &mut out[..K]);
        out[K] = flag;
        Carry::Carried
    }
}

impl<const K: usize, const N: usize> PackedCode<K, N> for Flip<K, N> {
    fn decode_words(&self, cells: &[u64], msg: &mut [u64]) {
        take_front(cells, K, is_charged(cells, K), msg);
    }

    fn over_words(&mut self, old: &[u64], msg: &[u64], out: &mut [u64]) -> Carry {
        let straight = fits_front(msg, K, false, old);
        let turned = fits_front(msg, K, true, old);
        let ones = count_charged_words(msg, K);
        let Some(flag) = choose(is_charged(old, K), straight, turned, ones, K) else {
            return Carry::Declined;
        };
        out.copy_from_slice(old);
        lay_front(msg, K, flag, out);
        if flag {
            charge(out, K);
        }
        Carry::Carried
    }
}

impl<const K: usize, const N: usize> FromBlank<K, N> for Flip<K, N> {
    ghost use Rattle.wom_code.specs.Flip.{takes_flip};

    ghost takes_all = { λ code message len. takes_flip K N message len code.fits };
}
