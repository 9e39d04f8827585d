//! Header cells: 14 bytes lie below a valid word exactly where that word has room for as many zero bits as its last byte says.
//! The kind with the fewest ones leaves the most room, and the least last byte takes the least of it.
ghost use Rattle.std.specs.Prelude.{◌≡◌, ℕ, List, length, IsTrue, ◌↔◌};
ghost use Rattle.cell_die.specs.Cells.{IsAbove};
ghost use Rattle.cell_bits.specs.Cells.{AreBytes};
ghost use Rattle.image_audit.specs.HeaderCells.{LiesBelowValid, HasEnding, least_above as least_above_of};

use cell_bits::charged;

/// The least byte that is `least` or more and has all bits of `byte`, where `least` is 6 or 7.
fn least_above(byte: u8, least: u8) -> u8
    ensures { result ≡ least_above_of byte least }
{
    if byte < least { byte | least } else { byte }
}

/// Whether 14 bytes lie below some valid word.
pub(crate) fn lies_below_valid(word: &[u8]) -> bool
    requires { length word.now ≡ 14 }
    ensures { IsTrue result ↔ LiesBelowValid word.now }
{
    let kind = word[12].max(1);
    if kind > 4 {
        return false;
    }
    let ones = kind.count_ones() as u8;
    let last = least_above(word[13], 8 - ones);
    u64::from(last) + u64::from(ones) + charged(&word[..12]) <= 104
}

/// 14 bytes lie below some valid word exactly where there are a kind from 1 to 4 and a last byte, each with all the bits of its
/// own byte, so that the last byte is at least the number of the kind's zero bits, and at most 104 less the ones of the kind and
/// of the first 12 bytes.
pub fn header_cells_lie_below_valid_words_by_their_ones()
    ensures below { (cells : List ℕ) → length cells ≡ 14 → AreBytes cells → LiesBelowValid cells → HasEnding cells }
    ensures above { (cells : List ℕ) → length cells ≡ 14 → AreBytes cells → HasEnding cells → LiesBelowValid cells }
{}
