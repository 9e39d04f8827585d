//! Three bits in seven cells, three times: the message is the sum over GF(2) of the columns of the
//! charged cells, cell i having column i + 1.
#![tactic(auto)]

ghost use Rattle.std.specs.Prelude.{◌≡◌, List, Bool, true, length};
ghost use Rattle.wom_code.specs.Cells.{Carries, NoneCarries};
ghost use Rattle.wom_code.specs.Packed.{IsRow, cells_of, words_for};
ghost use Rattle.hamming_seven.specs.Stages.{blank, IsStageOne, IsStageTwo};
ghost use Rattle.hamming_seven.specs.Words.{message_of, is_first};

mod chunks;
mod first;
mod laws;
mod tables;

use crate::chunks::{decode_chunks, over_chunks};
use crate::tables::{MESSAGE, NEXT, NONE};
pub use laws::given_cells_come_first;
use wom_code::{Carry, FromBlank, PackedCode, WomCode, pack, unpack};

/// Three bits in seven cells. `over` adds the smallest set of cells that carries the message, and of
/// several the one whose ascending list of cell numbers comes first.
#[derive(Clone, Copy, Debug)]
pub struct HammingSeven;

impl HammingSeven {
    /// The code, which keeps no state.
    pub fn new() -> HammingSeven {
        HammingSeven
    }
}

impl WomCode<3, 7> for HammingSeven {
    ghost decoding = { λ code. message_of };

    ghost gives = { λ code. is_first };

    fn decode(&self, cells: &[bool], msg: &mut [bool]) {
        let mut cell_row = [0];
        let mut message_row = [0];
        pack(cells, &mut cell_row);
        self.decode_words(&cell_row, &mut message_row);
        unpack(&message_row, msg);
    }

    fn over(&mut self, old: &[bool], msg: &[bool], out: &mut [bool]) -> Carry
        requires old { length old.now ≡ 7 }
        requires message { length msg.now ≡ 3 }
        requires out { length out.old ≡ 7 }
        ensures carried { result ≡ Carry.Carried → Carries message_of old.now msg.now out.new }
        ensures given { result ≡ Carry.Carried → is_first old.now msg.now out.new ≡ true }
        ensures declined { result ≡ Carry.Declined → NoneCarries message_of 7 old.now msg.now }
        ensures kept { result ≡ Carry.Declined → out.new ≡ out.old }
        ensures same_code { (cells : List Bool) → message_of cells ≡ message_of cells }
        ensures same_cells { (before message after : List Bool) → is_first before message after ≡ is_first before message after }
        ensures first_write { old.now ≡ blank → (result ≡ Carry.Carried) × IsStageOne out.new }
        ensures second_write { IsStageOne old.now → (result ≡ Carry.Carried) × IsStageTwo out.new }
        ensures third_write { IsStageTwo old.now → result ≡ Carry.Carried }
    {
        let mut old_row = [0];
        let mut message_row = [0];
        let mut out_row = [0];
        pack(old, &mut old_row);
        pack(msg, &mut message_row);
        let carry = self.over_words(&old_row, &message_row, &mut out_row);
        if carry == Carry::Carried {
            unpack(&out_row, out);
        }
        carry
    }
}

impl PackedCode<3, 7> for HammingSeven {
    fn decode_words(&self, cells: &[u64], msg: &mut [u64]) {
        msg[0] = MESSAGE[cells[0] as usize];
    }

    fn over_words(&mut self, old: &[u64], msg: &[u64], out: &mut [u64]) -> Carry
        requires old { IsRow 7 old.now }
        requires message { IsRow 3 msg.now }
        requires out { length out.old ≡ words_for 7 }
        ensures row { result ≡ Carry.Carried → IsRow 7 out.new }
        ensures carried { result ≡ Carry.Carried → Carries message_of (cells_of 7 old.now) (cells_of 3 msg.now) (cells_of 7 out.new) }
        ensures given { result ≡ Carry.Carried → is_first (cells_of 7 old.now) (cells_of 3 msg.now) (cells_of 7 out.new) ≡ true }
        ensures declined { result ≡ Carry.Declined → NoneCarries message_of 7 (cells_of 7 old.now) (cells_of 3 msg.now) }
        ensures kept { result ≡ Carry.Declined → out.new ≡ out.old }
        ensures same_code { (cells : List Bool) → message_of cells ≡ message_of cells }
        ensures same_cells { (before message after : List Bool) → is_first before message after ≡ is_first before message after }
        ensures first_write { cells_of 7 old.now ≡ blank → (result ≡ Carry.Carried) × IsStageOne (cells_of 7 out.new) }
        ensures second_write { IsStageOne (cells_of 7 old.now) → (result ≡ Carry.Carried) × IsStageTwo (cells_of 7 out.new) }
        ensures third_write { IsStageTwo (cells_of 7 old.now) → result ≡ Carry.Carried }
    {
        let next = NEXT[msg[0] as usize][old[0] as usize];
        if next == NONE {
            return Carry::Declined;
        }
        out[0] = next;
        Carry::Carried
    }

    fn decode_group(&self, _count: usize, cells: u64) -> u64 {
        decode_chunks(cells)
    }

    fn over_group(&mut self, count: usize, cells: u64, messages: u64) -> Option<u64> {
        over_chunks(count, cells, messages)
    }
}

impl FromBlank<3, 7> for HammingSeven {
    ghost use Rattle.hamming_seven.specs.Words.{word_for};

    ghost takes_all = { λ code. word_for };
}

#[cfg(test)]
mod tests;
