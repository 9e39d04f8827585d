//! A slot is a gate byte, a header word of 14 bytes and a seal byte.
//! The gate is bit 0 of the gate byte, and the seal of a block is bit 0 of the seal byte of slot 1 of
//! its page 0. A spare area has 32 bytes for two slots or 48 for three.

ghost use Rattle.std.specs.Prelude.{◌≡◌, ◌≤◌, ◌<◌, ◌+◌, ◌*◌, true, length, Some};
ghost use Rattle.cell_bits.specs.Cells.{IsAbove};
ghost use Rattle.spare_gate.specs.Slots.{is_slot_blank, is_gate_charged, is_seal_charged, with_header};
ghost use Rattle.spare_gate.specs.Slots.{header_at as header_in};

use cell_bits::{bit, is_blank};
use zero_count::{Header, read, spell};

/// Whether the slot's gate byte and header word are all zero. Its seal byte is not looked at.
pub fn slot_blank(spare: &[u8], slot: u32) -> bool
    requires slots { slot < 3 }
    requires within { 16 * slot + 16 ≤ length spare.now }
    ensures { result ≡ is_slot_blank spare.now slot }
{
    let start = 16 * slot as usize;
    is_blank(&spare[start..start + 15])
}

/// Whether the slot's gate is charged.
pub fn gate_charged(spare: &[u8], slot: u32) -> bool
    requires slots { slot < 3 }
    requires within { 16 * slot + 16 ≤ length spare.now }
    ensures { result ≡ is_gate_charged spare.now slot }
{
    bit(spare, 128 * slot)
}

/// The header in the slot, and `None` where its word is not valid.
pub fn header_at(spare: &[u8], slot: u32) -> Option<Header>
    requires slots { slot < 3 }
    requires within { 16 * slot + 16 ≤ length spare.now }
    ensures { result ≡ header_in spare.now slot }
{
    let start = 16 * slot as usize + 1;
    let mut word = [0; 14];
    word.copy_from_slice(&spare[start..start + 14]);
    read(&word)
}

/// Writes the word of a header of kind 1 to 4 into a blank slot.
pub fn put_header(spare: &mut [u8], slot: u32, header: &Header)
    requires slots { slot < 3 }
    requires within { 16 * slot + 16 ≤ length spare.old }
    requires blank { is_slot_blank spare.old slot ≡ true }
    requires least_kind { 1 ≤ header.now.kind }
    requires greatest_kind { header.now.kind ≤ 4 }
    ensures word { spare.new ≡ with_header spare.old slot header.now }
    ensures read_back { header_in spare.new slot ≡ Some header.now }
    ensures above { IsAbove spare.new spare.old }
{
    let start = 16 * slot as usize + 1;
    let mut word = [0; 14];
    spell(header, &mut word);
    spare[start..start + 14].copy_from_slice(&word);
}

/// Whether the seal is charged.
pub fn seal_charged(spare: &[u8]) -> bool
    requires { 32 ≤ length spare.now }
    ensures { result ≡ is_seal_charged spare.now }
{
    bit(spare, 248)
}
