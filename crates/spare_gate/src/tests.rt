//! Spare areas written out by the table of the spare area, and the word of the worked header.

ghost use Rattle.std.specs.Prelude.{◌≡◌, length};

use super::*;
use zero_count::Header;

const WORD: [u8; 14] = [5, 0, 0, 0, 1, 0, 0, 0, 0, 0, 0, 0, 1, 0x64];

/// Three blank slots, but for these bytes from `at` on.
fn spare_with(bytes: &[u8], at: usize) -> [u8; 48] {
    let mut spare = [0; 48];
    for (place, byte) in spare.iter_mut().skip(at).zip(bytes) {
        *place = *byte;
    }
    spare
}

#[test]
fn a_header_goes_into_its_own_slot(rt: HostRuntime) {
    let header = Header {
        sector: 5,
        seq: 1,
        kind: 1,
    };
    for slot in 0..3u32 {
        let mut spare = [0; 48];
        assert!(rt; slot_blank(&spare, slot));
        put_header(&mut spare, slot, &header);
        assert_eq!(rt; spare, spare_with(&WORD, 16 * slot as usize + 1));
        assert_eq!(rt; header_at(&spare, slot), Some(header));
        assert_eq!(rt; header_at(&spare, (slot + 1) % 3), None);
        assert!(rt; !gate_charged(&spare, slot));
    }
}

#[test]
fn a_torn_header_is_not_blank(rt: HostRuntime) {
    let spare = spare_with(&[1], 14);
    assert!(rt; !slot_blank(&spare, 0) && slot_blank(&spare, 1));
    assert_eq!(rt; header_at(&spare, 0), None);
}

#[test]
fn a_gate_and_the_seal_are_single_cells(rt: HostRuntime) {
    let pads = spare_with(&[0xfe], 16);
    assert!(rt; !gate_charged(&pads, 1) && gate_charged(&spare_with(&[1], 16), 1));
    assert!(rt; !seal_charged(&spare_with(&[1], 15)) && seal_charged(&spare_with(&[1], 31)));
    assert!(rt; slot_blank(&spare_with(&[1], 31), 1));
}

#[test]
fn gates_and_the_seal_come_after_the_main_bytes(rt: HostRuntime) {
    assert_eq!(rt;
        [gate_cell(24, 0), gate_cell(24, 1), gate_cell(38, 2)],
        [192, 320, 560]
    );
    assert_eq!(rt; seal_cell(24), 440);
}
