//! The two tables against a search over all words, and the worked words.

use crate::HammingSeven;
use wom_code::{Carry, PackedCode, WomCode};

/// The cells of a word, cell 0 first.
fn cells_of(word: u8) -> [bool; 7] {
    let mut cells = [false; 7];
    for (place, cell) in cells.iter_mut().enumerate() {
        *cell = word >> place & 1 == 1;
    }
    cells
}

/// The bits of a message, bit 0 first.
fn bits_of(message: u8) -> [bool; 3] {
    [message & 1 != 0, message & 2 != 0, message & 4 != 0]
}

/// The message of a word by the rule: the sum of the columns of its charged cells.
fn message_of(word: u8) -> u8 {
    let mut sum = 0;
    for cell in 0..7u8 {
        if word >> cell & 1 == 1 {
            sum ^= cell + 1;
        }
    }
    sum
}

/// Whether a set of cells is smaller, or as small and has the lower of the cells that differ.
fn comes_before(set: u8, other: u8) -> bool {
    let (few, many) = (set.count_ones(), other.count_ones());
    few < many || few == many && set.reverse_bits() > other.reverse_bits()
}

/// The word above the old one that carries the message and adds the first set, by trying all.
fn best(old: u8, message: u8) -> Option<u8> {
    let mut best: Option<u8> = None;
    for word in 0..128u8 {
        let carries = word & old == old && message_of(word) == message;
        if carries && best.is_none_or(|other| comes_before(word ^ old, other ^ old)) {
            best = Some(word);
        }
    }
    best
}

#[test]
fn every_old_word_and_message_is_as_by_trying_all(rt: HostRuntime) {
    for old in 0..128u8 {
        for message in 0..8u8 {
            let mut out = [false; 7];
            let carry = HammingSeven::new().over(&cells_of(old), &bits_of(message), &mut out);
            match best(old, message) {
                None => assert_eq!(rt; (carry, out), (Carry::Declined, [false; 7])),
                Some(word) => assert_eq!(rt; (carry, out), (Carry::Carried, cells_of(word))),
            }
        }
    }
}

#[test]
fn every_word_reads_as_its_message(rt: HostRuntime) {
    for word in 0..128u8 {
        let mut read = [false; 3];
        HammingSeven::new().decode(&cells_of(word), &mut read);
        assert_eq!(rt; read, bits_of(message_of(word)));
    }
}

#[test]
fn three_worked_writes_and_a_full_word(rt: HostRuntime) {
    for (old, message, carry, word) in [
        (0, 6, Carry::Carried, 0b0100000),
        (0b0100000, 0, Carry::Carried, 0b1100001),
        (0b1100001, 5, Carry::Carried, 0b1110001),
        (127, 0, Carry::Carried, 127),
        (127, 1, Carry::Declined, 0),
    ] {
        let mut out = [false; 7];
        let answer = HammingSeven::new().over(&cells_of(old), &bits_of(message), &mut out);
        assert_eq!(rt; (answer, out), (carry, cells_of(word)));
    }
}

#[test]
fn every_old_word_and_message_in_each_place_of_a_group(rt: HostRuntime) {
    for place in 0..9usize {
        for old in 0..128u8 {
            for message in 0..8u8 {
                let cells = (old as u64) << (7 * place);
                let messages = (message as u64) << (3 * place);
                let new = best(old, message).map(|word| (word as u64) << (7 * place));
                assert_eq!(rt; HammingSeven::new().over_group(9, cells, messages), new);
            }
        }
    }
}

#[test]
fn groups_of_nine_eight_and_six_chunks(rt: HostRuntime) {
    for (count, old, messages, new) in [
        (9, 0, 0o514017517, Some(0x10022000180400c0)),
        (9, 0x10022000180400c0, 0o365546123, Some(0x30822481182602c8)),
        (9, 0x30822481182602c8, 0o547063642, Some(0x71862cc93a3612c9)),
        (9, 0x71862cc93a3612c9, 0o215737117, Some(0x7da76ecb7b3e5ad9)),
        (8, 0, 0o75200410, Some(0x80401000020080)),
        (8, 0x80401000020080, 0o22232666, Some(0xa140104042a0a0)),
        (6, 0x1190a17082, 0o646012, Some(0x53b1a1f382)),
        (6, 0x53b1a1f382, 0o424203, None),
    ] {
        let mut code = HammingSeven::new();
        assert_eq!(rt; code.over_group(count, old, messages), new);
        if let Some(cells) = new {
            assert_eq!(rt; code.decode_group(count, cells), messages);
        }
    }
}
