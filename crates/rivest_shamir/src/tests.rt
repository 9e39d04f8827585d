//! The two tables against the rule itself, and the worked words.

use crate::RivestShamir;
use wom_code::{Carry, PackedCode, WomCode};

/// The three cells of a word, cell a first.
fn cells_of(word: u8) -> [bool; 3] {
    [word & 1 != 0, word & 2 != 0, word & 4 != 0]
}

/// The message of cells a, b, c by the rule.
fn message_of(cells: [bool; 3]) -> [bool; 2] {
    let [a, b, c] = cells;
    [b != c, a != c]
}

/// The word of least charge above the old one that carries the message, by trying all.
fn best(old: u8, message: [bool; 2]) -> Option<u8> {
    let mut best: Option<u8> = None;
    for word in 0..8u8 {
        let carries = word & old == old && message_of(cells_of(word)) == message;
        if carries && best.is_none_or(|other| word.count_ones() < other.count_ones()) {
            best = Some(word);
        }
    }
    best
}

#[test]
fn every_old_word_and_message_is_as_by_trying_all(rt: HostRuntime) {
    for old in 0..8u8 {
        for message in [[false, false], [true, false], [false, true], [true, true]] {
            let mut out = [false; 3];
            let carry = RivestShamir::new().over(&cells_of(old), &message, &mut out);
            match best(old, message) {
                None => assert_eq!(rt; (carry, out), (Carry::Declined, [false; 3])),
                Some(word) => assert_eq!(rt; (carry, out), (Carry::Carried, cells_of(word))),
            }
        }
    }
}

#[test]
fn every_word_reads_as_its_message(rt: HostRuntime) {
    for word in 0..8u8 {
        let mut read = [false; 2];
        RivestShamir::new().decode(&cells_of(word), &mut read);
        assert_eq!(rt; read, message_of(cells_of(word)));
    }
}

#[test]
fn the_worked_words(rt: HostRuntime) {
    let (a, ab) = ([true, false, false], [true, true, false]);
    for (old, message, carry, word) in [
        (a, [true, false], Carry::Carried, [true, false, true]),
        (a, [false, true], Carry::Carried, a),
        (ab, [false, true], Carry::Declined, [false; 3]),
        (ab, [false, false], Carry::Carried, [true; 3]),
    ] {
        let mut out = [false; 3];
        assert_eq!(rt; RivestShamir::new().over(&old, &message, &mut out), carry);
        assert_eq!(rt; out, word);
    }
}

#[test]
fn the_packed_word(rt: HostRuntime) {
    let mut out = [0];
    let carry = RivestShamir::new().over_words(&[1], &[1], &mut out);
    assert_eq!(rt; (carry, out), (Carry::Carried, [5]));
}
