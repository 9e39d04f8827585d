//! The codes of this crate against a search over all cells, and the worked words.

ghost use Rattle.std.specs.Prelude.{◌≤◌};

use crate::{Carry, Flip, PackedCode, Plain, WomCode, pack, unpack};
use std::process::Abort;

/// The cells of a number, its lowest bit first.
fn cells_of<const N: usize>(number: u8) -> [bool; N] {
    let mut cells = [false; N];
    let mut rest = number;
    for cell in cells.iter_mut() {
        *cell = rest % 2 == 1;
        rest /= 2;
    }
    cells
}

/// The message by the rule: the bits of `ones`, inverted where the flag is charged.
fn message_of(word: u8, ones: u8, flag: u8) -> u8 {
    if word & flag != 0 {
        word & ones ^ ones
    } else {
        word & ones
    }
}

/// Of the words above the old one that carry the message, the first with the least charge.
fn best(old: u8, message: u8, words: u8, ones: u8, flag: u8) -> Option<u8> {
    let mut best: Option<u8> = None;
    for word in 0..words {
        let carries = word & old == old && message_of(word, ones, flag) == message;
        if carries && best.is_none_or(|other| word.count_ones() < other.count_ones()) {
            best = Some(word);
        }
    }
    best
}

/// Tries every old word and message of a code with this many words, by both calls.
fn is_as_by_trying_all<C: PackedCode<K, N>, const K: usize, const N: usize>(
    rt: &impl Abort,
    code: &mut C,
    words: u8,
    ones: u8,
    flag: u8,
)
    requires bits { 1 ≤ K }
    requires cells { 1 ≤ N }
    requires few_bits { K ≤ 64 }
    requires few_cells { N ≤ 64 }
{
    for old in 0..words {
        for message in 0..=ones {
            let (mut out, mut unpacked) = ([false; N], [false; N]);
            let (mut old_row, mut message_row, mut out_row) = ([0], [0], [0]);
            let carry = code.over(&cells_of::<N>(old), &cells_of::<K>(message), &mut out);
            pack(&cells_of::<N>(old), &mut old_row);
            pack(&cells_of::<K>(message), &mut message_row);
            let packed = code.over_words(&old_row, &message_row, &mut out_row);
            unpack(&out_row, &mut unpacked);
            assert_eq!(rt; (packed, unpacked.as_slice()), (carry, out.as_slice()));
            match best(old, message, words, ones, flag) {
                None => assert_eq!(rt; carry, Carry::Declined),
                Some(word) => assert_eq!(rt; out.as_slice(), cells_of::<N>(word).as_slice()),
            }
        }
    }
}

#[test]
fn every_old_word_and_message_is_as_by_trying_all(rt: HostRuntime) {
    is_as_by_trying_all(&rt, &mut Plain::<2, 4>::new(), 16, 3, 0);
    is_as_by_trying_all(&rt, &mut Flip::<2, 3>::new(), 8, 3, 4);
    is_as_by_trying_all(&rt, &mut Flip::<3, 5>::new(), 32, 7, 8);
}

#[test]
fn the_worked_flip_words(rt: HostRuntime) {
    for (old, message, carry, word) in [
        (
            [false; 3],
            [true, true],
            Carry::Carried,
            [false, false, true],
        ),
        (
            [false; 3],
            [true, false],
            Carry::Carried,
            [true, false, false],
        ),
        (
            [true, false, false],
            [false, true],
            Carry::Carried,
            [true, false, true],
        ),
        (
            [true, false, true],
            [true, false],
            Carry::Declined,
            [false; 3],
        ),
    ] {
        let mut out = [false; 3];
        let mut read = [false; 2];
        assert_eq!(rt; Flip::<2, 3>::new().over(&old, &message, &mut out), carry);
        assert_eq!(rt; out, word);
        Flip::<2, 3>::new().decode(&out, &mut read);
        assert!(rt; carry == Carry::Declined || read == message);
    }
}
