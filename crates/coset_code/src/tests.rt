//! The code against a search over all cells on random tables, and the worked words.

use crate::{Columns, Coset, CosetRefusal};
use rand_core::SeedableRng;
use rand_core::utils::NextWord;
use rand_xoshiro::SplitMix64;
use std::alloc::Global;
use std::process::Abort;
use std::test::Fail;
use wom_code::{Carry, WomCode, pack};

/// The cells of a number, its lowest bit first.
fn cells_of<const N: usize>(number: usize) -> [bool; N] {
    let mut cells = [false; N];
    let mut rest = number;
    for cell in cells.iter_mut() {
        *cell = rest % 2 == 1;
        rest /= 2;
    }
    cells
}

/// The sum of the columns of the charged cells of a word.
fn sum_of(table: &[u128], word: usize) -> u128 {
    let mut sum = 0;
    let mut rest = word;
    for column in table {
        if rest % 2 == 1 {
            sum ^= *column;
        }
        rest /= 2;
    }
    sum
}

/// The first word above the old one with this sum. It adds a basis solution: a cell whose column is a sum
/// of those of lower free cells could give way to them, and the word would be a lesser number.
fn best(sums: &[u128], old: usize, message: usize) -> Option<usize> {
    let mut word = old;
    for _tried in 0..sums.len() {
        if word >= sums.len() {
            return None;
        }
        if sums[word] == message as u128 {
            return Some(word);
        }
        word = (word + 1) | old;
    }
    None
}

/// Tries every old row and message over a random table.
fn is_as_by_trying_all<const K: usize, const N: usize>(
    rt: &impl Abort,
    alloc: Global,
    seed: u64,
    words: usize,
    ones: u64,
) -> Result<(), Fail> {
    let mut random = SplitMix64::seed_from_u64(seed);
    let mut table = Vec::new(alloc);
    for _ in 0..N {
        table.push((random.next_word() & ones) as u128)?;
    }
    assert!(rt; table.len() < 100);
    let mut sums = Vec::new(alloc);
    for word in 0..words {
        sums.push(sum_of(&table, word))?;
    }
    let mut code = Coset::<K, N>::new(alloc, Columns::of(alloc, &table)?)?;
    for old in 0..words {
        for message in 0..=ones as usize {
            let mut out = [false; N];
            let carry = code.over(&cells_of::<N>(old), &cells_of::<K>(message), &mut out);
            match best(&sums, old, message) {
                None => assert_eq!(rt; carry, Carry::Declined),
                Some(word) => {
                    assert_eq!(rt; carry, Carry::Carried);
                    assert_eq!(rt; out.as_slice(), cells_of::<N>(word).as_slice());
                }
            }
        }
    }
    Ok(())
}

#[test]
fn every_old_row_and_message_is_as_by_trying_all(rt: HostRuntime) -> Result<(), Fail> {
    is_as_by_trying_all::<3, 7>(&rt, rt.alloc(), 1, 128, 7)?;
    is_as_by_trying_all::<4, 9>(&rt, rt.alloc(), 2, 512, 15)?;
    is_as_by_trying_all::<6, 12>(&rt, rt.alloc(), 3, 4096, 63)
}

#[test]
fn the_worked_small_tables(rt: HostRuntime) -> Result<(), Fail> {
    let mut small = Coset::<2, 3>::new(rt.alloc(), Columns::of(rt.alloc(), &[2, 1, 3])?)?;
    for (old, message, carry, word) in [
        (
            [true, false, false],
            [true, false],
            Carry::Carried,
            [true, false, true],
        ),
        ([true; 3], [false; 2], Carry::Carried, [true; 3]),
        ([true; 3], [false, true], Carry::Declined, [false; 3]),
    ] {
        let mut out = [false; 3];
        assert_eq!(rt; small.over(&old, &message, &mut out), carry);
        assert_eq!(rt; out, word);
    }
    let columns = Columns::of(rt.alloc(), &[1, 2, 3, 4, 5, 6, 7])?;
    let mut seven = Coset::<3, 7>::new(rt.alloc(), columns)?;
    let mut out = [false; 7];
    assert_eq!(rt;
        seven.over(&cells_of::<7>(1), &cells_of::<3>(6), &mut out),
        Carry::Carried
    );
    assert_eq!(rt; out, [true, false, true, true, false, false, false]);
    Ok(())
}

#[test]
fn blank_cells_take_zeros_and_full_cells_one_message(rt: HostRuntime) -> Result<(), Fail> {
    let mut code = Coset::<128, 288>::new(rt.alloc(), Columns::new(rt.alloc(), 1, 288)?)?;
    let mut out = [true; 288];
    assert_eq!(rt;
        code.over(&[false; 288], &[false; 128], &mut out),
        Carry::Carried
    );
    assert_eq!(rt; out.as_slice(), [false; 288].as_slice());
    let mut declined = 0u32;
    for message in 0..256usize {
        if code.over(&[true; 288], &cells_of::<128>(message), &mut out) == Carry::Declined {
            declined = declined.saturating_add(1);
        }
    }
    assert!(rt; declined >= 255);
    Ok(())
}

/// The words of the message that two cells carry.
fn message_of(code: &Coset<128, 2>, cells: &[bool; 2]) -> [u64; 2] {
    let mut column = [false; 128];
    let mut packed = [0; 2];
    code.decode(cells, &mut column);
    pack(&column, &mut packed);
    packed
}

#[test]
fn the_first_words_of_seed_0_are_two_columns(rt: HostRuntime) -> Result<(), Fail> {
    let code = Coset::<128, 2>::new(rt.alloc(), Columns::new(rt.alloc(), 0, 2)?)?;
    for (cells, words) in [
        ([true, false], [0xe220a8397b1dcdaf, 0x6e789e6aa1b965f4]),
        ([false, true], [0x06c45d188009454f, 0xf88bb8a8724c81ec]),
    ] {
        assert_eq!(rt; message_of(&code, &cells), words);
    }
    Ok(())
}

#[test]
fn a_table_of_another_shape_is_refused(rt: HostRuntime) -> Result<(), Fail> {
    let few = Coset::<2, 3>::new(rt.alloc(), Columns::of(rt.alloc(), &[1, 2])?);
    assert!(rt; matches!(&few, Err(CosetRefusal::Shape)));
    let wide = Coset::<1, 2>::new(rt.alloc(), Columns::of(rt.alloc(), &[1, 2])?);
    assert!(rt; matches!(&wide, Err(CosetRefusal::Shape)));
    Ok(())
}
