//! Rows of three words, of a system that is solved row by row. The first words of all rows stand one
//! after the other, then the second, then the third, so that a row goes to several others at once. What
//! is proved of a row is that it is a sum of rows: whether the rows solved anything is tested when that
//! is done.

ghost use Rattle.std.specs.Prelude.{◌≡◌, ℕ, ◌+◌, ◌*◌, ◌^◌, ◌<◌, ◌≤◌, List, length, slice_index, bit_and};
ghost use Rattle.std.specs.Int.{bit_at};
ghost use Rattle.coset_code.specs.Rows.{AreSound, AreSeparate, IsLowestBit, IsSound};

/// The place of the sum that is wanted, in the third word of a row.
pub const WANTED: u64 = 1 << 63;

/// All ones where the bit is one, else zero.
fn spread(word: u64, place: u32) -> u64
    requires { place < 64 }
    ensures { (row : ℕ) → row < 2 ^ 64 → bit_and row result ≡ bit_at word place * row }
{
    if word >> place & 1 == 1 { u64::MAX } else { 0 }
}

/// Adds a row to another, where the mask is all ones.
fn add_row(rows: &mut [u64], row: usize, other: usize, word: u64, place: u32)
    requires row { row < 128 }
    requires other { other < 128 }
    requires place { place < 64 }
    requires rows { length rows.old ≡ 384 }
    ensures { (coords old : List ℕ) (count : ℕ) → count ≤ 128 → row < count → other < count → AreSound coords old count rows.old → AreSound coords old count rows.new }
{
    let all = spread(word, place);
    let (a, b, c) = (rows[row], rows[128 + row], rows[256 + row]);
    let (r, s, t) = (rows[other], rows[128 + other], rows[256 + other]);
    rows[other] = r ^ a & all;
    rows[128 + other] = s ^ b & all;
    rows[256 + other] = t ^ c & all;
}

/// Adds a row to the later rows that have its lowest bit, which is in the first word.
fn clear_by_first(rows: &mut [u64], row: usize, count: usize)
    requires row { row < count }
    requires some { 0 < slice_index rows.old row }
    requires rows { length rows.old ≡ 384 }
    requires few { count ≤ 128 }
    ensures { (coords old : List ℕ) → AreSound coords old count rows.old → AreSound coords old count rows.new }
{
    let (a, b, c) = (rows[row], rows[128 + row], rows[256 + row]);
    let place = a.trailing_zeros();
    for other in row + 1..count {
        let (r, s, t) = (rows[other], rows[128 + other], rows[256 + other]);
        let all = spread(r, place);
        rows[other] = r ^ a & all;
        rows[128 + other] = s ^ b & all;
        rows[256 + other] = t ^ c & all;
    }
}

/// The same where the first word is zero, and the lowest bit in the second.
fn clear_by_second(rows: &mut [u64], row: usize, count: usize)
    requires row { row < count }
    requires none { slice_index rows.old row ≡ 0 }
    requires some { 0 < slice_index rows.old (128 + row) }
    requires rows { length rows.old ≡ 384 }
    requires few { count ≤ 128 }
    ensures { (coords old : List ℕ) → AreSound coords old count rows.old → AreSound coords old count rows.new }
{
    let (b, c) = (rows[128 + row], rows[256 + row]);
    let place = b.trailing_zeros();
    for other in row + 1..count {
        let (s, t) = (rows[128 + other], rows[256 + other]);
        let all = spread(s, place);
        rows[128 + other] = s ^ b & all;
        rows[256 + other] = t ^ c & all;
    }
}

/// The same where the lowest bit is in the third word.
fn clear_by_third(rows: &mut [u64], row: usize, count: usize)
    requires row { row < count }
    requires none { slice_index rows.old row ≡ 0 }
    requires none_second { slice_index rows.old (128 + row) ≡ 0 }
    requires some { 0 < slice_index rows.old (256 + row) }
    requires rows { length rows.old ≡ 384 }
    requires few { count ≤ 128 }
    ensures { (coords old : List ℕ) → AreSound coords old count rows.old → AreSound coords old count rows.new }
{
    let c = rows[256 + row];
    let place = c.trailing_zeros();
    for other in row + 1..count {
        let t = rows[256 + other];
        rows[256 + other] = t ^ c & spread(t, place);
    }
}

/// Adds a row to the later rows that have its lowest bit.
fn clear_by(rows: &mut [u64], row: usize, count: usize)
    requires row { row < count }
    requires rows { length rows.old ≡ 384 }
    requires few { count ≤ 128 }
    ensures { (coords old : List ℕ) → AreSound coords old count rows.old → AreSound coords old count rows.new }
{
    if rows[row] != 0 {
        clear_by_first(rows, row, count);
    } else if rows[128 + row] != 0 {
        clear_by_second(rows, row, count);
    } else if rows[256 + row] != 0 {
        clear_by_third(rows, row, count);
    }
}

/// Adds two rows to the later rows that have a bit at their places in the first word.
fn add_two(rows: &mut [u64], row: usize, count: usize, place: u32, next: u32)
    requires row { row + 1 < count }
    requires place { place < 64 }
    requires next { next < 64 }
    requires rows { length rows.old ≡ 384 }
    requires few { count ≤ 128 }
    ensures { (coords old : List ℕ) → AreSound coords old count rows.old → AreSound coords old count rows.new }
{
    let (a, b, c) = (rows[row], rows[128 + row], rows[256 + row]);
    let after = row + 1;
    let (d, e, f) = (rows[after], rows[128 + after], rows[256 + after]);
    for other in row + 2..count {
        let (r, s, t) = (rows[other], rows[128 + other], rows[256 + other]);
        let all = spread(r, place);
        let too = spread(r, next);
        rows[other] = r ^ a & all ^ d & too;
        rows[128 + other] = s ^ b & all ^ e & too;
        rows[256 + other] = t ^ c & all ^ f & too;
    }
}

/// The same where the first words are zero, and the places in the second.
fn add_two_by_second(rows: &mut [u64], row: usize, count: usize, place: u32, next: u32)
    requires row { row + 1 < count }
    requires none { slice_index rows.old row ≡ 0 }
    requires none_next { slice_index rows.old (row + 1) ≡ 0 }
    requires place { place < 64 }
    requires next { next < 64 }
    requires rows { length rows.old ≡ 384 }
    requires few { count ≤ 128 }
    ensures { (coords old : List ℕ) → AreSound coords old count rows.old → AreSound coords old count rows.new }
{
    let (b, c) = (rows[128 + row], rows[256 + row]);
    let after = row + 1;
    let (e, f) = (rows[128 + after], rows[256 + after]);
    for other in row + 2..count {
        let (s, t) = (rows[128 + other], rows[256 + other]);
        let all = spread(s, place);
        let too = spread(s, next);
        rows[128 + other] = s ^ b & all ^ e & too;
        rows[256 + other] = t ^ c & all ^ f & too;
    }
}

/// Clears two rows by each other and the later rows by both, if their lowest bits are both in the first
/// word or both in the second, and says whether they were.
fn clear_by_both(rows: &mut [u64], row: usize, count: usize) -> bool
    requires row { row + 1 < count }
    requires rows { length rows.old ≡ 384 }
    requires few { count ≤ 128 }
    ensures { (coords old : List ℕ) → AreSound coords old count rows.old → AreSound coords old count rows.new }
{
    let lead = rows[row];
    if lead != 0 {
        let place = lead.trailing_zeros();
        let word = rows[row + 1];
        add_row(rows, row, row + 1, word, place);
        let word = rows[row + 1];
        if word == 0 {
            return false;
        }
        let next = word.trailing_zeros();
        add_row(rows, row + 1, row, lead, next);
        add_two(rows, row, count, place, next);
        return true;
    }
    let lead = rows[128 + row];
    if lead == 0 || rows[row + 1] != 0 {
        return false;
    }
    let place = lead.trailing_zeros();
    let word = rows[129 + row];
    add_row(rows, row, row + 1, word, place);
    let word = rows[129 + row];
    if word == 0 {
        return false;
    }
    let next = word.trailing_zeros();
    add_row(rows, row + 1, row, lead, next);
    if rows[row] != 0 || rows[row + 1] != 0 {
        return false;
    }
    add_two_by_second(rows, row, count, place, next);
    true
}

/// Clears the later rows by two rows.
fn clear_by_pair(rows: &mut [u64], row: usize, count: usize)
    requires row { row + 1 < count }
    requires rows { length rows.old ≡ 384 }
    requires few { count ≤ 128 }
    ensures { (coords old : List ℕ) → AreSound coords old count rows.old → AreSound coords old count rows.new }
{
    if !clear_by_both(rows, row, count) {
        clear_by(rows, row, count);
        clear_by(rows, row + 1, count);
    }
}

/// Adds each row to the later rows that have its lowest bit, so that no two rows have one lowest bit.
pub fn eliminate(rows: &mut [u64], count: usize)
    requires rows { length rows.old ≡ 384 }
    requires few { count ≤ 128 }
    ensures { (coords old : List ℕ) → AreSound coords old count rows.old → AreSound coords old count rows.new }
{
    for half in 0..count / 2 {
        clear_by_pair(rows, 2 * half, count);
    }
}

/// Cells from 128 on, as the three words of a row.
#[derive(Clone, Copy)]
pub struct Words {
    pub first: u64,
    pub second: u64,
    pub third: u64,
}

/// The word, with the lowest bit of a row's word where that is asked.
fn with_lowest(word: u64, row: u64, odd: u64) -> u64
    requires some { 0 < row }
    requires odd { odd < 2 }
    ensures { (i : ℕ) → bit_at result i ≡ 1 → bit_at word i ≡ 0 → IsLowestBit row i }
{
    word | odd << row.trailing_zeros()
}

/// The cells with the lowest bit of a row where that is asked.
fn with_row(words: Words, first: u64, second: u64, third: u64, odd: u64) -> Words
    requires odd { odd < 2 }
    ensures { (coords old : List ℕ) → IsSound coords old first second third → AreSeparate coords old words.first words.second words.third
        → AreSeparate coords old result.first result.second result.third }
{
    if first != 0 {
        Words {
            first: with_lowest(words.first, first, odd),
            second: words.second,
            third: words.third,
        }
    } else if second != 0 {
        Words {
            first: words.first,
            second: with_lowest(words.second, second, odd),
            third: words.third,
        }
    } else if third != 0 {
        Words {
            first: words.first,
            second: words.second,
            third: with_lowest(words.third, third, odd),
        }
    } else {
        words
    }
}

/// Solves the rows from the last to the first: of the lowest bits, those are taken with which each row
/// meets an even number of cells.
pub fn solve(rows: &[u64], count: usize) -> Words
    requires rows { length rows.now ≡ 384 }
    requires few { count ≤ 128 }
    ensures { (coords old : List ℕ) → AreSound coords old count rows.now → AreSeparate coords old result.first result.second result.third }
{
    let mut words = Words {
        first: 0,
        second: 0,
        third: WANTED,
    };
    for step in 0..count {
        let row = count - 1 - step;
        let (a, b, c) = (rows[row], rows[128 + row], rows[256 + row]);
        let met = a & words.first ^ b & words.second ^ c & words.third;
        words = with_row(words, a, b, c, (met.count_ones() & 1) as u64);
    }
    words
}
