//! The first cells of a packed row, which hold bits as they are, or turned: each bit inverted.

ghost use Rattle.std.specs.Prelude.{◌≡◌, ◌↔◌, ℕ, ◌+◌, ◌*◌, ◌/◌, ◌%◌, ◌≤◌, ◌<◌, ◌^◌, ◌-◌, List, length, max, nat_lt, if◌then◌else◌, IsTrue};
ghost use Rattle.std.specs.Int.{bit_at};
ghost use Rattle.wom_code.specs.Cells.{IsAbove, charge_of};
ghost use Rattle.wom_code.specs.Packed.{IsRow, cells_of, words_for, word_bit};
ghost use Rattle.wom_code.specs.Turned.{turned_by, front_bit};

/// The bits of a word of a packed row that stand for cells below the count.
fn bits_below(count: usize, word: usize) -> u64
    ensures { (i : ℕ) → i < 64 → bit_at result i ≡ (if nat_lt (64 * word + i) count then 1 else 0) }
{
    let last = count / 64;
    if word < last {
        u64::MAX
    } else if word == last {
        (1 << (count % 64)) - 1
    } else {
        0
    }
}

/// The bits of one word that are among the first `count`, turned or not. All others are zeros.
fn front_word(words: &[u64], count: usize, turned: bool, place: usize) -> u64
    requires { place < length words.now }
    ensures { (i : ℕ) → i / 64 ≡ place → bit_at result (i % 64) ≡ front_bit turned count words.now i }
{
    let front = bits_below(count, place);
    if turned {
        words[place] & front ^ front
    } else {
        words[place] & front
    }
}

/// Takes the first `count` bits of a row, turned or not, as a row of their own.
pub fn take_front(words: &[u64], count: usize, turned: bool, out: &mut [u64])
    requires count { length out.old ≡ words_for count }
    requires room { length out.old ≤ length words.now }
    ensures row { IsRow count out.new }
    ensures bits { cells_of count out.new ≡ turned_by turned (cells_of count words.now) }
{
    for (place, word) in out.iter_mut().enumerate() {
        *word = front_word(words, count, turned, place);
    }
}

/// Whether a row of `count` bits, turned or not, is above the first cells of the old row.
pub fn fits_front(bits: &[u64], count: usize, turned: bool, old: &[u64]) -> bool
    requires count { length bits.now ≡ words_for count }
    requires room { length bits.now ≤ length old.now }
    ensures { IsTrue result ↔ IsAbove (turned_by turned (cells_of count bits.now)) (cells_of count old.now) }
{
    for place in 0..bits.len() {
        let kept = front_word(old, count, false, place);
        let word = front_word(bits, count, turned, place);
        if kept | word != word {
            return false;
        }
    }
    true
}

/// Charges the first cells of a row where a row of `count` bits, turned or not, has a one.
pub fn lay_front(bits: &[u64], count: usize, turned: bool, out: &mut [u64])
    requires count { length bits.now ≡ words_for count }
    requires room { length bits.now ≤ length out.old }
    ensures length { length out.new ≡ length out.old }
    ensures laid { (i : ℕ) → word_bit out.new i ≡ max (word_bit out.old i) (front_bit turned count bits.now i) }
{
    for place in 0..bits.len() {
        out[place] |= front_word(bits, count, turned, place);
    }
}

/// How many cells of a packed row are charged.
pub fn count_charged_words(words: &[u64], count: usize) -> usize
    requires { IsRow count words.now }
    ensures { result ≡ charge_of (cells_of count words.now) }
{
    let mut charged = 0;
    for place in 0..words.len() {
        charged += words[place].count_ones() as usize;
    }
    charged
}
