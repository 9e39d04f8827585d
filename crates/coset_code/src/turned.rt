//! The system turned: a row for each charged cell of the full basis, over the cells that are not in it.
//! This is for tables whose first 128 cells are the full basis. A row that is made of such rows shows,
//! by its lowest bit, a cell whose column is no sum of columns of lower uncharged cells; so any cells
//! that are found by such bits are the basis solution if they have the sum, and that is tested.

ghost use Rattle.std.specs.Prelude.{◌≡◌, ℕ, ◌+◌, ◌*◌, ◌^◌, ◌<◌, ◌≤◌, List, length, slice_index, bit_and, IsTrue, IsFalse, IfOk, ◌-◌};
ghost use Rattle.std.specs.Int.{bit_at};
ghost use Rattle.gf2_solve.specs.Family.{Family};
ghost use Rattle.gf2_solve.specs.Span.{subset_sum};
ghost use Rattle.wom_code.specs.Packed.{IsRow, word_bit, words_for};
ghost use Rattle.coset_code.specs.Code.{HasRoom, IsSystem, IsTable, WentOver};
ghost use Rattle.coset_code.specs.Coordinates.{HasCoordinates};
ghost use Rattle.coset_code.specs.Rows.{AreSeparate, AreSound, HasGoneOver, HasUnits, IsLaid, IsReady, IsTurned};

use crate::coordinates::{charge_set, go_over};
use crate::rows::{WANTED, Words, eliminate, solve};
use crate::solve::{column_at, syndrome_of};
use crate::system::{Room, System, Turned};
use gf2_solve::Basis;
use std::alloc::{AllocError, Global};
use wom_code::Carry;

/// Bit `i` is the coordinate of cell `64 * index + i` at a place.
fn turn_word(coords: &[u128], index: usize, place: u32) -> u64
    requires index { index < 2 ^ 57 }
    requires place { place < 128 }
    ensures { (i : ℕ) → i < 64 → bit_at result i ≡ bit_at (slice_index coords.now (64 * index + i)) place }
{
    let mut word = 0;
    for i in 0..64 {
        word |= ((column_at(coords, index, i) >> place & 1) as u64) << i;
    }
    word
}

/// Whether the vectors of the full basis are the columns of the first cells.
fn is_in_order(full: &Basis, rank: u32) -> bool
    requires rank { rank ≡ length full.now.columns }
    requires tags { length full.now.tags ≡ length full.now.columns }
    ensures { IsTrue result → (p : ℕ) → p < length full.now.columns → slice_index full.now.tags p ≡ p }
{
    for place in 0..rank {
        if full.tag_of(place) != place {
            return false;
        }
    }
    true
}

/// Turns the coordinates of the cells from 128 on, and says whether the table is one for rows.
fn turn(full: &Basis, rank: u32, coords: &[u128], table: &mut [u64]) -> bool
    requires rank { rank ≡ length full.now.columns }
    requires tags { length full.now.tags ≡ length full.now.columns }
    requires table { length table.old ≡ 384 }
    ensures { IsTrue result → IsTurned coords.now full.now table.new }
{
    for place in 0..128 {
        table[place] = turn_word(coords, 2, place as u32);
        table[128 + place] = turn_word(coords, 3, place as u32);
        table[256 + place] = turn_word(coords, 4, place as u32);
    }
    rank == 128 && coords.len() > 256 && coords.len() < 320 && is_in_order(full, rank)
}

/// A bit of the sum that is wanted, at its place in a row.
fn wanted_bit(wanted: u64, place: u32) -> u64
    requires { place < 64 }
    ensures { (i : ℕ) → i < 63 → bit_at result i ≡ 0 }
{
    if wanted >> place & 1 == 1 { WANTED } else { 0 }
}

/// Writes the row of each charged cell of a word over the uncharged cells from 128 on, after so many
/// rows, and says how many there are then.
fn gather_word(
    table: &[u64],
    old: &[u64],
    index: usize,
    wanted: u64,
    before: usize,
    rows: &mut [u64],
) -> usize
    requires table { length table.now ≡ 384 }
    requires old { length old.now ≡ 5 }
    requires index { index < 2 }
    requires before { before ≤ 128 }
    requires rows { length rows.old ≡ 384 }
    ensures count { result ≤ 128 }
    ensures rows { (columns coords : List ℕ) (full : Family) → HasCoordinates columns coords full → IsTurned coords full table.now → AreSound coords old.now before rows.old
        → AreSound coords old.now result rows.new }
{
    let (first, second, third) = (!old[2], !old[3], !old[4]);
    let mut left = old[index];
    let mut count = before;
    while left != 0 {
        if count == 128 {
            return count;
        }
        let bit = left.trailing_zeros();
        let place = 64 * index + bit as usize;
        rows[count] = table[place] & first;
        rows[128 + count] = table[128 + place] & second;
        rows[256 + count] = table[256 + place] & third | wanted_bit(wanted, bit);
        left ^= 1 << bit;
        count += 1;
    }
    count
}

/// Writes the row of each charged cell below 128 over the uncharged cells from 128 on, and says how many.
fn gather(table: &[u64], old: &[u64], target: u128, rows: &mut [u64]) -> usize
    requires table { length table.now ≡ 384 }
    requires old { length old.now ≡ 5 }
    requires rows { length rows.old ≡ 384 }
    ensures count { result ≤ 128 }
    ensures rows { (columns coords : List ℕ) (full : Family) → HasCoordinates columns coords full → IsTurned coords full table.now → AreSound coords old.now result rows.new }
{
    let low = (target & u64::MAX as u128) as u64;
    let count = gather_word(table, old, 0, low, 0, rows);
    gather_word(table, old, 1, (target >> 64) as u64, count, rows)
}

/// Cells that bring about the coordinates of the target at charged cells below 128, if there are such cells.
fn find_words(table: &[u64], old: &[u64], target: u128, rows: &mut [u64]) -> Words
    requires table { length table.now ≡ 384 }
    requires old { length old.now ≡ 5 }
    requires rows { length rows.old ≡ 384 }
    ensures { (columns coords : List ℕ) (full : Family) → HasCoordinates columns coords full → IsTurned coords full table.now → AreSeparate coords old.now result.first result.second result.third }
{
    let count = gather(table, old, target, rows);
    eliminate(rows, count);
    solve(rows, count)
}

/// Writes the old cells with those of the words charged.
fn lay(old: &[u64], words: Words, row: &mut [u64])
    requires old { length old.now ≡ 5 }
    requires row { length row.old ≡ 5 }
    ensures { IsLaid old.now row.new words.first words.second (bit_and words.third (2 ^ 63 - 1)) }
{
    row.copy_from_slice(old);
    row[2] |= words.first;
    row[3] |= words.second;
    row[4] |= words.third & (WANTED - 1);
}

/// The cells below 128, as bits.
fn low_cells(old: &[u64]) -> u128
    requires { length old.now ≡ 5 }
    ensures { (i : ℕ) → i < 128 → bit_at result i ≡ word_bit old.now i }
{
    (old[1] as u128) << 64 | old[0] as u128
}

/// The sum of the coordinates of the charged cells from 128 on. That of the cells below is those cells.
fn high_sum(coords: &[u128], old: &[u64]) -> u128
    requires coords { length coords.now ≤ 320 }
    requires old { length old.now ≡ 5 }
{
    syndrome_of(coords, &[0, 0, old[2], old[3], old[4]])
}

/// Charges the basis solution that brings the coordinates about, where rows find it, and says whether
/// they did. Where they did not, `out` stays as it was.
fn go_by_rows(
    full: &Basis,
    coords: &[u128],
    turned: &mut Turned,
    old: &[u64],
    wanted: u128,
    out: &mut [u64],
) -> bool
    requires ready { IsTrue turned.old.ready }
    requires made { IsReady coords.now full.now turned.old }
    requires tags { length full.now.tags ≡ length full.now.columns }
    requires old { IsRow (length coords.now) old.now }
    requires out { length out.old ≡ words_for (length coords.now) }
    ensures gone { IsTrue result → (columns : List ℕ) → HasCoordinates columns coords.now full.now → HasGoneOver columns old.now out.new (subset_sum wanted full.now.columns) }
    ensures kept { IsFalse result → out.new ≡ out.old }
    ensures made { IsReady coords.now full.now turned.new }
{
    let low = low_cells(old);
    let target = wanted ^ low ^ high_sum(coords, old);
    let words = find_words(&turned.table, old, target, &mut turned.rows);
    lay(old, words, &mut turned.trial);
    let left = wanted ^ syndrome_of(coords, &turned.trial);
    if left & low != 0 {
        return false;
    }
    charge_set(full, left, &mut turned.trial);
    out.copy_from_slice(&turned.trial);
    true
}

/// Takes the coordinates of each bit, and says whether all have some.
fn express_bits(full: &Basis, units: &mut [u128]) -> bool
    requires { length units.old ≡ 128 }
    ensures { IsTrue result → HasUnits units.new full.now }
{
    for place in 0..128 {
        match full.express(1 << place) {
            None => return false,
            Some(set) => units[place] = set,
        }
    }
    true
}

/// The same for the number that a message holds, where the table is one for rows.
fn try_rows(
    full: &Basis,
    coords: &[u128],
    turned: &mut Turned,
    old: &[u64],
    message: &[u64],
    out: &mut [u64],
) -> bool
    requires made { IsReady coords.now full.now turned.old }
    requires tags { length full.now.tags ≡ length full.now.columns }
    requires old { IsRow (length coords.now) old.now }
    requires out { length out.old ≡ words_for (length coords.now) }
    ensures gone { IsTrue result → (columns : List ℕ) → HasCoordinates columns coords.now full.now → (number : ℕ) → ((i : ℕ) → bit_at number i ≡ word_bit message.now i)
        → HasGoneOver columns old.now out.new number }
    ensures kept { IsFalse result → out.new ≡ out.old }
    ensures made { IsReady coords.now full.now turned.new }
{
    if !turned.ready || message.len() != 2 {
        return false;
    }
    let wanted = syndrome_of(&turned.units, message);
    go_by_rows(full, coords, turned, old, wanted, out)
}

/// Charges the basis solution that makes the old cells carry the message: by rows where they find it,
/// and else vector by vector.
pub fn go(
    system: &System,
    room: &mut Room,
    bits: usize,
    old: &[u64],
    message: &[u64],
    out: &mut [u64],
) -> Carry
    requires table { IsTable bits (length system.now.columns.items) system.now.columns.items }
    requires system { IsSystem system.now }
    requires room { HasRoom system.now room.old }
    requires old { IsRow (length system.now.columns.items) old.now }
    requires message { IsRow bits message.now }
    requires out { length out.old ≡ words_for (length system.now.columns.items) }
    ensures went { WentOver result bits (length system.now.columns.items) system.now.columns.items old.now message.now out.old out.new }
    ensures room { HasRoom system.now room.new }
{
    if try_rows(
        &system.full,
        &system.coords,
        &mut room.turned,
        old,
        message,
        out,
    ) {
        return Carry::Carried;
    }
    go_over(system, room, bits, old, message, out)
}

/// What calls by rows need, for rows of so many words.
pub fn make_turned(
    alloc: Global,
    full: &Basis,
    rank: u32,
    coords: &[u128],
) -> Result<Turned, AllocError>
    requires rank { rank ≡ length full.now.columns }
    requires tags { length full.now.tags ≡ length full.now.columns }
    ensures { IfOk result (λ turned. IsReady coords.now full.now turned) }
{
    let mut table = vec![in alloc; 0; 384]?;
    let mut units = vec![in alloc; 0; 128]?;
    let is_turned = turn(full, rank, coords, &mut table);
    let is_expressed = express_bits(full, &mut units);
    Ok(Turned {
        ready: is_turned && is_expressed,
        units,
        table,
        rows: vec![in alloc; 0; 384]?,
        trial: vec![in alloc; 0; coords.len().div_ceil(64)]?,
    })
}

/// The room of calls over a system.
pub fn make_room(alloc: Global, system: &System) -> Result<Room, AllocError>
    requires { IsSystem system.now }
    ensures { IfOk result (λ room. HasRoom system.now room) }
{
    Ok(Room {
        masked: vec![in alloc; 0; system.coords.len()]?,
        basis: Basis::new(alloc)?,
        turned: make_turned(alloc, &system.full, system.rank, &system.coords)?,
    })
}
