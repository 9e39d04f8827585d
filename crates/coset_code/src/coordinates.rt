//! The table by coordinates in the greedy basis of all its columns. A call eliminates only at the charged
//! cells of that basis, and its uncharged cells bring about what is left.

ghost use Rattle.std.specs.Prelude.{◌≡◌, ℕ, ◌+◌, ◌*◌, ◌^◌, ◌<◌, ◌≤◌, List, [], length, slice_index, IfOk};
ghost use Rattle.std.specs.Int.{bit_at};
ghost use Rattle.wom_code.specs.Packed.{cells_of, word_bit, words_for, IsRow};
ghost use Rattle.coset_code.specs.Code.{HasRoom, IsSystem, IsTable, WentOver};
ghost use Rattle.coset_code.specs.Solution.{HasOffered};
ghost use Rattle.coset_code.specs.Coordinates.{HasCoordinates, IsChargedSet, IsCounted, IsFreeSet, IsMasked};

use crate::message::number_of;
use crate::solve::{find_solution, syndrome_of};
use crate::system::{Room, System};
use gf2_solve::{Basis, Offered};
use std::alloc::{AllocError, Global};
use wom_code::{Carry, charge, is_charged};

/// Offers the column of a cell, and says whether it was taken.
fn offer_cell(full: &mut Basis, columns: &[u128], cell: usize) -> bool
    requires cell { cell < length columns.now }
    requires columns { length columns.now < 2 ^ 32 }
    requires offered { HasOffered columns.now [] cell full.old }
    ensures offered { HasOffered columns.now [] (cell + 1) full.new }
    ensures taken { IsCounted result full.old full.new }
{
    match full.offer(columns[cell], cell as u32) {
        Offered::Taken(_) => true,
        Offered::Spanned => false,
    }
}

/// Takes the basis of all columns, and each column's coordinates in it. The answer is the rank.
pub fn take_coordinates(full: &mut Basis, columns: &[u128], coords: &mut [u128]) -> u32
    requires few { length columns.now < 2 ^ 32 }
    requires room { length coords.old ≡ length columns.now }
    ensures coordinates { HasCoordinates columns.now coords.new full.new }
    ensures rank { result ≡ length full.new.columns }
{
    full.clear();
    let mut rank = 0;
    for cell in 0..columns.len() {
        if offer_cell(full, columns, cell) {
            rank += 1;
        }
    }
    for place in 0..columns.len() {
        match full.express(columns[place]) {
            Some(set) => coords[place] = set,
            None => {}
        }
    }
    rank
}

/// Which vectors of the full basis have charged cells.
fn charged_places(full: &Basis, rank: u32, coords: &[u128], old: &[u64]) -> u128
    requires rank { rank ≡ length full.now.columns }
    requires tags { length full.now.tags ≡ length full.now.columns }
    requires units { (p : ℕ) → p < length full.now.columns → slice_index coords.now (slice_index full.now.tags p) ≡ 2 ^ p }
    requires cells { (p : ℕ) → p < length full.now.columns → slice_index full.now.tags p < length coords.now }
    requires old { length coords.now ≤ 64 * length old.now }
    ensures { (p : ℕ) → p < length full.now.columns → bit_at result p ≡ 0 → word_bit old.now (slice_index full.now.tags p) ≡ 0 }
{
    let mut places = 0;
    for place in 0..rank {
        let cell = full.tag_of(place) as usize;
        if is_charged(old, cell) {
            places |= coords[cell];
        }
    }
    places
}

/// The coordinates that are in a mask.
fn mask_all(coords: &[u128], mask: u128, masked: &mut [u128])
    requires { length masked.old ≡ length coords.now }
    ensures { IsMasked coords.now mask masked.new }
{
    for cell in 0..coords.len() {
        masked[cell] = coords[cell] & mask;
    }
}

/// Charges the cells that tag the vectors of a set.
pub fn charge_set(basis: &Basis, set: u128, row: &mut [u64])
    requires set { set < 2 ^ length basis.now.columns }
    requires tags { (p : ℕ) → p < length basis.now.columns → slice_index basis.now.tags p < 64 * length row.old }
    requires tags_len { length basis.now.tags ≡ length basis.now.columns }
    ensures charged { (columns : List ℕ) → IsFreeSet columns (cells_of (length columns) row.old) basis.now set
        → IsChargedSet columns (cells_of (length columns) row.old) (cells_of (length columns) row.new) basis.now set 0 }
    ensures others { (n : ℕ) → ((p : ℕ) → p < length basis.now.columns → slice_index basis.now.tags p < n) → (i : ℕ) → n ≤ i → word_bit row.new i ≡ word_bit row.old i }
{
    let mut rest = set;
    while rest != 0 {
        let place = rest.trailing_zeros();
        charge(row, basis.tag_of(place) as usize);
        rest ^= 1 << place;
    }
}

/// Charges the basis solution that makes the old cells carry the message. Only the coordinates at
/// charged cells of the full basis are solved for; its uncharged cells then bring any others about.
pub fn go_over(
    system: &System,
    room: &mut Room,
    bits: usize,
    old: &[u64],
    message: &[u64],
    out: &mut [u64],
) -> Carry
    requires table { IsTable bits (length system.now.columns.items) system.now.columns.items }
    requires system { IsSystem system.now }
    requires room { HasRoom system.now room.old }
    requires old { IsRow (length system.now.columns.items) old.now }
    requires message { IsRow bits message.now }
    requires out { length out.old ≡ words_for (length system.now.columns.items) }
    ensures went { WentOver result bits (length system.now.columns.items) system.now.columns.items old.now message.now out.old out.new }
    ensures room { HasRoom system.now room.new }
{
    let wanted = match system.full.express(number_of(message)) {
        None => return Carry::Declined,
        Some(wanted) => wanted,
    };
    let coords: &[u128] = &system.coords;
    let masked: &mut [u128] = &mut room.masked;
    let mask = charged_places(&system.full, system.rank, coords, old);
    mask_all(coords, mask, masked);
    let target = (wanted ^ syndrome_of(coords, old)) & mask;
    match find_solution(
        &mut room.basis,
        masked,
        old,
        target,
        mask.count_ones() as usize,
    ) {
        None => Carry::Declined,
        Some(set) => {
            out.copy_from_slice(old);
            charge_set(&room.basis, set, out);
            let left = wanted ^ syndrome_of(coords, out);
            charge_set(&system.full, left, out);
            Carry::Carried
        }
    }
}

/// The system of a table.
pub fn make_system(alloc: Global, columns: Vec<u128>) -> Result<System, AllocError>
    requires { length columns.items < 2 ^ 32 }
    ensures columns { IfOk result (λ system. system.columns.items ≡ columns.items) }
    ensures system { IfOk result (λ system. IsSystem system) }
{
    let mut full = Basis::new(alloc)?;
    let mut coords = vec![in alloc; 0; columns.len()]?;
    let rank = take_coordinates(&mut full, &columns, &mut coords);
    Ok(System {
        columns,
        full,
        rank,
        coords,
    })
}
