//! Sums of columns of charged cells, and the search for uncharged cells that have a sum.

ghost use Rattle.std.specs.Prelude.{◌≡◌, ℕ, ◌+◌, ◌*◌, ◌^◌, ◌<◌, ◌≤◌, List, length, slice_index, IfSome, IfNone};
ghost use Rattle.wom_code.specs.Packed.{cells_of};
ghost use Rattle.gf2_solve.specs.Span.{subset_sum};
ghost use Rattle.coset_code.specs.Sums.{syndrome, IsFreeSum};
ghost use Rattle.coset_code.specs.Solution.{IsFreeBasis, HasOffered};

use gf2_solve::{Basis, Offered};
use wom_code::is_charged;

/// The sum of the columns of the charged cells.
pub fn syndrome_of(columns: &[u128], cells: &[u64]) -> u128
    requires cells { length columns.now ≤ 64 * length cells.now }
    requires few { length cells.now < 2 ^ 57 }
    ensures { result ≡ syndrome columns.now (cells_of (length columns.now) cells.now) }
{
    let mut sum = 0;
    for index in 0..cells.len() {
        let mut left = cells[index];
        while left != 0 {
            let place = left.trailing_zeros();
            sum ^= column_at(columns, index, place as usize);
            left ^= 1 << place;
        }
    }
    sum
}

/// The column of a cell by its word and its place there, or zero past the last cell.
pub fn column_at(columns: &[u128], index: usize, place: usize) -> u128
    requires index { index < 2 ^ 57 }
    requires place { place < 64 }
    ensures { result ≡ slice_index columns.now (64 * index + place) }
{
    match columns.get(64 * index + place) {
        Some(column) => *column,
        None => 0,
    }
}

/// Offers the column of a cell, unless the cell is charged, and says whether it was taken.
fn offer_if_free(basis: &mut Basis, columns: &[u128], old: &[u64], cell: usize) -> bool
    requires cell { cell < length columns.now }
    requires columns { length columns.now < 2 ^ 32 }
    requires old { length columns.now ≤ 64 * length old.now }
    requires offered { HasOffered columns.now (cells_of (length columns.now) old.now) cell basis.old }
    ensures { HasOffered columns.now (cells_of (length columns.now) old.now) (cell + 1) basis.new }
{
    if is_charged(old, cell) {
        return false;
    }
    match basis.offer(columns[cell], cell as u32) {
        Offered::Taken(_) => true,
        Offered::Spanned => false,
    }
}

/// Finds uncharged cells whose columns sum to the target: vectors of the basis that it leaves. Once as
/// many are taken as the target has bits that count, they mostly span it, and the search stops.
pub fn find_solution(
    basis: &mut Basis,
    columns: &[u128],
    old: &[u64],
    target: u128,
    full_rank: usize,
) -> Option<u128>
    requires columns { length columns.now < 2 ^ 32 }
    requires old { length columns.now ≤ 64 * length old.now }
    ensures basis { IfSome result (λ set. IsFreeBasis columns.now (cells_of (length columns.now) old.now) basis.new) }
    ensures sum { IfSome result (λ set. subset_sum set basis.new.columns ≡ target) }
    ensures within { IfSome result (λ set. set < 2 ^ length basis.new.columns) }
    ensures none { IfNone result (¬ (IsFreeSum columns.now (cells_of (length columns.now) old.now) (length columns.now) target)) }
{
    basis.clear();
    let mut taken = 0;
    for cell in 0..columns.len() {
        if offer_if_free(basis, columns, old, cell) {
            taken += 1;
            if taken == full_rank {
                if let Some(set) = basis.express(target) {
                    return Some(set);
                }
            }
        }
    }
    basis.express(target)
}
