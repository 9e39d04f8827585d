//! Tables of columns, and the code of a table. The table is changed once, when the code is made, and no
//! call takes memory.

ghost use Rattle.std.specs.Prelude.{◌≡◌, ℕ, ◌<◌, ◌≤◌, ◌^◌, ◌↔◌, List, Bool, length, slice_index, All, IfOk, IsTrue};
ghost use Rattle.wom_code.specs.Cells.{Carries, NoneCarries};
ghost use Rattle.wom_code.specs.Packed.{IsRow, cells_of, words_for};
ghost use Rattle.coset_code.specs.Code.{coset_message, IsShape};
ghost use Rattle.coset_code.specs.Solution.{is_basis_solution};
ghost use Rattle.coset_code.specs.Refusal.{IsMade};
ghost use Rattle.coset_code.specs.Words.{columns_from};

use crate::coordinates::make_system;
use crate::message::{sum_of, write_bits, write_number};
use crate::solve::syndrome_of;
use crate::system::{Room, System};
use crate::turned::{go, make_room};
use rand_core::SeedableRng;
use rand_core::utils::NextWord;
use rand_xoshiro::SplitMix64;
use std::alloc::{AllocError, Global};
use std::marker::Model;
use wom_code::{Carry, PackedCode, WomCode, pack, unpack};

/// Memory ran out.
pub type OutOfMemory = AllocError;

/// The columns of a code, one for each cell.
#[derive(Drop)]
pub struct Columns {
    columns: Vec<u128>,
}

impl Model for Columns {
    ghost use Rattle.std.specs.Prelude.{List, ℕ, ◌<◌, ◌^◌, length};

    ghost Value = { List ℕ };

    ghost view = { λ t. t.columns.items };

    ghost invariant = { λ t. length t.columns.items < 2 ^ 32 };
}

impl Columns {
    /// Makes `count` columns of the SplitMix64 words of the seed (Steele, Lea and Flood, 2014): column
    /// `j` has word `2 j` as its low and word `2 j + 1` as its high half.
    ///
    /// # Errors
    ///
    /// `OutOfMemory` where memory runs out.
    pub fn new(alloc: Global, seed: u64, count: u32) -> Result<Columns, OutOfMemory>
        ensures { IfOk result (λ table. table ≡ columns_from seed count) }
    {
        let mut words = SplitMix64::seed_from_u64(seed);
        let mut columns = Vec::new(alloc);
        for _column in 0..count {
            let low = words.next_word();
            let high = words.next_word();
            columns.push((high as u128) << 64 | low as u128)?;
        }
        Ok(Columns { columns })
    }

    /// Copies a table; bit `i` of a column is message bit `i`.
    ///
    /// # Errors
    ///
    /// `OutOfMemory` where memory runs out.
    pub fn of(alloc: Global, columns: &[u128]) -> Result<Columns, OutOfMemory>
        requires { length columns.now < 2 ^ 32 }
        ensures { IfOk result (λ table. table ≡ columns.now) }
    {
        let columns = columns.to_vec(alloc)?;
        Ok(Columns { columns })
    }
}

/// Why there is no such code.
#[derive(Clone, Copy, Debug, PartialEq, Eq)]
pub enum CosetRefusal {
    /// Memory ran out.
    OutOfMemory,
    /// `K` is 0 or above 128, the table has not `N` columns, or a column has a bit at or above `K`.
    Shape,
}

impl From<AllocError> for CosetRefusal {
    ghost use Rattle.std.specs.Prelude.{◌≡◌};
    ghost use Rattle.coset_code.specs.declared.coset.CosetRefusal.TheVariants.{OutOfMemory};

    ghost from_gives = { λ _ refusal. refusal ≡ OutOfMemory };

    fn from(_: AllocError) -> Self {
        CosetRefusal::OutOfMemory
    }
}

/// Whether a vector has no bit at or above the width.
fn is_narrow(vector: u128, width: usize) -> bool
    requires { width ≤ 128 }
    ensures { IsTrue result ↔ (vector < 2 ^ width) }
{
    width == 128 || vector >> width == 0
}

/// Whether the columns make a code of so many bits in so many cells.
fn has_shape(columns: &[u128], bits: usize, cells: usize) -> bool
    ensures { IsTrue result ↔ IsShape bits cells columns.now }
{
    bits >= 1
        && bits <= 128
        && columns.len() == cells
        && columns.iter().all(|column| is_narrow(*column, bits))
}

/// A code whose message is the sum over GF(2) of the columns of the charged cells (Cohen, Godlewski and
/// Merkx, 1986). `over` charges the basis solution: uncharged cells none of whose columns is a sum of
/// columns of uncharged cells with lower numbers.
#[derive(Drop)]
pub struct Coset<const K: usize, const N: usize> {
    system: System,
    room: Room,
    // rows for the calls on truth values
    old: Vec<u64>,
    message: Vec<u64>,
    out: Vec<u64>,
}

impl<const K: usize, const N: usize> Model for Coset<K, N> {
    ghost use Rattle.std.specs.Prelude.{List, ℕ};
    ghost use Rattle.coset_code.specs.Code.{IsCoset};

    ghost Value = { List ℕ };

    ghost view = { λ c. c.system.columns.items };

    ghost invariant = { λ c. IsCoset K N c.system c.room c.old.items c.message.items c.out.items };
}

impl<const K: usize, const N: usize> Coset<K, N> {
    /// The code of these columns. The shape is tested first.
    ///
    /// # Errors
    ///
    /// `Shape` exactly where the columns make no such code, and `OutOfMemory` where memory runs out.
    pub fn new(alloc: Global, columns: Columns) -> Result<Coset<K, N>, CosetRefusal>
        ensures { IsMade K N columns result }
    {
        if !has_shape(&columns.columns, K, N) {
            return Err(CosetRefusal::Shape);
        }
        let Columns { columns } = columns;
        let system = make_system(alloc, columns)?;
        Ok(Coset {
            room: make_room(alloc, &system)?,
            system,
            old: vec![in alloc; 0; N.div_ceil(64)]?,
            message: vec![in alloc; 0; K.div_ceil(64)]?,
            out: vec![in alloc; 0; N.div_ceil(64)]?,
        })
    }
}

impl<const K: usize, const N: usize> WomCode<K, N> for Coset<K, N> {
    ghost decoding = { coset_message K };

    ghost gives = { λ code old message new. is_basis_solution code old new };

    fn decode(&self, cells: &[bool], msg: &mut [bool]) {
        write_bits(sum_of(&self.system.columns, cells), msg);
    }

    fn over(&mut self, old: &[bool], msg: &[bool], out: &mut [bool]) -> Carry {
        pack(old, &mut self.old);
        pack(msg, &mut self.message);
        let carry = go(
            &self.system,
            &mut self.room,
            K,
            &self.old,
            &self.message,
            &mut self.out,
        );
        if carry != Carry::Carried {
            return Carry::Declined;
        }
        unpack(&self.out, out);
        Carry::Carried
    }
}

impl<const K: usize, const N: usize> PackedCode<K, N> for Coset<K, N> {
    fn decode_words(&self, cells: &[u64], msg: &mut [u64]) {
        write_number(syndrome_of(&self.system.columns, cells), msg);
    }

    fn over_words(&mut self, old: &[u64], msg: &[u64], out: &mut [u64]) -> Carry {
        go(&self.system, &mut self.room, K, old, msg, out)
    }
}
