//! Elimination over GF(2) on vectors of at most 128 bits. Each vector taken leaves a row at the place of
//! the row's highest bit, and a vector is a sum of those taken exactly where the rows clear it.
#![tactic(auto)]

ghost use Rattle.std.specs.Prelude.{◌≡◌, ◌≢◌, ℕ, ◌+◌, ◌^◌, ◌<◌, ◌≤◌, ◌↔◌, [], length, slice_index, bit_xor, IfOk, IfSome, IsNone};
ghost use Rattle.gf2_solve.specs.Family.{family};
ghost use Rattle.gf2_solve.specs.Offer.{IsOffered};
ghost use Rattle.gf2_solve.specs.Span.{subset_sum, IsSpanned};
ghost use Rattle.gf2_solve.specs.Echelon.{IsEchelon, IsReduction};

use std::alloc::{AllocError, Global};
use std::marker::Model;

/// Memory ran out.
pub type OutOfMemory = AllocError;

/// How many bits a vector has, and so how many vectors a basis may have.
const DIMENSION: usize = 128;

/// What an offer of a vector answers.
#[derive(Clone, Copy, Debug, PartialEq, Eq)]
pub enum Offered {
    /// It is no sum of the vectors taken before, and is now taken, at this place.
    Taken(u32),
    /// It is a sum of vectors taken before.
    Spanned,
}

/// What is left of a vector once rows are added to it, and the set of columns whose sum was added.
#[derive(Clone, Copy)]
struct Reduced {
    rest: u128,
    set: u128,
}

/// The place of the highest bit.
fn top_bit(vector: u128) -> usize
    requires { 0 < vector }
    ensures in_range { result < 128 }
    ensures set { 2 ^ result ≤ vector }
    ensures highest { vector < 2 ^ (result + 1) }
{
    127 - vector.leading_zeros() as usize
}

/// Clears the bits of a vector from the top down, as far as there are rows for them.
fn reduce(rows: &[u128], sets: &[u128], vector: u128) -> Reduced
    requires rows { length rows.now ≡ 128 }
    requires sets { length sets.now ≡ 128 }
    requires echelon { IsEchelon rows.now }
    ensures { IsReduction rows.now sets.now vector result.set result.rest }
{
    let mut rest = vector;
    let mut set = 0;
    while rest != 0 {
        let top = top_bit(rest);
        let row = rows[top];
        if row == 0 {
            break;
        }
        rest ^= row;
        set ^= sets[top];
    }
    Reduced { rest, set }
}

/// Vectors that were offered and taken: none is a sum of others. It has room for 128, and no more are
/// ever taken.
#[derive(Drop)]
pub struct Basis {
    rows: Vec<u128>,
    sets: Vec<u128>,
    columns: Vec<u128>,
    tags: Vec<u32>,
    taken: u32,
}

impl Model for Basis {
    ghost use Rattle.std.specs.Prelude.{take};
    ghost use Rattle.gf2_solve.specs.Family.{Family, family};
    ghost use Rattle.gf2_solve.specs.Echelon.{IsStored};

    ghost Value = { Family };

    ghost view = { λ b. family (take b.taken b.columns.items) (take b.taken b.tags.items) };

    ghost invariant = { λ b. IsStored b.rows.items b.sets.items b.columns.items b.tags.items b.taken };
}

impl Basis {
    /// A basis of no vector, with room for 128.
    ///
    /// # Errors
    ///
    /// `OutOfMemory` where memory runs out.
    pub fn new(alloc: Global) -> Result<Basis, OutOfMemory>
        ensures { IfOk result (λ basis. basis ≡ family [] []) }
    {
        Ok(Basis {
            rows: vec![in alloc; 0; DIMENSION]?,
            sets: vec![in alloc; 0; DIMENSION]?,
            columns: vec![in alloc; 0; DIMENSION]?,
            tags: vec![in alloc; 0; DIMENSION]?,
            taken: 0,
        })
    }

    /// Lets every vector go.
    pub fn clear(&mut self)
        ensures { self.new ≡ family [] [] }
    {
        self.rows.fill(0);
        self.sets.fill(0);
        self.taken = 0;
    }

    /// Takes the vector, unless it is a sum of vectors that were taken; zero is the sum of none.
    pub fn offer(&mut self, column: u128, tag: u32) -> Offered
        ensures { IsOffered result column tag self.old self.new }
    {
        let reduced = reduce(&self.rows, &self.sets, column);
        if reduced.rest == 0 {
            return Offered::Spanned;
        }
        let top = top_bit(reduced.rest);
        let place = self.taken;
        self.rows[top] = reduced.rest;
        self.sets[top] = reduced.set ^ (1 << place);
        self.columns[place as usize] = column;
        self.tags[place as usize] = tag;
        self.taken = place + 1;
        Offered::Taken(place)
    }

    /// The tag that the vector at a place was offered with.
    pub fn tag_of(&self, place: u32) -> u32
        requires { place < length self.now.tags }
        ensures { result ≡ slice_index self.now.tags place }
    {
        self.tags[place as usize]
    }

    /// Places of vectors whose sum is the target, as bits of a set; None where it is no sum of them.
    pub fn express(&self, target: u128) -> Option<u128>
        ensures found { IfSome result (λ set. subset_sum set self.now.columns ≡ target) }
        ensures within { IfSome result (λ set. set < 2 ^ length self.now.columns) }
        ensures none { IsNone result ↔ ¬ (IsSpanned self.now.columns target) }
    {
        let reduced = reduce(&self.rows, &self.sets, target);
        if reduced.rest == 0 {
            Some(reduced.set)
        } else {
            None
        }
    }
}

#[cfg(test)]
mod tests;
