//! What the die knows of its table: the home of each logical block, which inner blocks are no longer free, and which table
//! pages have a charged cell.
ghost use Rattle.std.specs.Prelude.{◌≡◌, ◌<◌, ◌⊎◌, ℕ, ◌^◌, length, true, false, slice_set, slice_index_or, IsNone, IfSome};
ghost use Rattle.spare_die.specs.Entering.{IsLowest};

use crate::entry::Entry;

/// The book of a die's table.
#[derive(Drop)]
pub struct Book {
    /// The inner block of each logical block.
    pub homes: Vec<u32>,
    /// For each inner block whether it is no free reserve block: it is before the reserve, or an entry names it.
    pub taken: Vec<bool>,
    /// For each table page whether it has a charged cell.
    pub used: Vec<bool>,
}

/// Where the next entry goes, and the reserve block that it names.
#[derive(Clone, Copy)]
pub struct Place {
    pub inner: u32,
    pub page: u32,
}

/// The lowest number that is not taken.
fn lowest(taken: &[bool]) -> Option<u32>
    requires { length taken.now < 2 ^ 32 }
    ensures found { IfSome result (λ n. IsLowest taken.now n) }
    ensures none { IsNone result → (k : ℕ) → k < length taken.now → slice_index_or taken.now k true ≡ true }
{
    for (n, taken) in taken.iter().enumerate() {
        if !*taken {
            return Some(n as u32);
        }
    }
    None
}

impl Book {
    /// Whether an inner block is no free reserve block.
    pub fn is_taken(&self, inner: u32) -> bool
        ensures { result ≡ slice_index_or self.now.taken.items inner true }
    {
        self.taken.get(inner as usize).copied().unwrap_or(true)
    }

    /// The lowest free reserve block and the lowest blank table page, where both are left.
    pub fn next_place(&self) -> Option<Place>
        requires few_blocks { length self.now.taken.items < 2 ^ 32 }
        requires few_pages { length self.now.used.items < 2 ^ 32 }
        ensures inner { IfSome result (λ place. IsLowest self.now.taken.items place.inner) }
        ensures page { IfSome result (λ place. IsLowest self.now.used.items place.page) }
        ensures none { IsNone result → (block page : ℕ) → block < length self.now.taken.items → page < length self.now.used.items
            → slice_index_or self.now.taken.items block true ≡ false → slice_index_or self.now.used.items page true ≡ true }
    {
        let inner = lowest(&self.taken)?;
        let page = lowest(&self.used)?;
        Some(Place { inner, page })
    }

    /// Notes an entry that was written on a table page.
    pub fn note(&mut self, entry: Entry, page: u32)
        requires logical { entry.logical < length self.old.homes.items }
        requires inner { entry.inner < length self.old.taken.items }
        requires page { page < length self.old.used.items }
        ensures homes { self.new.homes.items ≡ slice_set self.old.homes.items entry.logical entry.inner }
        ensures taken { self.new.taken.items ≡ slice_set self.old.taken.items entry.inner true }
        ensures used { self.new.used.items ≡ slice_set self.old.used.items page true }
    {
        self.homes[entry.logical as usize] = entry.inner;
        self.taken[entry.inner as usize] = true;
        self.used[page as usize] = true;
    }
}
