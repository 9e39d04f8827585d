//! Opening a die: the table tells the homes of the logical blocks, and each reserve block that it does not name is blank.
ghost use Rattle.std.specs.Prelude.{◌≡◌, ◌<◌, ◌≤◌, ◌*◌, ◌+◌, ◌^◌, ℕ, length, true, false, OnOk, OnErr, IfOk, IfErr, Ok, Err, count_by, replicate, slice_index, slice_index_or, nat_le, ◌-◌};
ghost use Rattle.cell_die.specs.DieState.{page_bytes, page_of};
ghost use Rattle.spare_die.specs.Table.{is_named};
ghost use Rattle.spare_die.specs.Book.{HasRows, IsBookOf, IsOrderly};
ghost use Rattle.cell_die.specs.Counts.{Rose};
ghost use Rattle.spare_die.specs.Entering.{IsBlankBlock};
ghost use Rattle.spare_die.specs.Opening.{FitsShape, IsSoundTable, OpenCause, OnlyReads, NotesPage, IsWrongEntry, Told, SparesUpTo, IsFresh, IsFreshTally, StartsAt};

use crate::book::Book;
use crate::entry::{Entry, read};
use crate::error::OpenError;
use crate::tally::Tally;
use cell_bits::is_blank;
use cell_die::{DieFault, Shape, WornDie};
use std::alloc::{AllocError, Global};

/// What the table tells so far.
#[derive(Drop)]
pub struct Opening {
    pub book: Book,
    /// The lowest blank table page so far, or a number past the table.
    pub blank: u32,
}

/// Whether a die of this shape has room for so many logical blocks.
pub fn fits_shape(shape: Shape, logical: u32) -> bool
    ensures fits { result ≡ true → FitsShape shape logical }
    ensures fits_not { result ≡ false → FitsShape shape logical → ⊥ }
{
    logical >= 2
        && logical < shape.blocks
        && shape.blocks <= 1024
        && shape.pages <= 128
        && shape.main_bytes >= 9
}

/// How many of the flags are set.
pub fn count_set(flags: &[bool]) -> u32
    requires { length flags.now < 2 ^ 32 }
    ensures { result ≡ count_by (λ flag. flag) flags.now }
{
    flags.iter().filter(|flag| **flag).count() as u32
}

impl Opening {
    ghost use Rattle.std.specs.Prelude.{not, min, slice_set, if◌then◌else◌};
    ghost use Rattle.cell_die.specs.Cells.{is_blank};
    ghost use Rattle.spare_die.specs.Opening.{IsAdmitted};

    /// Whether the entry of a table page may stand there, by the pages before it.
    fn admits(&self, logical: u32, page: u32, entry: Entry) -> bool
        ensures admitted { result ≡ true → IsAdmitted logical page entry.logical entry.inner self.now }
        ensures refused { result ≡ false → IsAdmitted logical page entry.logical entry.inner self.now → ⊥ }
    {
        entry.logical < logical && page <= self.blank && !self.book.is_taken(entry.inner)
    }

    /// Notes a table page.
    fn note(&mut self, logical: u32, page: u32, row: &[u8]) -> Result<(), OpenError>
        requires long_row { 9 ≤ length row.now }
        requires logical { length self.old.book.homes.items ≡ logical }
        requires page { page < length self.old.book.used.items }
        ensures noted { OnOk result (NotesPage logical page row.now self.old self.new) }
        ensures wrong { OnErr result (IsWrongEntry logical page row.now self.old) }
        ensures table { IfErr result (λ why. why ≡ OpenError.Table) }
    {
        let Some(entry) = read(row) else {
            self.note_plain(page, row);
            return Ok(());
        };
        if !self.admits(logical, page, entry) {
            return Err(OpenError::Table);
        }
        self.book.note(entry, page);
        Ok(())
    }

    /// Notes a table page that is no entry.
    fn note_plain(&mut self, page: u32, row: &[u8])
        requires { page < length self.old.book.used.items }
        ensures used { self.new.book.used.items ≡ slice_set self.old.book.used.items page (not (is_blank row.now)) }
        ensures blank { self.new.blank ≡ (if is_blank row.now then min self.old.blank page else self.old.blank) }
        ensures same_homes { self.new.book.homes.items ≡ self.old.book.homes.items }
        ensures same_taken { self.new.book.taken.items ≡ self.old.book.taken.items }
    {
        let blank = is_blank(row);
        self.book.used[page as usize] = !blank;
        if blank {
            self.blank = self.blank.min(page);
        }
    }
}

/// Reads a table page, and notes it.
fn read_entry<D: WornDie>(
    die: &mut D,
    logical: u32,
    page: u32,
    opening: &mut Opening,
    row: &mut [u8],
) -> Result<(), OpenError>
    requires fits { FitsShape (D.state die.old).shape logical }
    requires inside { page < (D.state die.old).shape.pages }
    requires told { Told (D.state die.old) logical page opening.old }
    requires whole_page { length row.old ≡ page_bytes (D.state die.old).shape }
    ensures told { OnOk result (Told (D.state die.old) logical (page + 1) opening.new) }
    ensures cause { IfErr result (λ why. OpenCause why (D.state die.old) (D.state die.new) logical) }
    ensures only_reads { OnlyReads (D.state die.old) (D.state die.new) }
{
    match die.read(page, row) {
        Ok(()) => opening.note(logical, page, row),
        Err(_) => Err(OpenError::DieFault),
    }
}

/// Reads the table.
fn read_table<D: WornDie>(
    die: &mut D,
    logical: u32,
    opening: &mut Opening,
    row: &mut [u8],
) -> Result<(), OpenError>
    requires fits { FitsShape (D.state die.old).shape logical }
    requires told { Told (D.state die.old) logical 0 opening.old }
    requires whole_page { length row.old ≡ page_bytes (D.state die.old).shape }
    ensures told { OnOk result (Told (D.state die.old) logical (D.state die.old).shape.pages opening.new) }
    ensures cause { IfErr result (λ why. OpenCause why (D.state die.old) (D.state die.new) logical) }
    ensures only_reads { OnlyReads (D.state die.old) (D.state die.new) }
{
    let pages = die.shape().pages;
    for page in 0..pages {
        read_entry(die, logical, page, opening, row)?;
    }
    Ok(())
}

/// Reads a block whose cells are to be blank.
fn read_blank<D: WornDie>(die: &mut D, block: u32, row: &mut [u8]) -> Result<bool, DieFault>
    requires inside { block < (D.state die.old).shape.blocks }
    requires few_blocks { (D.state die.old).shape.blocks ≤ 1024 }
    requires few_pages { (D.state die.old).shape.pages ≤ 128 }
    requires whole_page { length row.old ≡ page_bytes (D.state die.old).shape }
    ensures blank { result ≡ Ok true → IsBlankBlock (D.state die.old) block }
    ensures blank_not { result ≡ Ok false → IsBlankBlock (D.state die.old) block → ⊥ }
    ensures fault { OnErr result (Rose (D.state die.old).read_faults (D.state die.new).read_faults) }
    ensures only_reads { OnlyReads (D.state die.old) (D.state die.new) }
{
    let pages = die.shape().pages;
    for page in block * pages..block * pages + pages {
        die.read(page, row)?;
        if !is_blank(row) {
            return Ok(false);
        }
    }
    Ok(true)
}

/// Reads the reserve blocks that no entry names.
fn read_reserve<D: WornDie>(
    die: &mut D,
    logical: u32,
    book: &Book,
    row: &mut [u8],
) -> Result<(), OpenError>
    requires fits { FitsShape (D.state die.old).shape logical }
    requires book { IsBookOf (D.state die.old) logical book.now }
    requires rows { HasRows (D.state die.old) logical book.now }
    requires whole_page { length row.old ≡ page_bytes (D.state die.old).shape }
    ensures spares { OnOk result (SparesUpTo (D.state die.old) logical (D.state die.old).shape.blocks) }
    ensures cause { IfErr result (λ why. OpenCause why (D.state die.old) (D.state die.new) logical) }
    ensures only_reads { OnlyReads (D.state die.old) (D.state die.new) }
{
    let blocks = die.shape().blocks;
    for block in logical + 1..blocks {
        if !book.taken[block as usize] {
            read_spare(die, logical, block, row)?;
        }
    }
    Ok(())
}

/// Reads a reserve block that no entry names.
fn read_spare<D: WornDie>(
    die: &mut D,
    logical: u32,
    block: u32,
    row: &mut [u8],
) -> Result<(), OpenError>
    requires fits { FitsShape (D.state die.old).shape logical }
    requires past { logical < block }
    requires inside { block < (D.state die.old).shape.blocks }
    requires free { is_named (D.state die.old) block ≡ false }
    requires whole_page { length row.old ≡ page_bytes (D.state die.old).shape }
    ensures spare { OnOk result (IsBlankBlock (D.state die.old) block) }
    ensures cause { IfErr result (λ why. OpenCause why (D.state die.old) (D.state die.new) logical) }
    ensures only_reads { OnlyReads (D.state die.old) (D.state die.new) }
{
    match read_blank(die, block, row) {
        Ok(true) => Ok(()),
        Ok(false) => Err(OpenError::Table),
        Err(_) => Err(OpenError::DieFault),
    }
}

/// What an opened die knows and counts.
#[derive(Drop)]
pub struct Opened {
    pub book: Book,
    pub tally: Tally,
    /// A page to write an entry from.
    pub entry: Vec<u8>,
}

/// Logical block `b` begins as inner block `1 + b`.
fn first_homes(alloc: Global, logical: u32) -> Result<Vec<u32>, AllocError>
    requires { logical < 2 ^ 32 - 1 }
    ensures long { IfOk result (λ homes. length homes.items ≡ logical) }
    ensures homes { IfOk result (λ homes. (block : ℕ) → block < logical → slice_index homes.items block ≡ 1 + block) }
{
    let mut homes = vec![in alloc; 0; logical as usize]?;
    for block in 0..logical {
        homes[block as usize] = block + 1;
    }
    Ok(homes)
}

/// The table and the homes are taken, and the reserve is free.
fn first_taken(alloc: Global, blocks: u32, logical: u32) -> Result<Vec<bool>, AllocError>
    requires { logical < blocks }
    ensures long { IfOk result (λ taken. length taken.items ≡ blocks) }
    ensures taken { IfOk result (λ taken. (block : ℕ) → block < blocks → slice_index_or taken.items block true ≡ nat_le block logical) }
{
    let mut taken = vec![in alloc; false; blocks as usize]?;
    for block in 0..logical + 1 {
        taken[block as usize] = true;
    }
    Ok(taken)
}

/// What a table tells of which no page was read.
fn first_opening(alloc: Global, shape: Shape, logical: u32) -> Result<Opening, AllocError>
    requires { FitsShape shape logical }
    ensures fresh { IfOk result (λ opening. IsFresh shape logical opening) }
{
    Ok(Opening {
        book: Book {
            homes: first_homes(alloc, logical)?,
            taken: first_taken(alloc, shape.blocks, logical)?,
            used: vec![in alloc; true; shape.pages as usize]?,
        },
        blank: shape.pages,
    })
}

/// The counts of a die with this book at its opening.
fn first_tally(erases: Vec<u64>, book: &Book, logical: u32) -> Tally
    requires some { logical < length book.now.taken.items }
    requires few_blocks { length book.now.taken.items ≤ 1024 }
    requires few_pages { length book.now.used.items ≤ 128 }
    ensures erases { result.erases ≡ erases }
    ensures fresh { IsFreshTally book.now logical result }
{
    Tally {
        erases,
        read_faults: 0,
        change_faults: 0,
        bad: 0,
        written: 0,
        named_at_opening: count_set(&book.taken[logical as usize + 1..]),
        pages_at_opening: count_set(&book.used),
        stopped: false,
    }
}

/// Reads a die's table and its reserve, and what it knows and counts then. All memory is taken before the first read.
pub fn read_die<D: WornDie>(alloc: Global, die: &mut D, logical: u32) -> Result<Opened, OpenError>
    ensures fits { OnOk result (FitsShape (D.state die.old).shape logical) }
    ensures sound { OnOk result (IsSoundTable (D.state die.old) logical) }
    ensures orderly { IfOk result (λ opened. IsOrderly (D.state die.new) (D.bad_erases die.new) logical opened.book opened.tally) }
    ensures starts { IfOk result (λ opened. StartsAt (D.state die.new) logical opened.tally) }
    ensures whole_page { IfOk result (λ opened. length opened.entry.items ≡ page_bytes (D.state die.new).shape) }
    ensures cause { IfErr result (λ why. OpenCause why (D.state die.old) (D.state die.new) logical) }
    ensures only_reads { OnlyReads (D.state die.old) (D.state die.new) }
{
    let shape = die.shape();
    if !fits_shape(shape, logical) {
        return Err(OpenError::Shape);
    }
    let mut opening = first_opening(alloc, shape, logical)?;
    let erases = vec![in alloc; 0; logical as usize]?;
    let mut entry = vec![in alloc; 0; shape.main_bytes as usize + shape.spare_bytes as usize]?;
    read_table(die, logical, &mut opening, &mut entry)?;
    read_reserve(die, logical, &opening.book, &mut entry)?;
    let tally = first_tally(erases, &opening.book, logical);
    Ok(Opened {
        book: opening.book,
        tally,
        entry,
    })
}
