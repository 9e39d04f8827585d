//! The die: each call goes to the inner die and answers what that answers, and is counted, whatever the answer.
//!
//! Contracts see of it what they see of the inner die: `state` is the inner die's, and so each clause of `Die` comes from the
//! inner call's. A die of your own, over a chip's bus say, has a `state` of its own, and proves each clause from it.
ghost use Rattle.std.specs.Prelude.{◌≡◌, IfOk, IfErr};
ghost use Rattle.count_die.specs.Covers.{Covers};

use crate::tally::Tally;
use cell_die::{Die, DieFault, PowerDie, Shape, Torn};
use std::alloc::Global;

/// A die that counts its calls. After its making it takes no memory.
#[derive(Drop)]
pub struct CountDie<D: Die> {
    inner: D,
    tally: Tally,
    // A count for each block and page that the inner die has.
    ghost covers: { Covers (D.state inner).shape tally },
}

impl<D: Die> CountDie<D> {
    ghost use Rattle.cell_die.specs.DieState.{page_count};
    ghost use Rattle.count_die.specs.Tallies.{counted_of, IsZero};

    /// A die over this one that has counted nothing; or this one back, where memory was wanting.
    pub fn new(alloc: Global, die: D) -> Result<CountDie<D>, D>
        ensures inner { IfOk result (λ counting. counting.inner ≡ die) }
        ensures zero { IfOk result (λ counting. IsZero (D.state die).shape.blocks (D.state die).shape.pages (counted_of counting.tally)) }
        ensures back { IfErr result (λ back. back ≡ die) }
    {
        let shape = die.shape();
        match Tally::new(alloc, shape.blocks, shape.pages) {
            Ok(tally) => Ok(CountDie { inner: die, tally }),
            Err(_) => Err(die),
        }
    }

    /// What was counted.
    pub fn tally(&self) -> &Tally
        ensures tally { result.now ≡ self.now.tally }
        ensures covers { Covers (D.state self.now.inner).shape result.now }
    {
        &self.tally
    }

    /// The inner die, and what was counted.
    pub fn into_parts(self) -> (D, Tally)
        ensures inner { result.0 ≡ self.inner }
        ensures tally { result.1 ≡ self.tally }
    {
        let CountDie { inner, tally } = self;
        (inner, tally)
    }
}

impl<D: Die> Die for CountDie<D> {
    ghost use Rattle.std.specs.Prelude.{◌≡◌, ◌⊎◌, ◌<◌, ◌*◌, ◌/◌, length, OnOk, OnErr};
    ghost use Rattle.cell_die.specs.Cells.{IsAbove, charge};
    ghost use Rattle.cell_die.specs.DieState.{page_count, page_bytes, page_of, block_of};
    ghost use Rattle.cell_die.specs.Changes.{SameCells, OnlyPage, OnlyBlock, IsBetween, IsErased, ErasedInPart};
    ghost use Rattle.cell_die.specs.Calls.{Kept, Passed, ChangeFailed, ReadFailed, HeldWithoutPower};
    ghost use Rattle.count_die.specs.Counted.{with_read, with_program, with_charge, with_erase, BlockBeginsAnew};
    ghost use Rattle.count_die.specs.Tallies.{counted_of};

    ghost state = { λ die. D.state die.inner };

    ghost shaped = { λ die. D.shaped die.inner };

    fn shape(&self) -> Shape {
        self.inner.shape()
    }

    fn read(&mut self, page: u32, into: &mut [u8]) -> Result<(), DieFault>
        requires page { page < page_count (D.state self.old.inner).shape }
        requires whole_page { length into.old ≡ page_bytes (D.state self.old.inner).shape }
        ensures read { OnOk result (into.new ≡ page_of (D.state self.old.inner) page) }
        ensures same_cells { SameCells (D.state self.old.inner) (D.state self.new.inner) }
        ensures kept { Kept (D.state self.old.inner) (D.state self.new.inner) }
        ensures passed { OnOk result (Passed 0 1 (D.state self.old.inner) (D.state self.new.inner)) }
        ensures failed { OnErr result (ReadFailed 0 1 (D.state self.old.inner) (D.state self.new.inner)) }
        ensures unpowered { HeldWithoutPower (D.state self.old.inner) (D.state self.new.inner) }
        // One read more of the page's block, and nothing else.
        ensures counted { counted_of self.new.tally ≡ with_read (block_of (D.state self.old.inner) page) (counted_of self.old.tally) }
    {
        self.tally.count_read(page);
        self.inner.read(page, into)
    }

    fn program(&mut self, page: u32, target: &[u8]) -> Result<(), DieFault>
        requires page { page < page_count (D.state self.old.inner).shape }
        requires above { IsAbove target.now (page_of (D.state self.old.inner) page) }
        ensures programmed { OnOk result (page_of (D.state self.new.inner) page ≡ target.now) }
        ensures in_part { OnErr result (IsBetween (page_of (D.state self.old.inner) page) (page_of (D.state self.new.inner) page) target.now) }
        ensures only_page { OnlyPage page (D.state self.old.inner) (D.state self.new.inner) }
        ensures kept { Kept (D.state self.old.inner) (D.state self.new.inner) }
        ensures passed { OnOk result (Passed 1 0 (D.state self.old.inner) (D.state self.new.inner)) }
        ensures failed { OnErr result (ChangeFailed 1 0 (D.state self.old.inner) (D.state self.new.inner)) }
        ensures unpowered { HeldWithoutPower (D.state self.old.inner) (D.state self.new.inner) }
        // One program more of the page and of its block, and nothing else.
        ensures counted { counted_of self.new.tally ≡ with_program (block_of (D.state self.old.inner) page) page (counted_of self.old.tally) }
    {
        self.tally.count_program(page);
        self.inner.program(page, target)
    }

    fn charge(&mut self, page: u32, cell: u32) -> Result<(), DieFault>
        requires page { page < page_count (D.state self.old.inner).shape }
        requires cell { cell < 8 * page_bytes (D.state self.old.inner).shape }
        ensures charged { OnOk result (page_of (D.state self.new.inner) page ≡ charge (page_of (D.state self.old.inner) page) cell) }
        ensures charged_or_not { OnErr result ((page_of (D.state self.new.inner) page ≡ page_of (D.state self.old.inner) page)
            ⊎ (page_of (D.state self.new.inner) page ≡ charge (page_of (D.state self.old.inner) page) cell)) }
        ensures only_page { OnlyPage page (D.state self.old.inner) (D.state self.new.inner) }
        ensures kept { Kept (D.state self.old.inner) (D.state self.new.inner) }
        ensures passed { OnOk result (Passed 1 0 (D.state self.old.inner) (D.state self.new.inner)) }
        ensures failed { OnErr result (ChangeFailed 1 0 (D.state self.old.inner) (D.state self.new.inner)) }
        ensures unpowered { HeldWithoutPower (D.state self.old.inner) (D.state self.new.inner) }
        // One charge more of the page and of its block, and nothing else.
        ensures counted { counted_of self.new.tally ≡ with_charge (block_of (D.state self.old.inner) page) page (counted_of self.old.tally) }
    {
        self.tally.count_charge(page);
        self.inner.charge(page, cell)
    }

    fn erase(&mut self, block: u32) -> Result<(), DieFault>
        requires block { block < (D.state self.old.inner).shape.blocks }
        ensures erased { OnOk result (IsErased block (D.state self.old.inner) (D.state self.new.inner)) }
        ensures in_part { OnErr result (SameCells (D.state self.old.inner) (D.state self.new.inner) ⊎ ErasedInPart block (D.state self.old.inner) (D.state self.new.inner)) }
        ensures only_block { OnlyBlock block (D.state self.old.inner) (D.state self.new.inner) }
        ensures kept { Kept (D.state self.old.inner) (D.state self.new.inner) }
        ensures passed { OnOk result (Passed 1 0 (D.state self.old.inner) (D.state self.new.inner)) }
        ensures failed { OnErr result (ChangeFailed 1 0 (D.state self.old.inner) (D.state self.new.inner)) }
        ensures unpowered { HeldWithoutPower (D.state self.old.inner) (D.state self.new.inner) }
        // One erase more of the block, and where it answers Ok the counts of its pages begin anew.
        ensures begins_anew { OnOk result (BlockBeginsAnew (D.state self.old.inner).shape.pages block
            (with_erase block (counted_of self.old.tally)) (counted_of self.new.tally)) }
        ensures counted { OnErr result (counted_of self.new.tally ≡ with_erase block (counted_of self.old.tally)) }
    {
        self.tally.count_erase(block);
        match self.inner.erase(block) {
            Ok(()) => {
                self.tally.begin_block_anew(block);
                Ok(())
            }
            Err(fault) => Err(fault),
        }
    }
}

impl<D: PowerDie> PowerDie for CountDie<D> {
    ghost use Rattle.std.specs.Prelude.{◌≤◌};
    ghost use Rattle.cell_die.specs.Power.{told, with_cut, with_read_failure, with_power};

    fn arm_cut(&mut self, n: u32, torn: Torn)
        requires { 1 ≤ n }
        ensures armed { D.state self.new.inner ≡ told (with_cut n torn) (D.state self.old.inner) }
        ensures tally { self.new.tally ≡ self.old.tally }
    {
        self.inner.arm_cut(n, torn);
    }

    fn fail_read(&mut self, n: u32)
        requires { 1 ≤ n }
        ensures armed { D.state self.new.inner ≡ told (with_read_failure n) (D.state self.old.inner) }
        ensures tally { self.new.tally ≡ self.old.tally }
    {
        self.inner.fail_read(n);
    }

    fn power_on(&mut self)
        ensures powered { D.state self.new.inner ≡ told with_power (D.state self.old.inner) }
        ensures tally { self.new.tally ≡ self.old.tally }
    {
        self.inner.power_on();
    }

    fn powered(&self) -> bool {
        self.inner.powered()
    }

    fn erased(&self) -> u64 {
        self.inner.erased()
    }
}
