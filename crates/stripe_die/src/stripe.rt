//! Two dies of one shape, block by block in turn. Each call is one call of one of them, and leaves the other as it was.
ghost use Rattle.std.specs.Prelude.{◌≡◌, ◌≢◌, ◌≤◌, ◌<◌, ◌⊎◌, ◌↔◌, IfOk, IfErr, IsErr};

use crate::half::{Half, block_place, page_place};
use cell_die::{Die, DieFault, Shape};

/// Two dies of one shape as one: block `k` is block `k / 2` of the first die where `k` is even, and of the second where `k`
/// is odd. It tells its power and its armed failures where both dies tell that they have power and nothing armed.
#[derive(Drop)]
pub struct StripeDie<A: Die, B: Die> {
    a: A,
    b: B,
    ghost same_shape: { (B.state b).shape ≡ (A.state a).shape },
    ghost few: { (A.state a).shape.blocks ≤ 512 },
}

/// The two dies, given back: their shapes differ or have more than 512 blocks.
#[derive(Drop)]
pub struct StripeRefused<A, B> {
    pub a: A,
    pub b: B,
}

/// Two dies as one. Refused where the shapes differ or have more than 512 blocks.
pub fn new<A: Die, B: Die>(a: A, b: B) -> Result<StripeDie<A, B>, StripeRefused<A, B>>
    ensures first { IfOk result (λ pair. pair.a ≡ a) }
    ensures second { IfOk result (λ pair. pair.b ≡ b) }
    ensures refused { IsErr result ↔ (((A.state a).shape ≢ (B.state b).shape) ⊎ (512 < (A.state a).shape.blocks)) }
    ensures first_back { IfErr result (λ dies. dies.a ≡ a) }
    ensures second_back { IfErr result (λ dies. dies.b ≡ b) }
{
    let shape = a.shape();
    if shape != b.shape() || shape.blocks > 512 {
        return Err(StripeRefused { a, b });
    }
    Ok(StripeDie { a, b })
}

impl<A: Die, B: Die> StripeDie<A, B> {
    ghost use Rattle.stripe_die.specs.Places.{page_place};

    /// The two dies.
    pub fn parts(self) -> (A, B)
        ensures first { result.0 ≡ self.a }
        ensures second { result.1 ≡ self.b }
    {
        let StripeDie { a, b } = self;
        (a, b)
    }

    /// Where a page stands.
    fn place(&self, page: u32) -> Half
        ensures { result ≡ page_place (A.state self.now.a).shape.pages page }
    {
        page_place(self.a.shape().pages, page)
    }
}

impl<A: Die, B: Die> Die for StripeDie<A, B> {
    ghost use Rattle.std.specs.Prelude.{◌≡◌, ◌⊎◌, ◌<◌, ◌*◌, length, OnOk, OnErr};
    ghost use Rattle.cell_die.specs.Cells.{IsAbove, charge};
    ghost use Rattle.cell_die.specs.DieState.{page_count, page_bytes, page_of};
    ghost use Rattle.cell_die.specs.Changes.{SameCells, OnlyPage, OnlyBlock, IsBetween, IsErased, ErasedInPart};
    ghost use Rattle.cell_die.specs.Calls.{Kept, Passed, ChangeFailed, ReadFailed, HeldWithoutPower};
    ghost use Rattle.stripe_die.specs.Places.{page_place, block_place};
    ghost use Rattle.stripe_die.specs.Pair.{pair_state, OnOne};
    ghost use Rattle.stripe_die.specs.PairLaws.{pair_shaped};

    ghost state = { λ pair. pair_state (A.state pair.a) (B.state pair.b) };

    ghost shaped = { λ pair. pair_shaped (A.state pair.a) (B.state pair.b) pair.same_shape (A.shaped pair.a) (B.shaped pair.b) };

    fn shape(&self) -> Shape {
        let shape = self.a.shape();
        Shape {
            blocks: 2 * shape.blocks,
            ..shape
        }
    }

    fn read(&mut self, page: u32, into: &mut [u8]) -> Result<(), DieFault>
        requires page { page < page_count (pair_state (A.state self.old.a) (B.state self.old.b)).shape }
        requires whole_page { length into.old ≡ page_bytes (pair_state (A.state self.old.a) (B.state self.old.b)).shape }
        ensures read { OnOk result (into.new ≡ page_of (pair_state (A.state self.old.a) (B.state self.old.b)) page) }
        ensures same_cells { SameCells
            (pair_state (A.state self.old.a) (B.state self.old.b))
            (pair_state (A.state self.new.a) (B.state self.new.b)) }
        ensures kept { Kept
            (pair_state (A.state self.old.a) (B.state self.old.b))
            (pair_state (A.state self.new.a) (B.state self.new.b)) }
        ensures passed { OnOk result (Passed 0 1
            (pair_state (A.state self.old.a) (B.state self.old.b))
            (pair_state (A.state self.new.a) (B.state self.new.b))) }
        ensures failed { OnErr result (ReadFailed 0 1
            (pair_state (A.state self.old.a) (B.state self.old.b))
            (pair_state (A.state self.new.a) (B.state self.new.b))) }
        ensures unpowered { HeldWithoutPower
            (pair_state (A.state self.old.a) (B.state self.old.b))
            (pair_state (A.state self.new.a) (B.state self.new.b)) }
        // The call goes to the one die in which this stands, and leaves the other as it was.
        ensures one_passed { OnOk result (OnOne (page_place (A.state self.old.a).shape.pages page) (Passed 0 1)
            (A.state self.old.a) (B.state self.old.b) (A.state self.new.a) (B.state self.new.b)) }
        ensures one_failed { OnErr result (OnOne (page_place (A.state self.old.a).shape.pages page) (ReadFailed 0 1)
            (A.state self.old.a) (B.state self.old.b) (A.state self.new.a) (B.state self.new.b)) }
    {
        match self.place(page) {
            Half::First(page) => self.a.read(page, into),
            Half::Second(page) => self.b.read(page, into),
        }
    }

    fn program(&mut self, page: u32, target: &[u8]) -> Result<(), DieFault>
        requires page { page < page_count (pair_state (A.state self.old.a) (B.state self.old.b)).shape }
        requires above { IsAbove target.now (page_of (pair_state (A.state self.old.a) (B.state self.old.b)) page) }
        ensures programmed { OnOk result (page_of (pair_state (A.state self.new.a) (B.state self.new.b)) page ≡ target.now) }
        ensures in_part { OnErr result (IsBetween (page_of (pair_state (A.state self.old.a) (B.state self.old.b)) page)
            (page_of (pair_state (A.state self.new.a) (B.state self.new.b)) page) target.now) }
        ensures only_page { OnlyPage page
            (pair_state (A.state self.old.a) (B.state self.old.b))
            (pair_state (A.state self.new.a) (B.state self.new.b)) }
        ensures kept { Kept
            (pair_state (A.state self.old.a) (B.state self.old.b))
            (pair_state (A.state self.new.a) (B.state self.new.b)) }
        ensures passed { OnOk result (Passed 1 0
            (pair_state (A.state self.old.a) (B.state self.old.b))
            (pair_state (A.state self.new.a) (B.state self.new.b))) }
        ensures failed { OnErr result (ChangeFailed 1 0
            (pair_state (A.state self.old.a) (B.state self.old.b))
            (pair_state (A.state self.new.a) (B.state self.new.b))) }
        ensures unpowered { HeldWithoutPower
            (pair_state (A.state self.old.a) (B.state self.old.b))
            (pair_state (A.state self.new.a) (B.state self.new.b)) }
        // The call goes to the one die in which this stands, and leaves the other as it was.
        ensures one_passed { OnOk result (OnOne (page_place (A.state self.old.a).shape.pages page) (Passed 1 0)
            (A.state self.old.a) (B.state self.old.b) (A.state self.new.a) (B.state self.new.b)) }
        ensures one_failed { OnErr result (OnOne (page_place (A.state self.old.a).shape.pages page) (ChangeFailed 1 0)
            (A.state self.old.a) (B.state self.old.b) (A.state self.new.a) (B.state self.new.b)) }
    {
        match self.place(page) {
            Half::First(page) => self.a.program(page, target),
            Half::Second(page) => self.b.program(page, target),
        }
    }

    fn charge(&mut self, page: u32, cell: u32) -> Result<(), DieFault>
        requires page { page < page_count (pair_state (A.state self.old.a) (B.state self.old.b)).shape }
        requires cell { cell < 8 * page_bytes (pair_state (A.state self.old.a) (B.state self.old.b)).shape }
        ensures charged { OnOk result (page_of (pair_state (A.state self.new.a) (B.state self.new.b)) page ≡ charge (page_of (pair_state (A.state self.old.a) (B.state self.old.b)) page) cell) }
        ensures charged_or_not { OnErr result ((page_of (pair_state (A.state self.new.a) (B.state self.new.b)) page ≡ page_of (pair_state (A.state self.old.a) (B.state self.old.b)) page)
            ⊎ (page_of (pair_state (A.state self.new.a) (B.state self.new.b)) page ≡ charge (page_of (pair_state (A.state self.old.a) (B.state self.old.b)) page) cell)) }
        ensures only_page { OnlyPage page
            (pair_state (A.state self.old.a) (B.state self.old.b))
            (pair_state (A.state self.new.a) (B.state self.new.b)) }
        ensures kept { Kept
            (pair_state (A.state self.old.a) (B.state self.old.b))
            (pair_state (A.state self.new.a) (B.state self.new.b)) }
        ensures passed { OnOk result (Passed 1 0
            (pair_state (A.state self.old.a) (B.state self.old.b))
            (pair_state (A.state self.new.a) (B.state self.new.b))) }
        ensures failed { OnErr result (ChangeFailed 1 0
            (pair_state (A.state self.old.a) (B.state self.old.b))
            (pair_state (A.state self.new.a) (B.state self.new.b))) }
        ensures unpowered { HeldWithoutPower
            (pair_state (A.state self.old.a) (B.state self.old.b))
            (pair_state (A.state self.new.a) (B.state self.new.b)) }
        // The call goes to the one die in which this stands, and leaves the other as it was.
        ensures one_passed { OnOk result (OnOne (page_place (A.state self.old.a).shape.pages page) (Passed 1 0)
            (A.state self.old.a) (B.state self.old.b) (A.state self.new.a) (B.state self.new.b)) }
        ensures one_failed { OnErr result (OnOne (page_place (A.state self.old.a).shape.pages page) (ChangeFailed 1 0)
            (A.state self.old.a) (B.state self.old.b) (A.state self.new.a) (B.state self.new.b)) }
    {
        match self.place(page) {
            Half::First(page) => self.a.charge(page, cell),
            Half::Second(page) => self.b.charge(page, cell),
        }
    }

    fn erase(&mut self, block: u32) -> Result<(), DieFault>
        requires block { block < (pair_state (A.state self.old.a) (B.state self.old.b)).shape.blocks }
        ensures erased { OnOk result (IsErased block
            (pair_state (A.state self.old.a) (B.state self.old.b))
            (pair_state (A.state self.new.a) (B.state self.new.b))) }
        ensures in_part { OnErr result (SameCells
            (pair_state (A.state self.old.a) (B.state self.old.b))
            (pair_state (A.state self.new.a) (B.state self.new.b))
            ⊎ ErasedInPart block
            (pair_state (A.state self.old.a) (B.state self.old.b))
            (pair_state (A.state self.new.a) (B.state self.new.b))) }
        ensures only_block { OnlyBlock block
            (pair_state (A.state self.old.a) (B.state self.old.b))
            (pair_state (A.state self.new.a) (B.state self.new.b)) }
        ensures kept { Kept
            (pair_state (A.state self.old.a) (B.state self.old.b))
            (pair_state (A.state self.new.a) (B.state self.new.b)) }
        ensures passed { OnOk result (Passed 1 0
            (pair_state (A.state self.old.a) (B.state self.old.b))
            (pair_state (A.state self.new.a) (B.state self.new.b))) }
        ensures failed { OnErr result (ChangeFailed 1 0
            (pair_state (A.state self.old.a) (B.state self.old.b))
            (pair_state (A.state self.new.a) (B.state self.new.b))) }
        ensures unpowered { HeldWithoutPower
            (pair_state (A.state self.old.a) (B.state self.old.b))
            (pair_state (A.state self.new.a) (B.state self.new.b)) }
        // The call goes to the one die in which this stands, and leaves the other as it was.
        ensures one_passed { OnOk result (OnOne (block_place block) (Passed 1 0)
            (A.state self.old.a) (B.state self.old.b) (A.state self.new.a) (B.state self.new.b)) }
        ensures one_failed { OnErr result (OnOne (block_place block) (ChangeFailed 1 0)
            (A.state self.old.a) (B.state self.old.b) (A.state self.new.a) (B.state self.new.b)) }
    {
        match block_place(block) {
            Half::First(block) => self.a.erase(block),
            Half::Second(block) => self.b.erase(block),
        }
    }
}
