//! The die itself. Its cells are those of a die in memory, whatever the mirror does. A change call first catches up: while a put
//! that failed is not made good it fails and changes nothing, so what the mirror lacks is at most one call's.
ghost use Rattle.std.specs.Prelude.{◌≡◌, ◌≤◌, ◌<◌, ◌+◌, ◌*◌, length, OnOk, OnErr};
ghost use Rattle.cell_die.specs.DieState.{page_count};
ghost use Rattle.cell_die.specs.Counts.{raised};
ghost use Rattle.mem_die.specs.Limits.{IsWithinLimits};
ghost use Rattle.mem_die.specs.MemState.{mem_state};

use crate::mirror::Mirror;
use cell_die::{Die, DieFault, PowerDie, Shape, Torn};
use mem_die::MemDie;

/// Where the cells stand in the mirror, behind the head of an image.
const CELLS: u64 = 32;

/// A die in memory with a mirror of its cells.
#[derive(Drop)]
pub struct FileDie<M: Mirror> {
    die: MemDie,
    mirror: M,
    /// A put failed, and was not made good yet.
    behind: bool,
    /// How many puts failed; it stands still at 2^64 - 1.
    faults: u64,
    ghost within: { IsWithinLimits (mem_state die).shape },
}

/// The cells of some pages.
fn part(cells: &[u8], size: usize, first: usize, count: usize) -> &[u8]
    requires { (first + count) * size ≤ length cells.now }
{
    &cells[first * size..first * size + count * size]
}

impl<M: Mirror> FileDie<M> {
    /// A die of these cells, with a mirror that keeps them behind 32 other bytes.
    pub fn new(die: MemDie, mirror: M) -> FileDie<M>
        requires { IsWithinLimits (mem_state die).shape }
        ensures die { result.die ≡ die }
        ensures faults { result.faults ≡ 0 }
    {
        FileDie {
            die,
            mirror,
            behind: false,
            faults: 0,
        }
    }

    /// How many puts failed; it stands still at 2^64 - 1.
    pub fn put_faults(&self) -> u64
        ensures { result ≡ self.now.faults }
    {
        self.faults
    }

    /// Whether a put failed that was not made good yet.
    pub fn is_behind(&self) -> bool
        ensures { result ≡ self.now.behind }
    {
        self.behind
    }

    /// The mirror.
    pub fn mirror(&self) -> &M
        ensures { result.now ≡ self.now.mirror }
    {
        &self.mirror
    }

    /// Puts pages into the mirror.
    fn keep(&mut self, first: u32, count: u32) -> Result<(), DieFault>
        requires { first + count ≤ page_count (mem_state self.old.die).shape }
        ensures die { self.new.die ≡ self.old.die }
        ensures ok { OnOk result (self.new.faults ≡ self.old.faults) }
        ensures err { OnErr result (self.new.faults ≡ raised self.old.faults) }
    {
        let shape = self.die.shape();
        let size = (shape.main_bytes + shape.spare_bytes) as usize;
        let cells = part(self.die.cells(), size, first as usize, count as usize);
        let place = CELLS + first as u64 * size as u64;
        self.behind = self.mirror.put(place, cells).is_err();
        if self.behind {
            self.faults = self.faults.saturating_add(1);
            return Err(DieFault);
        }
        Ok(())
    }

    /// Puts all pages into the mirror, where a put failed before.
    fn catch_up(&mut self) -> Result<(), DieFault>
        ensures die { self.new.die ≡ self.old.die }
        ensures ok { OnOk result (self.new.faults ≡ self.old.faults) }
        ensures err { OnErr result (self.new.faults ≡ raised self.old.faults) }
    {
        if !self.behind {
            return Ok(());
        }
        let shape = self.die.shape();
        self.keep(0, shape.blocks * shape.pages)
    }
}

impl<M: Mirror> Die for FileDie<M> {
    ghost use Rattle.file_die.specs.FileView.{file_view, view_shaped};

    ghost state = { λ f. file_view (mem_state f.die) f.faults };

    ghost shaped = { λ f. view_shaped f.die f.faults };

    fn shape(&self) -> Shape {
        self.die.shape()
    }

    fn read(&mut self, page: u32, into: &mut [u8]) -> Result<(), DieFault> {
        self.die.read(page, into)
    }

    fn program(&mut self, page: u32, target: &[u8]) -> Result<(), DieFault> {
        self.catch_up()?;
        let done = self.die.program(page, target);
        self.keep(page, 1)?;
        done
    }

    fn charge(&mut self, page: u32, cell: u32) -> Result<(), DieFault> {
        self.catch_up()?;
        let done = self.die.charge(page, cell);
        self.keep(page, 1)?;
        done
    }

    fn erase(&mut self, block: u32) -> Result<(), DieFault> {
        self.catch_up()?;
        let done = self.die.erase(block);
        let pages = self.die.shape().pages;
        self.keep(block * pages, pages)?;
        done
    }
}

impl<M: Mirror> PowerDie for FileDie<M> {
    fn arm_cut(&mut self, n: u32, torn: Torn) {
        self.die.arm_cut(n, torn);
    }

    fn fail_read(&mut self, n: u32) {
        self.die.fail_read(n);
    }

    fn power_on(&mut self) {
        self.die.power_on();
    }

    fn powered(&self) -> bool {
        self.die.powered()
    }

    fn erased(&self) -> u64 {
        self.die.erased()
    }
}
