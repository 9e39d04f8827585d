//! A device beside the plain array: lines are played on both, and what the device answers is judged.

use crate::charge::Look;
use crate::lines::{Line, Size};
use crate::rows::{fill, row_of};
use crate::sectors::Sectors;
use crate::stop::{Stop, Wrong, ensure};
use cell_die::{PowerDie, Shape, Torn};
use mem_die::{DieRefusal, MemDie};
use rssd_core::{Device, Ftl, FtlError, MountError, Placed, Plan, PowerDevice, mount};
use std::alloc::Global;
use striped::Scheme;

/// The most bytes of a sector.
const ROW_BYTES: usize = 512;

/// What became of a line.
#[derive(Clone, Copy, Debug, PartialEq, Eq)]
pub enum Said {
    First,
    Second,
    Declined,
    /// A write or trim that a collection went before.
    Collected,
    Trimmed,
    Moved,
    Mounted,
    Fault,
}

/// A device, what its sectors may hold, and the cells as they were.
#[derive(Drop)]
pub struct Rig<C: Scheme + Drop> {
    ftl: Ftl<MemDie, C>,
    plan: Plan,
    sectors: Sectors,
    look: Look,
    /// The row of the next write.
    row: u8,
}

/// Mounts a die that no read of fails.
fn mounted<C: Scheme + Drop>(
    alloc: Global,
    die: MemDie,
    scheme: C,
    plan: Plan,
) -> Result<Ftl<MemDie, C>, Stop> {
    match mount(alloc, die, scheme, plan) {
        Ok(ftl) => Ok(ftl),
        Err(refused) => match refused.why {
            MountError::OutOfMemory => Err(Stop::OutOfMemory),
            MountError::Shape | MountError::DieFault | MountError::NoSpare => {
                Err(Stop::Differs(Wrong::Mount))
            }
        },
    }
}

/// A mount that a read of fails gives die and scheme back.
fn failed_mount<C: Scheme + Drop>(
    alloc: Global,
    die: MemDie,
    scheme: C,
    plan: Plan,
) -> Result<(MemDie, C), Stop> {
    match mount(alloc, die, scheme, plan) {
        Ok(_) => Err(Stop::Differs(Wrong::Mount)),
        Err(refused) => match refused.why {
            MountError::DieFault => Ok((refused.die, refused.scheme)),
            MountError::OutOfMemory => Err(Stop::OutOfMemory),
            MountError::Shape | MountError::NoSpare => Err(Stop::Differs(Wrong::Mount)),
        },
    }
}

/// Writes a row to a sector.
fn write<C: Scheme + Drop>(
    ftl: &mut Ftl<MemDie, C>,
    sector: u32,
    row: u8,
) -> Result<Placed, FtlError> {
    let size = ftl.sector_bytes() as usize;
    if size > ROW_BYTES {
        return Err(FtlError::BadSector);
    }
    let mut bytes = [0; ROW_BYTES];
    fill(row, &mut bytes[..size]);
    ftl.write(sector, &bytes[..size])
}

/// The row that a sector reads as; one that no script writes is a difference.
fn read<C: Scheme + Drop>(ftl: &mut Ftl<MemDie, C>, sector: u32) -> Result<u8, Stop> {
    let size = ftl.sector_bytes() as usize;
    if size > ROW_BYTES {
        return Err(Stop::Differs(Wrong::Answer));
    }
    let mut bytes = [0; ROW_BYTES];
    if ftl.read(sector, &mut bytes[..size]).is_err() {
        return Err(Stop::Differs(Wrong::Answer));
    }
    row_of(&bytes[..size]).ok_or(Stop::Differs(Wrong::Row))
}

impl<C: Scheme + Drop> Rig<C> {
    /// A device on a blank die.
    pub fn start(alloc: Global, scheme: C, size: Size) -> Result<Self, Stop> {
        let shape = Shape {
            blocks: size.blocks,
            pages: size.pages,
            main_bytes: scheme.page_bytes(),
            spare_bytes: scheme.generations().saturating_mul(16),
        };
        let plan = Plan {
            sectors: size.sectors,
            reuse_max: size.reuse_max,
        };
        let die = match MemDie::blank(alloc, shape) {
            Ok(die) => die,
            Err(DieRefusal::OutOfMemory) => return Err(Stop::OutOfMemory),
            Err(DieRefusal::Shape) => return Err(Stop::Differs(Wrong::Mount)),
        };
        let look = Look::new(alloc, &die)?;
        Ok(Rig {
            ftl: mounted(alloc, die, scheme, plan)?,
            plan,
            sectors: Sectors::new(),
            look,
            row: 1,
        })
    }

    /// Gives the scheme back.
    pub fn close(self) -> C {
        self.ftl.close().1
    }

    /// The `n`-th change call from now is cut in this form.
    pub fn arm_cut(&mut self, n: u32, torn: Torn) {
        if n > 0 {
            self.ftl.arm_cut(n, torn);
        }
    }

    /// The `n`-th read from now fails.
    pub fn fail_read(&mut self, n: u32) {
        if n > 0 {
            self.ftl.fail_read(n);
        }
    }

    /// The device is off exactly where a change call failed. Then it answers no line any more.
    pub fn judge_power(&mut self, off: bool) -> Result<(), Stop> {
        ensure(self.ftl.stopped() == off, Wrong::Power)?;
        if !off {
            return Ok(());
        }
        let answers = (
            write(&mut self.ftl, 0, 1),
            self.ftl.trim(0),
            self.ftl.idle(1),
        );
        ensure(
            matches!(
                answers,
                (
                    Err(FtlError::Stopped),
                    Err(FtlError::Stopped),
                    Err(FtlError::Stopped)
                )
            ),
            Wrong::Power,
        )
    }

    /// Every sector reads as a row that it may hold.
    pub fn read_all(&mut self) -> Result<(), Stop> {
        for sector in 0..self.plan.sectors {
            let row = read(&mut self.ftl, sector)?;
            ensure(self.sectors.settle(sector, row), Wrong::Row)?;
        }
        Ok(())
    }

    /// The power comes back, and the die is mounted. Before that its `failing`-th read fails once, where that is not 0.
    pub fn mount(self, alloc: Global, failing: u32) -> Result<Self, Stop> {
        let Rig {
            ftl,
            plan,
            sectors,
            mut look,
            row,
        } = self;
        let (mut die, mut scheme) = ftl.close();
        die.power_on();
        if failing > 0 {
            die.fail_read(failing);
            (die, scheme) = failed_mount(alloc, die, scheme, plan)?;
        }
        ensure(look.again(&die), Wrong::Charge)?;
        Ok(Rig {
            ftl: mounted(alloc, die, scheme, plan)?,
            plan,
            sectors,
            look,
            row,
        })
    }

    /// A call on a sector failed: where a change call did, it may be old or new from now on.
    fn fault(&mut self, sector: u32, row: u8) -> Said {
        if self.ftl.stopped() {
            self.sectors.doubt(sector, row);
        }
        Said::Fault
    }

    fn write(&mut self, sector: u32) -> Result<Said, Stop> {
        let row = self.row;
        self.row = if row == 3 { 1 } else { row.saturating_add(1) };
        match write(&mut self.ftl, sector, row) {
            Ok(placed) => {
                self.sectors.acknowledge(sector, row);
                Ok(match placed {
                    Placed::First => Said::First,
                    Placed::Second => Said::Second,
                    Placed::Declined => Said::Declined,
                })
            }
            Err(FtlError::DieFault) => Ok(self.fault(sector, row)),
            Err(_) => Err(Stop::Differs(Wrong::Answer)),
        }
    }

    fn trim(&mut self, sector: u32) -> Result<Said, Stop> {
        match self.ftl.trim(sector) {
            Ok(()) => {
                self.sectors.acknowledge(sector, 0);
                Ok(Said::Trimmed)
            }
            Err(FtlError::DieFault) => Ok(self.fault(sector, 0)),
            Err(_) => Err(Stop::Differs(Wrong::Answer)),
        }
    }

    fn idle(&mut self, most: u32) -> Result<Said, Stop> {
        match self.ftl.idle(most) {
            Ok(moves) if moves <= most => Ok(Said::Moved),
            Err(FtlError::DieFault) => Ok(Said::Fault),
            _ => Err(Stop::Differs(Wrong::Answer)),
        }
    }

    /// Plays a line that is no mount, and looks at the cells and the erases after it.
    fn call(&mut self, line: Line) -> Result<Said, Stop> {
        let (erased, moved) = (self.ftl.erased(), self.ftl.counts().moved);
        let said = match line {
            Line::Write(sector) => self.write(sector)?,
            Line::Trim(sector) => self.trim(sector)?,
            Line::Idle(most) => self.idle(most)?,
            Line::Mount => Said::Mounted,
        };
        let erases = self.ftl.erased().saturating_sub(erased);
        ensure(
            erases <= 1 && (erases == 0 || said != Said::Second),
            Wrong::Erases,
        )?;
        ensure(self.look.again(self.ftl.die()), Wrong::Charge)?;
        let collected = self.ftl.counts().moved != moved;
        Ok(match said {
            Said::Moved | Said::Fault | Said::Mounted => said,
            _ if collected => Said::Collected,
            _ => said,
        })
    }

    /// Plays a line.
    pub fn line(self, alloc: Global, line: Line) -> Result<(Self, Said), Stop> {
        let mut rig = self;
        if line == Line::Mount {
            return Ok((rig.mount(alloc, 0)?, Said::Mounted));
        }
        let said = rig.call(line)?;
        Ok((rig, said))
    }
}
