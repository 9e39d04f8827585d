//! The mount of a whole device: its sizes are tested, then all memory is taken, and then each page of the die is read once.
//! No change call of the die is made, and a refusal hands the die and the scheme back.
ghost use Rattle.std.specs.Prelude.{◌≡◌, ◌≢◌, ◌↔◌, ◌+◌, ◌≤◌, IsTrue, OnOk, IfOk, IfErr};
ghost use Rattle.rssd_core.specs.Parts.{device_of};
ghost use Rattle.rssd_core.specs.Mount.{numbers_of, IsServed, Fits, Mounts, Refuses};
ghost use Rattle.rssd_core.specs.Mounting.{HasRoom, HasDieLimits, HasPlanLimits, why_refused};

use crate::device::{MountError, Plan, Refused};
use crate::store::Store;
use crate::whole::{Ftl, Tallies};
use cell_die::{Die, Shape};
use collector::Moves;
use mount_scan::{ScanRefusal, Tables, scan_all};
use page_codec::Work;
use std::alloc::{AllocError, Global};
use striped::Scheme;

/// All memory of a device: the buffers of puts and gets, the tables, and room for the moves of a collection.
#[derive(Drop)]
struct Room {
    work: Work,
    tables: Tables,
    moves: Moves,
}

/// Whether the sizes of a scheme are served.
fn is_served<C: Scheme>(scheme: &C) -> bool
    ensures { IsTrue result ↔ IsServed (C.meaning scheme.now) }
{
    1 <= scheme.sector_bytes()
        && scheme.sector_bytes() <= 512
        && 1 <= scheme.page_bytes()
        && scheme.page_bytes() <= 1200
        && 1 <= scheme.span()
        && scheme.span() <= 2
        && 2 <= scheme.generations()
        && scheme.generations() <= 3
}

/// Whether a die has few enough blocks, pages and bytes, and not too few.
fn is_die_within(shape: Shape) -> bool
    requires page { shape.main_bytes + shape.spare_bytes ≤ 1248 }
    ensures { IsTrue result ↔ HasDieLimits shape }
{
    2 <= shape.blocks
        && shape.blocks <= 1024
        && 2 <= shape.pages
        && shape.pages <= 128
        && shape.blocks * shape.pages * (shape.main_bytes + shape.spare_bytes) <= 67_108_864
}

/// Whether the sectors leave a block and a page to spare, and not more blocks than there are may be Recycled.
fn is_plan_within(shape: Shape, plan: Plan) -> bool
    requires die { HasDieLimits shape }
    ensures { IsTrue result ↔ HasPlanLimits shape plan }
{
    1 <= plan.sectors
        && plan.sectors < (shape.blocks - 1) * shape.pages
        && plan.reuse_max <= shape.blocks
}

/// Whether the die, the scheme and the plan are within the limits of a device.
fn fits<C: Scheme>(shape: Shape, scheme: &C, plan: Plan) -> bool
    ensures { IsTrue result ↔ Fits shape (C.meaning scheme.now) plan }
{
    is_served(scheme)
        && shape.main_bytes == scheme.page_bytes()
        && shape.spare_bytes == 16 * scheme.generations()
        && is_die_within(shape)
        && is_plan_within(shape, plan)
}

/// Takes all memory of a device.
fn take_room<C: Scheme>(
    alloc: Global,
    shape: Shape,
    scheme: &C,
    plan: Plan,
) -> Result<Room, AllocError>
    requires { Fits shape (C.meaning scheme.now) plan }
    ensures { IfOk result (HasRoom shape (C.meaning scheme.now) plan.sectors) }
{
    Ok(Room {
        work: Work::new(
            alloc,
            scheme.page_bytes(),
            scheme.span(),
            scheme.sector_bytes(),
            scheme.generations(),
        )?,
        tables: Tables::new(
            alloc,
            shape,
            plan.sectors,
            scheme.span(),
            scheme.generations(),
        )?,
        moves: Moves::new(alloc, shape.pages)?,
    })
}

/// Why a device was not mounted whose scan was refused.
fn refusal(why: ScanRefusal) -> MountError
    ensures { result ≡ why_refused why }
{
    match why {
        ScanRefusal::DieFault => MountError::DieFault,
        ScanRefusal::NoSpare => MountError::NoSpare,
    }
}

/// Reads the die into the tables, which are then those of the device.
fn mount_in<D: Die + Drop, C: Scheme + Drop>(
    mut die: D,
    scheme: C,
    room: Room,
    plan: Plan,
) -> Result<Ftl<D, C>, Refused<D, C>>
    requires fits { Fits (D.state die).shape (C.meaning scheme) plan }
    requires room { HasRoom (D.state die).shape (C.meaning scheme) plan.sectors room }
    ensures mounted { IfOk result (λ new. Mounts (numbers_of (D.state die).shape (C.meaning scheme) plan) (D.state die) (device_of C.meaning new)) }
    ensures not_shape { IfErr result (λ refused. refused.why ≢ MountError.Shape) }
    ensures refused { IfErr result (λ refused. Refuses (numbers_of (D.state die).shape (C.meaning scheme) plan) (D.state die) (D.state refused.die) refused.why) }
    ensures scheme { IfErr result (λ refused. C.meaning refused.scheme ≡ C.meaning scheme) }
{
    let Room {
        mut work,
        mut tables,
        moves,
    } = room;
    match scan_all(&mut die, &mut work, &mut tables, plan.reuse_max) {
        Ok(()) => Ok(Ftl {
            store: Store {
                die,
                scheme,
                work,
                map: tables.map,
                book: tables.book,
                seq: tables.seq,
                moves,
                moved: 0,
                stopped: false,
            },
            reuse_max: plan.reuse_max,
            tallies: Tallies::NONE,
        }),
        Err(why) => Err(Refused {
            die,
            scheme,
            why: refusal(why),
        }),
    }
}

/// Mounts a die. Every growth is made before the first read, and no change call is made.
///
/// The order of refusals is `Shape`, `OutOfMemory`, `DieFault`, `NoSpare`.
pub fn mount<D: Die + Drop, C: Scheme + Drop>(
    alloc: Global,
    die: D,
    scheme: C,
    plan: Plan,
) -> Result<Ftl<D, C>, Refused<D, C>>
    ensures mounted { IfOk result (λ new. Mounts (numbers_of (D.state die).shape (C.meaning scheme) plan) (D.state die) (device_of C.meaning new)) }
    ensures fits { OnOk result (Fits (D.state die).shape (C.meaning scheme) plan) }
    ensures shape { IfErr result (λ refused. refused.why ≡ MountError.Shape ↔ (¬ Fits (D.state die).shape (C.meaning scheme) plan)) }
    ensures refused { IfErr result (λ refused. Refuses (numbers_of (D.state die).shape (C.meaning scheme) plan) (D.state die) (D.state refused.die) refused.why) }
    ensures scheme { IfErr result (λ refused. C.meaning refused.scheme ≡ C.meaning scheme) }
{
    if !fits(die.shape(), &scheme, plan) {
        return Err(Refused {
            die,
            scheme,
            why: MountError::Shape,
        });
    }
    match take_room(alloc, die.shape(), &scheme, plan) {
        Ok(room) => mount_in(die, scheme, room, plan),
        Err(_) => Err(Refused {
            die,
            scheme,
            why: MountError::OutOfMemory,
        }),
    }
}
