//! A laboratory on a die, for each scheme of the table, and on a blank one of each kind. The die that counts stands outermost: what
//! the device asks of its die is counted, and no call that a die with reserve blocks makes by itself.
ghost use Rattle.std.specs.Prelude.{◌≡◌, IfOk, IfErr, OnOk};
ghost use Rattle.rssd_core.specs.Mount.{Mounts};
ghost use Rattle.lab_words.specs.Orders.{IsDieWithin};
ghost use Rattle.rssd_run.specs.Heads.{numbers_named};
ghost use Rattle.schemes.specs.Schemes.{meaning_named};
ghost use Rattle.rssd_lab.specs.Dies.{IsBlankDevice, IsBlankOf};
ghost use Rattle.rssd_lab.specs.Stages.{AnyDie};
ghost use Rattle.rssd_lab.specs.Started.{RunsFrom, StopsFrom, StopsOn, RefusesMount};

use crate::laboratory::run;
use crate::ready::{Ready, pair, plain, worn};
use crate::status::{NotRun, Stop};
use crate::telling::Telling;
use cell_die::Die;
use count_die::CountDie;
use die_image::SchemeName;
use lab_lines::Lines;
use lab_words::{AskedDie, DieKind};
use rssd_core::device::{Device, MountError, Plan};
use rssd_core::whole::Ftl;
use rssd_io::Sink;
use schemes::{cosets, flips, pairs, plains, sevens};
use std::alloc::{AllocError, Global};
use striped::Scheme;

/// A device of a die, mounted on a die over it that counts its calls.
fn mount<D: Die + Drop, C: Scheme + Drop, F: Device<CountDie<D>, C>>(
    alloc: Global,
    ready: Ready<D>,
    scheme: C,
) -> Result<F, NotRun>
    requires { C.meaning scheme ≡ meaning_named ready.head.scheme }
    ensures mounted { IfOk result (λ ftl. Mounts (numbers_named ready.head) (D.state ready.die) (F.device ftl)) }
    ensures refused { IfErr result (λ why. RefusesMount (numbers_named ready.head) (D.state ready.die) why) }
{
    let Ready { head, die } = ready;
    let Ok(die) = CountDie::new(alloc, die) else {
        return Err(NotRun::Stopped(Stop::OutOfMemory));
    };
    let plan = Plan {
        sectors: head.sectors,
        reuse_max: head.reuse_max,
    };
    match F::mount(alloc, die, scheme, plan) {
        Ok(ftl) => Ok(ftl),
        Err(refused) => match refused.why {
            MountError::OutOfMemory => Err(NotRun::Stopped(Stop::OutOfMemory)),
            MountError::NoSpare => Err(NotRun::NoSpare),
            MountError::Shape | MountError::DieFault => unreachable!(),
        },
    }
}

/// Plays all lines on a die, as a device of the kind `F`, and gives the die back.
fn run_with<D: Die + Drop, C: Scheme + Drop, F: Device<CountDie<D>, C>, L: Lines, O: Sink>(
    alloc: Global,
    telling: Telling,
    ready: Ready<D>,
    scheme: C,
    lines: &mut L,
    out: &mut O,
) -> Result<D, NotRun>
    requires { C.meaning scheme ≡ meaning_named ready.head.scheme }
    ensures done { IfOk result (λ left. RunsFrom L.gives L.ended telling (Mounts (numbers_named ready.head) (D.state ready.die))
        (λ die. D.state left ≡ die) lines.old lines.new (O.log out.old) (O.log out.new)) }
    ensures stops { IfErr result (λ why. StopsOn L.gives L.ended L.stops telling (numbers_named ready.head) (D.state ready.die) why
        lines.old lines.new (O.log out.old) (O.log out.new)) }
{
    let mut ftl = mount::<D, C, F>(alloc, ready, scheme)?;
    match run(alloc, &mut ftl, telling, lines, out) {
        Ok(()) => {
            let (counting, _) = ftl.close();
            let (die, _) = counting.into_parts();
            Ok(die)
        }
        Err(why) => Err(NotRun::Stopped(why)),
    }
}

/// Plays all lines on a die, with a scheme that was made, or for which there was no memory.
fn run_made<D: Die + Drop, C: Scheme + Drop, L: Lines, O: Sink>(
    alloc: Global,
    telling: Telling,
    ready: Ready<D>,
    made: Result<C, AllocError>,
    lines: &mut L,
    out: &mut O,
) -> Result<D, NotRun>
    requires { IfOk made (λ scheme. C.meaning scheme ≡ meaning_named ready.head.scheme) }
    ensures done { IfOk result (λ left. RunsFrom L.gives L.ended telling (Mounts (numbers_named ready.head) (D.state ready.die))
        (λ die. D.state left ≡ die) lines.old lines.new (O.log out.old) (O.log out.new)) }
    ensures stops { IfErr result (λ why. StopsOn L.gives L.ended L.stops telling (numbers_named ready.head) (D.state ready.die) why
        lines.old lines.new (O.log out.old) (O.log out.new)) }
{
    match made {
        Ok(scheme) => {
            run_with::<D, C, Ftl<CountDie<D>, C>, L, O>(alloc, telling, ready, scheme, lines, out)
        }
        Err(_) => Err(NotRun::Stopped(Stop::OutOfMemory)),
    }
}

/// Plays all lines on a die that is mounted first, with the scheme of its head, and gives the die back.
///
/// # Errors
///
/// `NoSpare` where each block of the die has a live record, or want of memory for the device, before anything is given; the end of
/// the lines before all were played; a line that only a session takes; or a fault of the sink.
#[tactic(auto, unfolding(schemes::specs::Schemes::meaning_named, die_image::specs::Schemes::row_of))]
pub fn run_on<D: Die + Drop, L: Lines, O: Sink>(
    alloc: Global,
    telling: Telling,
    ready: Ready<D>,
    lines: &mut L,
    out: &mut O,
) -> Result<D, NotRun>
    ensures done { IfOk result (λ left. RunsFrom L.gives L.ended telling (Mounts (numbers_named ready.head) (D.state ready.die))
        (λ die. D.state left ≡ die) lines.old lines.new (O.log out.old) (O.log out.new)) }
    ensures stops { IfErr result (λ why. StopsOn L.gives L.ended L.stops telling (numbers_named ready.head) (D.state ready.die) why
        lines.old lines.new (O.log out.old) (O.log out.new)) }
{
    match ready.head.scheme {
        SchemeName::Plain16 => run_made(alloc, telling, ready, plains(alloc, 16), lines, out),
        SchemeName::Rs16 => run_made(alloc, telling, ready, pairs(alloc, 16), lines, out),
        SchemeName::Rs512 => run_made(alloc, telling, ready, pairs(alloc, 512), lines, out),
        SchemeName::Coset16 => run_made(alloc, telling, ready, cosets(alloc, 16), lines, out),
        SchemeName::Coset512 => run_made(alloc, telling, ready, cosets(alloc, 512), lines, out),
        SchemeName::Flip16 => run_made(alloc, telling, ready, flips(alloc, 16), lines, out),
        SchemeName::Flip512 => run_made(alloc, telling, ready, flips(alloc, 512), lines, out),
        SchemeName::Ham16 => run_made(alloc, telling, ready, sevens(alloc, 16), lines, out),
        SchemeName::Ham512 => run_made(alloc, telling, ready, sevens(alloc, 512), lines, out),
    }
}

/// Plays all lines on a blank die that was made as it was asked for.
fn run_blank<D: Die + Drop, L: Lines, O: Sink>(
    alloc: Global,
    asked: &AskedDie,
    telling: Telling,
    ready: Ready<D>,
    lines: &mut L,
    out: &mut O,
) -> Result<(), Stop>
    requires within { IsDieWithin asked.now }
    requires head { ready.head ≡ asked.now.head }
    requires blank { IsBlankOf asked.now.head asked.now.kind (D.state ready.die) }
    ensures done { OnOk result (RunsFrom L.gives L.ended telling (IsBlankDevice asked.now) AnyDie lines.old lines.new (O.log out.old) (O.log out.new)) }
    ensures stops { IfErr result (λ why. StopsFrom L.gives L.ended L.stops telling (IsBlankDevice asked.now) why lines.old lines.new (O.log out.old) (O.log out.new)) }
{
    match run_on(alloc, telling, ready, lines, out) {
        Ok(_) => Ok(()),
        Err(NotRun::Stopped(why)) => Err(why),
        Err(NotRun::NoSpare) => unreachable!(),
    }
}

/// Plays all lines on a blank die of this head and kind.
///
/// # Errors
///
/// As `run_on`, or want of memory for the die; never `NoSpare`.
pub fn run_asked<L: Lines, O: Sink>(
    alloc: Global,
    asked: &AskedDie,
    telling: Telling,
    lines: &mut L,
    out: &mut O,
) -> Result<(), Stop>
    requires { IsDieWithin asked.now }
    ensures done { OnOk result (RunsFrom L.gives L.ended telling (IsBlankDevice asked.now) AnyDie lines.old lines.new (O.log out.old) (O.log out.new)) }
    ensures stops { IfErr result (λ why. StopsFrom L.gives L.ended L.stops telling (IsBlankDevice asked.now) why lines.old lines.new (O.log out.old) (O.log out.new)) }
{
    match asked.kind {
        DieKind::Plain => {
            let Ok(ready) = plain(alloc, asked.head) else {
                return Err(Stop::OutOfMemory);
            };
            run_blank(alloc, asked, telling, ready, lines, out)
        }
        DieKind::Worn { reserve, bad } => {
            let Ok(ready) = worn(alloc, asked.head, reserve, bad) else {
                return Err(Stop::OutOfMemory);
            };
            run_blank(alloc, asked, telling, ready, lines, out)
        }
        DieKind::Pair => {
            let Ok(ready) = pair(alloc, asked.head) else {
                return Err(Stop::OutOfMemory);
            };
            run_blank(alloc, asked, telling, ready, lines, out)
        }
    }
}
