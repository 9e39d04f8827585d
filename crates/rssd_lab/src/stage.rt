//! Where lines are played: on a blank die that is made first, or on the die of an image.
ghost use Rattle.std.specs.Prelude.{◌≡◌, IfOk, IfErr};
ghost use Rattle.rssd_lab.specs.Stages.{IsStageWithin, StartOn, EndOn, head_on};
ghost use Rattle.rssd_lab.specs.Started.{RunsFrom, StopsStage};

use crate::on_die::{run_asked, run_on};
use crate::ready::Ready;
use crate::status::NotRun;
use crate::telling::Telling;
use die_image::ImageHead;
use lab_lines::Lines;
use lab_words::AskedDie;
use mem_die::MemDie;
use rssd_io::Sink;
use std::alloc::Global;

/// Where lines are played.
#[derive(Drop)]
pub enum Stage {
    /// On a blank die, which is dropped behind them.
    Blank(AskedDie),
    /// On the die of an image, which comes back as they leave it.
    Image(Ready<MemDie>),
}

impl Stage {
    /// The head of the die.
    pub fn head(&self) -> ImageHead
        ensures { result ≡ head_on self.now }
    {
        match self {
            Stage::Blank(asked) => asked.head,
            Stage::Image(ready) => ready.head,
        }
    }
}

/// Plays all lines, and gives the die of an image back.
///
/// # Errors
///
/// As `run_on`; never `NoSpare` on a blank die.
pub fn run_stage<L: Lines, O: Sink>(
    alloc: Global,
    stage: Stage,
    telling: Telling,
    lines: &mut L,
    out: &mut O,
) -> Result<Option<MemDie>, NotRun>
    requires { IsStageWithin stage }
    ensures done { IfOk result (λ left. RunsFrom L.gives L.ended telling (StartOn stage) (EndOn stage left)
        lines.old lines.new (O.log out.old) (O.log out.new)) }
    ensures stops { IfErr result (λ why. StopsStage L.gives L.ended L.stops telling stage why lines.old lines.new (O.log out.old) (O.log out.new)) }
{
    match stage {
        Stage::Blank(asked) => match run_asked(alloc, &asked, telling, lines, out) {
            Ok(()) => Ok(None),
            Err(why) => Err(NotRun::Stopped(why)),
        },
        Stage::Image(ready) => {
            let left = run_on(alloc, telling, ready, lines, out)?;
            Ok(Some(left))
        }
    }
}
