//! Lines are played on a device over a counting die, each as it comes, and rows tell what was counted.
ghost use Rattle.std.specs.Prelude.{◌≡◌, ◌≢◌, ◌≤◌, ◌<◌, ◌+◌, ◌++◌, ◌∷◌, [], ◌↔◌, None, true, OnOk, OnErr, IfOk, IfErr, IsErrOf, IfSome, IfNone, if◌then◌else◌};
ghost use Rattle.rssd_io.specs.Event.{HasFailed};
ghost use Rattle.rssd_script.specs.Replies.{reply_line};
ghost use Rattle.rssd_run.specs.Played.{IsPlayed, Plays, PlaysQuiet};
ghost use Rattle.lab_tables.specs.Answered.{answered_more};
ghost use Rattle.lab_tables.specs.Tables.{kind_table, block_table};
ghost use Rattle.rssd_lab.specs.Runs.{IsCounted, handed, told_for, row_now, is_due, state_at, PlaysAll, StopsLines, TellsAtEnd, IsFirst, RunsTo, StopsRun};

use crate::score::Score;
use crate::status::Stop;
use crate::telling::Telling;
use cell_die::Die;
use count_die::CountDie;
use lab_lines::Lines;
use lab_tables::{RUN_HEAD, give_blocks, give_kinds, run_row};
use rssd_core::device::Device;
use rssd_io::{Sink, WriteFault, give_last};
use rssd_run::run::line::play;
use rssd_script::{Line, Reply, print_reply};
use std::alloc::Global;
use striped::Scheme;

/// Plays a line, and counts it. None is answered for a line that no device plays.
fn step<D: Die + Drop, C: Scheme + Drop, F: Device<CountDie<D>, C>>(
    ftl: &mut F,
    score: &mut Score,
    line: &Line,
) -> Option<Reply>
    requires { (F.device ftl.old).numbers.geometry.sector_bytes ≤ 512 }
    ensures none { result ≡ None ↔ (¬ IsPlayed line.now) }
    ensures nothing { IfNone result (F.device ftl.new ≡ F.device ftl.old) }
    ensures same { IfNone result (score.new ≡ score.old) }
    ensures plays { IfSome result (λ reply. Plays (F.device ftl.old).numbers line.now reply (F.device ftl.old) (F.device ftl.new)) }
    ensures quiet { IfSome result (λ reply. PlaysQuiet reply (F.device ftl.old) (F.device ftl.new)) }
    ensures counted { IfSome result (λ reply. IsCounted (F.device ftl.new) score.new.totals) }
    ensures answers { IfSome result (λ reply. score.new.answers ≡ answered_more score.old.totals score.new.totals score.old.answers reply) }
    ensures numbers { (F.device ftl.new).numbers ≡ (F.device ftl.old).numbers }
{
    let reply = play(ftl, line)?;
    score.add(&reply, ftl.die().tally().totals());
    Some(reply)
}

/// Gives the row of what was counted, and has it handed on.
fn give_row<D: Die + Drop, C: Scheme + Drop, F: Device<CountDie<D>, C>, O: Sink>(
    ftl: &F,
    score: &Score,
    out: &mut O,
) -> Result<(), WriteFault>
    ensures done { OnOk result (O.log out.new ≡ O.log out.old ++ handed (row_now (F.device ftl.now) score.now ∷ [])) }
    ensures fault { OnErr result (HasFailed (O.log out.old) (O.log out.new)) }
{
    let row = run_row(&score.answers, ftl.counts().moved, score.totals);
    give_last(out, row.as_slice())
}

/// Gives a reply where that is wanted, and has it handed on.
fn give_reply<O: Sink>(telling: Telling, reply: &Reply, out: &mut O) -> Result<(), WriteFault>
    ensures done { OnOk result (O.log out.new ≡ O.log out.old ++ handed (if telling.replies then reply_line reply.now ∷ [] else [])) }
    ensures fault { OnErr result (HasFailed (O.log out.old) (O.log out.new)) }
{
    if telling.replies {
        give_last(out, print_reply(reply).as_slice())
    } else {
        Ok(())
    }
}

/// Tells of a line that was played.
fn tell<D: Die + Drop, C: Scheme + Drop, F: Device<CountDie<D>, C>, O: Sink>(
    ftl: &F,
    score: &Score,
    telling: Telling,
    reply: &Reply,
    out: &mut O,
) -> Result<(), WriteFault>
    ensures done { OnOk result (O.log out.new ≡ O.log out.old ++ handed (told_for telling (F.device ftl.now) score.now reply.now)) }
    ensures fault { OnErr result (HasFailed (O.log out.old) (O.log out.new)) }
{
    give_reply(telling, reply, out)?;
    if score.answers.lines % telling.every == 0 {
        give_row(ftl, score, out)
    } else {
        Ok(())
    }
}

/// Plays all lines, each as it comes.
fn play_all<D: Die + Drop, C: Scheme + Drop, F: Device<CountDie<D>, C>, L: Lines, O: Sink>(
    alloc: Global,
    ftl: &mut F,
    score: &mut Score,
    telling: Telling,
    lines: &mut L,
    out: &mut O,
) -> Result<(), Stop>
    requires { (F.device ftl.old).numbers.geometry.sector_bytes ≤ 512 }
    ensures done { OnOk result (PlaysAll L.gives L.ended (F.device ftl.old).numbers telling
        (state_at lines.old (F.device ftl.old) score.old (O.log out.old)) (state_at lines.new (F.device ftl.new) score.new (O.log out.new))) }
    ensures stops { IfErr result (λ why. StopsLines L.gives L.stops (F.device ftl.old).numbers telling
        (state_at lines.old (F.device ftl.old) score.old (O.log out.old)) why (state_at lines.new (F.device ftl.new) score.new (O.log out.new))) }
    ensures numbers { (F.device ftl.new).numbers ≡ (F.device ftl.old).numbers }
{
    for _ in 0..u64::MAX {
        let line = match lines.next_line(alloc) {
            Ok(Some(line)) => line,
            Ok(None) => return Ok(()),
            Err(why) => return Err(Stop::Lines(why)),
        };
        let Some(reply) = step(ftl, score, &line) else {
            return Err(Stop::NotPlayed(score.answers.lines.saturating_add(1)));
        };
        if tell(ftl, score, telling, &reply, out).is_err() {
            return Err(Stop::Sink);
        }
    }
    Ok(())
}

/// Gives the last row where none was due.
fn give_last_row<D: Die + Drop, C: Scheme + Drop, F: Device<CountDie<D>, C>, O: Sink>(
    ftl: &F,
    score: &Score,
    telling: Telling,
    out: &mut O,
) -> Result<(), WriteFault>
    ensures done { OnOk result (O.log out.new ≡ O.log out.old ++ handed (if is_due telling score.now then [] else row_now (F.device ftl.now) score.now ∷ [])) }
    ensures fault { OnErr result (HasFailed (O.log out.old) (O.log out.new)) }
{
    if score.answers.lines % telling.every == 0 {
        Ok(())
    } else {
        give_row(ftl, score, out)
    }
}

/// Gives what comes last: a row where none was due, and the tables.
fn tell_at_end<D: Die + Drop, C: Scheme + Drop, F: Device<CountDie<D>, C>, O: Sink>(
    ftl: &F,
    score: &Score,
    telling: Telling,
    out: &mut O,
) -> Result<(), WriteFault>
    ensures done { OnOk result (TellsAtEnd telling (F.device ftl.now) score.now (O.log out.old) (O.log out.new)) }
    ensures fault { OnErr result (HasFailed (O.log out.old) (O.log out.new)) }
{
    give_last_row(ftl, score, telling, out)?;
    give_kinds(&score.answers, out)?;
    give_blocks(ftl.die().tally(), out)?;
    out.flush()
}

/// What was counted before the first line.
fn first_score<D: Die + Drop, C: Scheme + Drop, F: Device<CountDie<D>, C>>(ftl: &F) -> Score
    ensures { IsFirst (F.device ftl.now) result }
{
    Score::new(ftl.die().tally().totals())
}

/// Plays all lines on a device, and tells of them.
pub fn run<D: Die + Drop, C: Scheme + Drop, F: Device<CountDie<D>, C>, L: Lines, O: Sink>(
    alloc: Global,
    ftl: &mut F,
    telling: Telling,
    lines: &mut L,
    out: &mut O,
) -> Result<(), Stop>
    requires { (F.device ftl.old).numbers.geometry.sector_bytes ≤ 512 }
    ensures done { OnOk result (RunsTo L.gives L.ended telling (F.device ftl.old) (F.device ftl.new) lines.old lines.new (O.log out.old) (O.log out.new)) }
    ensures stops { IfErr result (λ why. StopsRun L.gives L.ended L.stops telling (F.device ftl.old) why lines.old lines.new (O.log out.old) (O.log out.new)) }
{
    let mut score = first_score(ftl);
    if give_last(out, RUN_HEAD).is_err() {
        return Err(Stop::Sink);
    }
    match play_all(alloc, ftl, &mut score, telling, lines, out) {
        Ok(()) => match tell_at_end(ftl, &score, telling, out) {
            Ok(()) => Ok(()),
            Err(_) => Err(Stop::Sink),
        },
        Err(why) => Err(why),
    }
}
