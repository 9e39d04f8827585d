//! A session: a device on a die whose power may be cut, and the lines that are run on it. It is on while the device runs, and off
//! after a failed change call or a mount that was refused, until a mount. From each view that it stands for, a line with its
//! reply is a step to one that it stands for afterwards. Only the line `mount` takes memory.
ghost use Rattle.std.specs.Prelude.{◌≡◌, [], None, Some, IsSome, IfSome, IfNone, IfOk, IfErr, ◌↔◌, OnOk};
ghost use Rattle.page_codec.specs.Geometry.{shape_of};
ghost use Rattle.rssd_core.specs.DeviceValue.{Numbers};
ghost use Rattle.rssd_core.specs.Failures.{TellsPower};
ghost use Rattle.rssd_core.specs.Mount.{numbers_of, Fits, Refuses};
ghost use Rattle.rssd_run.specs.Exchanges.{AnswersSession};
ghost use Rattle.rssd_run.specs.Held.{added_tallies, tallies_of};
ghost use Rattle.rssd_run.specs.Serves.{IsQueueOf, ServesSession, is_running};
ghost use Rattle.rssd_run.specs.Shows.{CanStep, IsDeviceLine, HasNumbers, HasDie, StepsSession, Starts, session_of, tallies};

use crate::run::line::{answer_line, mount_again, refusal_reply};
use crate::run::served::{serve_off, serve_on};
use crate::run::{Serving, Stepping};
use cell_die::PowerDie;
use rssd_core::device::{Counts, MountError, Plan, PowerDevice, Refused};
use rssd_queue::Queue;
use rssd_script::{Line, Reply};
use std::alloc::Global;
use std::marker::Model;
use striped::Scheme;

/// Tallies on top of others; each stands still at 2^64 - 1.
fn added(base: Counts, more: Counts) -> Counts
    ensures { tallies result ≡ added_tallies (tallies base) (tallies more) }
{
    Counts {
        first: base.first.saturating_add(more.first),
        second: base.second.saturating_add(more.second),
        declined: base.declined.saturating_add(more.declined),
        moved: base.moved.saturating_add(more.moved),
    }
}

/// The reply to `stat`.
fn stat_reply(counts: Counts, erased: u64) -> Reply
    ensures { result ≡ Reply.Stat counts.first counts.second counts.declined counts.moved erased }
{
    Reply::Stat {
        first: counts.first,
        second: counts.second,
        declined: counts.declined,
        moved: counts.moved,
        erased,
    }
}

/// Closes the device and adds its tallies, or takes the die of no device.
fn close_held<D: PowerDie + Drop, C: Scheme + Drop, F: PowerDevice<D, C>>(
    mounted: &mut Option<F>,
    closed: &mut Option<(D, C)>,
    base: &mut Counts,
) -> (D, C)
    requires { mounted.old ≡ None → IsSome closed.old }
    ensures device { IfSome mounted.old (λ ftl. (D.state result.0 ≡ (F.device ftl).view.die) × (C.meaning result.1 ≡ (F.device ftl).numbers.meaning)) }
    ensures counts { IfSome mounted.old (λ ftl. tallies base.new ≡ added_tallies (tallies base.old) (tallies_of (F.device ftl).view)) }
    ensures die { IfNone mounted.old (closed.old ≡ Some result × base.new ≡ base.old) }
    ensures mounted { mounted.new ≡ None }
{
    match mounted.take() {
        Some(ftl) => {
            *base = added(*base, ftl.counts());
            ftl.close()
        }
        None => match closed.take() {
            Some(held) => held,
            None => unreachable!(),
        },
    }
}

/// A device on a die, or after a mount that was refused the die alone with its scheme.
#[derive(Drop)]
pub struct Session<D: PowerDie + Drop, C: Scheme + Drop, F: PowerDevice<D, C>> {
    mounted: Option<F>,
    closed: Option<(D, C)>,
    plan: Plan,
    /// The tallies of the devices before this one.
    base: Counts,
}

impl<D: PowerDie + Drop, C: Scheme + Drop, F: PowerDevice<D, C>> Model for Session<D, C, F> {
    ghost use Rattle.rssd_run.specs.Shows.{Parts, IsSession, session_of};

    ghost Value = { Parts D C F };

    ghost view = { λ s. record { mounted = s.mounted; closed = s.closed; plan = s.plan; base = s.base } };

    ghost invariant = { λ s. IsSession s.plan (session_of D.state C.meaning F.device (record { mounted = s.mounted; closed = s.closed; plan = s.plan; base = s.base })) };
}

impl<D: PowerDie + Drop, C: Scheme + Drop, F: PowerDevice<D, C>> Session<D, C, F> {
    /// A session on a die that has power. It mounts the die, and is on.
    pub fn start(alloc: Global, die: D, scheme: C, plan: Plan) -> Result<Self, Refused<D, C>>
        requires { TellsPower (D.state die) }
        ensures started { IfOk result (λ new. Starts (numbers_of (D.state die).shape (C.meaning scheme) plan) (D.state die) (session_of D.state C.meaning F.device new)) }
        ensures fits { OnOk result (Fits (D.state die).shape (C.meaning scheme) plan) }
        ensures shape { IfErr result (λ refused. refused.why ≡ MountError.Shape ↔ (¬ Fits (D.state die).shape (C.meaning scheme) plan)) }
        ensures refused { IfErr result (λ refused. Refuses (numbers_of (D.state die).shape (C.meaning scheme) plan) (D.state die) (D.state refused.die) refused.why) }
        ensures scheme { IfErr result (λ refused. C.meaning refused.scheme ≡ C.meaning scheme) }
    {
        match F::mount(alloc, die, scheme, plan) {
            Ok(ftl) => Ok(Session {
                mounted: Some(ftl),
                closed: None,
                plan,
                base: Counts {
                    first: 0,
                    second: 0,
                    declined: 0,
                    moved: 0,
                },
            }),
            Err(refused) => Err(refused),
        }
    }

    /// Answers a line that a device answers.
    fn answer(&mut self, line: &Line, reply: &mut Reply)
        requires line { IsDeviceLine line.now }
        requires can_step { CanStep line.now }
        ensures numbers { (d : Numbers) → HasNumbers d (session_of D.state C.meaning F.device self.old).holding → HasNumbers d (session_of D.state C.meaning F.device self.new).holding }
        ensures step { (d : Numbers) → HasNumbers d (session_of D.state C.meaning F.device self.old).holding
            → StepsSession d line.now reply.new (session_of D.state C.meaning F.device self.old) (session_of D.state C.meaning F.device self.new) }
        ensures answers { (d : Numbers) → HasNumbers d (session_of D.state C.meaning F.device self.old).holding
            → AnswersSession d line.now reply.new (session_of D.state C.meaning F.device self.old) (session_of D.state C.meaning F.device self.new) }
    {
        let Some(ftl) = &mut self.mounted else {
            *reply = Reply::Off;
            return;
        };
        if ftl.stopped() {
            *reply = Reply::Off;
            return;
        }
        answer_line(ftl, line, reply)
    }

    /// Whether the device runs.
    pub fn is_on(&self) -> bool
        ensures { result ≡ is_running (session_of D.state C.meaning F.device self.now).holding }
    {
        match &self.mounted {
            Some(ftl) => !ftl.stopped(),
            None => false,
        }
    }

    /// Takes the next command out of a queue, carries it out, and answers with its tag: with the answer of the device where it
    /// runs, and else with `off`. None is answered exactly where nothing waits.
    pub fn serve(&mut self, queue: &mut Queue) -> Option<(u32, Reply)>
        requires { IsQueueOf queue.old (session_of D.state C.meaning F.device self.old).holding }
        ensures none { IfNone result (queue.old.commands ≡ []) }
        ensures same { IfNone result (queue.new ≡ queue.old) }
        ensures same_session { IfNone result (session_of D.state C.meaning F.device self.new ≡ session_of D.state C.meaning F.device self.old) }
        ensures numbers { (d : Numbers) → HasNumbers d (session_of D.state C.meaning F.device self.old).holding → HasNumbers d (session_of D.state C.meaning F.device self.new).holding }
        ensures served { IfSome result (λ told. (d : Numbers) → HasNumbers d (session_of D.state C.meaning F.device self.old).holding
            → ServesSession d told.0 told.1 queue.old queue.new (session_of D.state C.meaning F.device self.old) (session_of D.state C.meaning F.device self.new)) }
    {
        let Some(ftl) = &mut self.mounted else {
            return serve_off(queue);
        };
        if ftl.stopped() {
            return serve_off(queue);
        }
        serve_on(ftl, queue)
    }

    /// Answers `stat`: the session's tallies, and the sum of the die's erase counts.
    fn stat(&self) -> Reply
        ensures step { (d : Numbers) → HasNumbers d (session_of D.state C.meaning F.device self.now).holding
            → StepsSession d Line.Stat result (session_of D.state C.meaning F.device self.now) (session_of D.state C.meaning F.device self.now) }
        ensures answers { (d : Numbers) → HasNumbers d (session_of D.state C.meaning F.device self.now).holding
            → AnswersSession d Line.Stat result (session_of D.state C.meaning F.device self.now) (session_of D.state C.meaning F.device self.now) }
    {
        match &self.mounted {
            Some(ftl) => stat_reply(added(self.base, ftl.counts()), ftl.erased()),
            None => match &self.closed {
                Some((die, _)) => stat_reply(self.base, die.erased()),
                None => unreachable!(),
            },
        }
    }

    /// Answers `mount`: closes the device, gives the die its power and mounts it.
    fn mount(&mut self, alloc: Global) -> Reply
        ensures numbers { (d : Numbers) → HasNumbers d (session_of D.state C.meaning F.device self.old).holding → HasNumbers d (session_of D.state C.meaning F.device self.new).holding }
        ensures step { (d : Numbers) → HasNumbers d (session_of D.state C.meaning F.device self.old).holding
            → StepsSession d Line.Mount result (session_of D.state C.meaning F.device self.old) (session_of D.state C.meaning F.device self.new) }
        ensures answers { (d : Numbers) → HasNumbers d (session_of D.state C.meaning F.device self.old).holding
            → AnswersSession d Line.Mount result (session_of D.state C.meaning F.device self.old) (session_of D.state C.meaning F.device self.new) }
    {
        let (die, scheme) = close_held(&mut self.mounted, &mut self.closed, &mut self.base);
        match mount_again(alloc, die, scheme, self.plan) {
            Ok(ftl) => {
                self.mounted = Some(ftl);
                Reply::Done
            }
            Err(refused) => {
                self.closed = Some((refused.die, refused.scheme));
                refusal_reply(refused.why)
            }
        }
    }

    /// Gives the die back.
    pub fn finish(self) -> D
        ensures die { HasDie (D.state result) (session_of D.state C.meaning F.device self).holding }
        ensures shape { (d : Numbers) → HasNumbers d (session_of D.state C.meaning F.device self).holding → (D.state result).shape ≡ shape_of d.geometry }
    {
        let Session {
            mounted,
            closed,
            ..
        } = self;
        match mounted {
            Some(ftl) => ftl.close().0,
            None => match closed {
                Some((die, _)) => die,
                None => unreachable!(),
            },
        }
    }
}

impl<D: PowerDie + Drop, C: Scheme + Drop, F: PowerDevice<D, C>> Stepping for Session<D, C, F> {
    ghost session = { session_of D.state C.meaning F.device };

    fn step(&mut self, alloc: Global, line: &Line, reply: &mut Reply) {
        match line {
            Line::Mount => *reply = self.mount(alloc),
            Line::Stat => *reply = self.stat(),
            line => self.answer(line, reply),
        }
    }
}

impl<D: PowerDie + Drop, C: Scheme + Drop, F: PowerDevice<D, C>> Serving for Session<D, C, F> {
    fn is_on(&self) -> bool {
        Session::is_on(self)
    }

    fn serve(&mut self, queue: &mut Queue) -> Option<(u32, Reply)> {
        Session::serve(self, queue)
    }
}
