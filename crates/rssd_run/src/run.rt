//! Scripts on a device whose power may be cut, over the device's contract.
ghost use Rattle.std.specs.Prelude.{◌≡◌, [], OnOk, OnErr, IfSome, IfNone};
ghost use Rattle.std.specs.List.{All};
ghost use Rattle.rssd_core.specs.DeviceValue.{Numbers};
ghost use Rattle.rssd_io.specs.Event.{Grows, HasFailed};
ghost use Rattle.rssd_io.specs.Told.{TellsHeld};
ghost use Rattle.rssd_run.specs.Exchanges.{AnswersSession, AnswersAll, AnswersFront};
ghost use Rattle.rssd_run.specs.Run.{RunsSession, CutsOffSession};
ghost use Rattle.rssd_run.specs.Serves.{IsQueueOf, ServesSession, is_running};
ghost use Rattle.rssd_run.specs.Shows.{SessionValue, CanStep, HasNumbers, KeepsSession, StepsSession};

pub mod audit_run;
pub mod image;
pub mod image_run;
pub mod line;
pub mod make_run;
pub mod on_die;
pub mod play_run;
pub mod playing;
pub mod queue_lines;
pub mod queue_run;
pub mod replay;
pub mod reuse;
pub mod script;
pub mod served;
pub mod session;
pub mod top;
pub mod upgrade;
pub mod workload;

use rssd_io::{Sink, WriteFault};
use rssd_queue::Queue;
use rssd_script::{Line, Reply, ReplyText};
use std::alloc::Global;

/// What a session is to those that step its lines.
pub trait Stepping {
    /// All that contracts see of a session.
    ghost session: { Self → SessionValue };

    /// Puts the answer to a line in the place of what stands in `reply`. Only the line `mount` takes memory.
    fn step(&mut self, alloc: Global, line: &Line, reply: &mut Reply)
        requires { CanStep line.now }
        ensures numbers { (d : Numbers) → HasNumbers d (session self.old).holding → HasNumbers d (session self.new).holding }
        ensures step { (d : Numbers) → HasNumbers d (session self.old).holding → StepsSession d line.now reply.new (session self.old) (session self.new) }
        ensures answers { (d : Numbers) → HasNumbers d (session self.old).holding → AnswersSession d line.now reply.new (session self.old) (session self.new) };
}

/// What a session is to those that serve the commands of a queue on it.
pub trait Serving: Stepping {
    /// Whether the device runs.
    fn is_on(&self) -> bool
        ensures { result ≡ is_running (Self.session self.now).holding };

    /// Takes the next command out of a queue, carries it out, and answers with its tag. None is answered exactly where nothing
    /// waits.
    fn serve(&mut self, queue: &mut Queue) -> Option<(u32, Reply)>
        requires { IsQueueOf queue.old (Self.session self.old).holding }
        ensures none { IfNone result (queue.old.commands ≡ []) }
        ensures same { IfNone result (queue.new ≡ queue.old) }
        ensures same_session { IfNone result (Self.session self.new ≡ Self.session self.old) }
        ensures numbers { (d : Numbers) → HasNumbers d (Self.session self.old).holding → HasNumbers d (Self.session self.new).holding }
        ensures served { IfSome result (λ told. (d : Numbers) → HasNumbers d (Self.session self.old).holding
            → ServesSession d told.0 told.1 queue.old queue.new (Self.session self.old) (Self.session self.new)) };
}

/// Steps the lines in order, and gives each reply with its line feed to `out` in one piece.
pub fn run_lines<S: Stepping, O: Sink>(
    alloc: Global,
    session: &mut S,
    lines: &[Line],
    out: &mut O,
) -> Result<(), WriteFault>
    requires { All CanStep lines.now }
    ensures numbers { (d : Numbers) → HasNumbers d (S.session session.old).holding → HasNumbers d (S.session session.new).holding }
    ensures ok { OnOk result ((d : Numbers) → HasNumbers d (S.session session.old).holding
        → RunsSession d lines.now (S.session session.old) (S.session session.new) (O.log out.old) (O.log out.new)) }
    ensures err { OnErr result ((d : Numbers) → HasNumbers d (S.session session.old).holding
        → CutsOffSession d lines.now (S.session session.old) (S.session session.new) (O.log out.old) (O.log out.new)) }
    ensures answered { OnOk result ((d : Numbers) → HasNumbers d (S.session session.old).holding
        → AnswersAll d (S.session session.old) lines.now (S.session session.new) (O.log out.old) (O.log out.new)) }
    ensures answered_front { OnErr result ((d : Numbers) → HasNumbers d (S.session session.old).holding
        → AnswersFront d (S.session session.old) lines.now (S.session session.new) (O.log out.old) (O.log out.new)) }
    ensures grew { Grows (O.log out.old) (O.log out.new) }
    ensures fault { OnErr result (HasFailed (O.log out.old) (O.log out.new)) }
    ensures keeps { (d : Numbers) → HasNumbers d (S.session session.old).holding → KeepsSession d (S.session session.old) (S.session session.new) }
    ensures held { TellsHeld (O.written out.old) (O.written out.new) (O.log out.old) (O.log out.new) }
{
    let mut reply = Reply::Off;
    let mut text = ReplyText::new();
    for line in lines {
        session.step(alloc, line, &mut reply);
        text.set(&reply);
        out.give(text.as_slice())?;
    }
    Ok(())
}
