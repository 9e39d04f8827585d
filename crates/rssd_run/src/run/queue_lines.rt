//! The lines of a script through a queue. A `write`, `read` or `trim` waits in the queue, and is carried out when it is served;
//! before any other line, and at the end, all that waits is served. A line that may not wait is answered at once.
ghost use Rattle.std.specs.Prelude.{◌≡◌, ◌≢◌, ℕ, ◌+◌, ◌^◌, ◌<◌, ◌≤◌, List, [], ◌∷◌, true, false, length, Some, IfOk, OnOk, OnErr};
ghost use Rattle.std.specs.List.{All};
ghost use Rattle.rssd_core.specs.DeviceValue.{Numbers};
ghost use Rattle.rssd_io.specs.Event.{Gave};
ghost use Rattle.rssd_queue.specs.declared.ask.Ask.{Ask as Asked};
ghost use Rattle.rssd_queue.specs.Waiting.{Waiting, Accepts, waits};
ghost use Rattle.rssd_script.specs.declared.lines.Line.{Line as Spelled};
ghost use Rattle.rssd_script.specs.Replies.{tagged_line};
ghost use Rattle.rssd_io.specs.Told.{TellsHeld};
ghost use Rattle.rssd_run.specs.Shows.{CanStep, HasNumbers};
ghost use Rattle.rssd_run.specs.Serves.{IsQueueOf, is_running, ask_of as asked};
ghost use Rattle.rssd_run.specs.QueueActs.{place, IsServeDue, IsServeAllDue, IsAtOnceDue, IsUnfit, TookOne, ActsSession, CutsOffActs};

use crate::run::Serving;
use crate::run::served::ask_of;
use rssd_io::{Sink, WriteFault};
use rssd_queue::{Queue, Tagged};
use rssd_script::{Line, Reply, print_tagged};
use std::alloc::Global;

/// Gives a reply with the number of its line to `out`, in one piece.
fn tell<O: Sink>(out: &mut O, tag: u32, reply: &Reply) -> Result<(), WriteFault>
    ensures given { Gave result (tagged_line tag reply.now) (O.log out.old) (O.log out.new) }
    ensures held { TellsHeld (O.written out.old) (O.written out.new) (O.log out.old) (O.log out.new) }
{
    out.give(print_tagged(tag, reply).as_slice())
}

/// Serves the next command and tells its reply. The answer is whether one waited.
fn serve_next<S: Serving, O: Sink>(
    session: &mut S,
    queue: &mut Queue,
    out: &mut O,
) -> Result<bool, WriteFault>
    requires queue_of { IsQueueOf queue.old (S.session session.old).holding }
    ensures numbers { (d : Numbers) → HasNumbers d (S.session session.old).holding → HasNumbers d (S.session session.new).holding }
    ensures queue_of { IsQueueOf queue.new (S.session session.new).holding }
    ensures ok { OnOk result ((d : Numbers) → HasNumbers d (S.session session.old).holding → (lines : List Spelled) (tag : ℕ) → IsServeDue (is_running (S.session session.old).holding) queue.old lines
        → ActsSession d (place lines tag queue.old) (S.session session.old) (place lines tag queue.new) (S.session session.new) (O.log out.old) (O.log out.new)) }
    ensures err { OnErr result ((d : Numbers) → HasNumbers d (S.session session.old).holding → (lines : List Spelled) (tag : ℕ)
        → IsServeDue (is_running (S.session session.old).holding) queue.old lines
        → CutsOffActs d (place lines tag queue.old) (S.session session.old) (S.session session.new) (O.log out.old) (O.log out.new)) }
    ensures one { IfOk result (λ one. TookOne one queue.old queue.new) }
    ensures held { TellsHeld (O.written out.old) (O.written out.new) (O.log out.old) (O.log out.new) }
{
    let Some((tag, reply)) = session.serve(queue) else {
        return Ok(false);
    };
    tell(out, tag, &reply)?;
    Ok(true)
}

/// Serves all that waits.
fn serve_all<S: Serving, O: Sink>(
    session: &mut S,
    queue: &mut Queue,
    out: &mut O,
) -> Result<(), WriteFault>
    requires queue_of { IsQueueOf queue.old (S.session session.old).holding }
    ensures numbers { (d : Numbers) → HasNumbers d (S.session session.old).holding → HasNumbers d (S.session session.new).holding }
    ensures queue_of { IsQueueOf queue.new (S.session session.new).holding }
    ensures ok { OnOk result ((d : Numbers) → HasNumbers d (S.session session.old).holding → (lines : List Spelled) (tag : ℕ) → IsServeAllDue lines
        → ActsSession d (place lines tag queue.old) (S.session session.old) (place lines tag queue.new) (S.session session.new) (O.log out.old) (O.log out.new)) }
    ensures err { OnErr result ((d : Numbers) → HasNumbers d (S.session session.old).holding → (lines : List Spelled) (tag : ℕ) → IsServeAllDue lines
        → CutsOffActs d (place lines tag queue.old) (S.session session.old) (S.session session.new) (O.log out.old) (O.log out.new)) }
    ensures none_waits { OnOk result (queue.new.commands ≡ []) }
    ensures held { TellsHeld (O.written out.old) (O.written out.new) (O.log out.old) (O.log out.new) }
{
    while serve_next(session, queue, out)? {}
    Ok(())
}

/// Makes room for a command: one serve, where the session is on and the queue is full.
fn make_room<S: Serving, O: Sink>(
    session: &mut S,
    queue: &mut Queue,
    out: &mut O,
) -> Result<(), WriteFault>
    requires queue_of { IsQueueOf queue.old (S.session session.old).holding }
    ensures numbers { (d : Numbers) → HasNumbers d (S.session session.old).holding → HasNumbers d (S.session session.new).holding }
    ensures queue_of { IsQueueOf queue.new (S.session session.new).holding }
    ensures ok { OnOk result ((d : Numbers) → HasNumbers d (S.session session.old).holding → (line : Spelled) (ask : Asked) (lines : List Spelled) (tag : ℕ) → asked line ≡ Some ask
        → ActsSession d (place (line ∷ lines) tag queue.old) (S.session session.old) (place (line ∷ lines) tag queue.new) (S.session session.new) (O.log out.old) (O.log out.new)) }
    ensures err { OnErr result ((d : Numbers) → HasNumbers d (S.session session.old).holding → (line : Spelled) (ask : Asked) (lines : List Spelled) (tag : ℕ) → asked line ≡ Some ask
        → CutsOffActs d (place (line ∷ lines) tag queue.old) (S.session session.old) (S.session session.new) (O.log out.old) (O.log out.new)) }
    ensures room { OnOk result (is_running (S.session session.new).holding ≡ true → length queue.new.commands ≢ 32) }
    ensures tags { OnOk result ((n : ℕ) → waits queue.old.commands n ≡ false → waits queue.new.commands n ≡ false) }
    ensures held { TellsHeld (O.written out.old) (O.written out.new) (O.log out.old) (O.log out.new) }
{
    if session.is_on() && queue.is_full() {
        serve_next(session, queue, out)?;
    }
    Ok(())
}

/// Puts a command where the session is on and the queue accepts it. The answer is whether it waits.
fn put<S: Serving>(session: &S, queue: &mut Queue, command: Tagged) -> bool
    requires new_tag { waits queue.old.commands command.tag ≡ false }
    requires room { is_running (S.session session.now).holding ≡ true → length queue.old.commands ≢ 32 }
    ensures put { result ≡ true → (is_running (S.session session.now).holding ≡ true) × Accepts queue.old command queue.new }
    ensures same { result ≡ false → queue.new ≡ queue.old }
    ensures unfit { result ≡ false → is_running (S.session session.now).holding ≡ true → (length queue.old.commands < 32) × IsUnfit queue.old command.ask }
{
    session.is_on() && queue.put(command).is_ok()
}

/// Carries out a line at once and tells its reply.
fn answer_at_once<S: Serving, O: Sink>(
    alloc: Global,
    session: &mut S,
    tag: u32,
    line: &Line,
    out: &mut O,
) -> Result<(), WriteFault>
    requires { CanStep line.now }
    ensures numbers { (d : Numbers) → HasNumbers d (S.session session.old).holding → HasNumbers d (S.session session.new).holding }
    ensures ok { OnOk result ((d : Numbers) → HasNumbers d (S.session session.old).holding → (lines : List Spelled) (queue : Waiting)
        → IsAtOnceDue (is_running (S.session session.old).holding) queue line.now
        → ActsSession d (place (line.now ∷ lines) tag queue) (S.session session.old) (place lines (tag + 1) queue) (S.session session.new) (O.log out.old) (O.log out.new)) }
    ensures err { OnErr result ((d : Numbers) → HasNumbers d (S.session session.old).holding → (lines : List Spelled) (queue : Waiting)
        → IsAtOnceDue (is_running (S.session session.old).holding) queue line.now
        → CutsOffActs d (place (line.now ∷ lines) tag queue) (S.session session.old) (S.session session.new) (O.log out.old) (O.log out.new)) }
    ensures held { TellsHeld (O.written out.old) (O.written out.new) (O.log out.old) (O.log out.new) }
{
    let mut reply = Reply::Off;
    session.step(alloc, line, &mut reply);
    tell(out, tag, &reply)
}

/// Puts a write, read or trim where it may wait, and serves all that waits before any other line. The answer is whether the line
/// waits; if not, it is to be answered at once.
fn line_waits<S: Serving, O: Sink>(
    session: &mut S,
    queue: &mut Queue,
    tag: u32,
    line: &Line,
    out: &mut O,
) -> Result<bool, WriteFault>
    requires queue_of { IsQueueOf queue.old (S.session session.old).holding }
    requires new_tags { (n : ℕ) → tag ≤ n → waits queue.old.commands n ≡ false }
    ensures numbers { (d : Numbers) → HasNumbers d (S.session session.old).holding → HasNumbers d (S.session session.new).holding }
    ensures queue_of { IsQueueOf queue.new (S.session session.new).holding }
    ensures put { IfOk result (λ waiting. waiting ≡ true → (d : Numbers) → HasNumbers d (S.session session.old).holding → (lines : List Spelled)
        → ActsSession d (place (line.now ∷ lines) tag queue.old) (S.session session.old) (place lines (tag + 1) queue.new) (S.session session.new) (O.log out.old) (O.log out.new)) }
    ensures not_put { IfOk result (λ waiting. waiting ≡ false → (d : Numbers) → HasNumbers d (S.session session.old).holding → (lines : List Spelled)
        → ActsSession d (place (line.now ∷ lines) tag queue.old) (S.session session.old) (place (line.now ∷ lines) tag queue.new) (S.session session.new) (O.log out.old) (O.log out.new)) }
    ensures due { IfOk result (λ waiting. waiting ≡ false → IsAtOnceDue (is_running (S.session session.new).holding) queue.new line.now) }
    ensures err { OnErr result ((d : Numbers) → HasNumbers d (S.session session.old).holding → (lines : List Spelled)
        → CutsOffActs d (place (line.now ∷ lines) tag queue.old) (S.session session.old) (S.session session.new) (O.log out.old) (O.log out.new)) }
    ensures tags { OnOk result ((n : ℕ) → tag + 1 ≤ n → waits queue.new.commands n ≡ false) }
    ensures held { TellsHeld (O.written out.old) (O.written out.new) (O.log out.old) (O.log out.new) }
{
    match ask_of(line) {
        Some(ask) => {
            make_room(session, queue, out)?;
            Ok(put(session, queue, Tagged { tag, ask }))
        }
        None => {
            serve_all(session, queue, out)?;
            Ok(false)
        }
    }
}

/// Takes the line with this number.
fn take_line<S: Serving, O: Sink>(
    alloc: Global,
    session: &mut S,
    queue: &mut Queue,
    tag: u32,
    line: &Line,
    out: &mut O,
) -> Result<(), WriteFault>
    requires queue_of { IsQueueOf queue.old (S.session session.old).holding }
    requires can_step { CanStep line.now }
    requires new_tags { (n : ℕ) → tag ≤ n → waits queue.old.commands n ≡ false }
    ensures numbers { (d : Numbers) → HasNumbers d (S.session session.old).holding → HasNumbers d (S.session session.new).holding }
    ensures queue_of { IsQueueOf queue.new (S.session session.new).holding }
    ensures ok { OnOk result ((d : Numbers) → HasNumbers d (S.session session.old).holding → (lines : List Spelled)
        → ActsSession d (place (line.now ∷ lines) tag queue.old) (S.session session.old) (place lines (tag + 1) queue.new) (S.session session.new) (O.log out.old) (O.log out.new)) }
    ensures err { OnErr result ((d : Numbers) → HasNumbers d (S.session session.old).holding → (lines : List Spelled)
        → CutsOffActs d (place (line.now ∷ lines) tag queue.old) (S.session session.old) (S.session session.new) (O.log out.old) (O.log out.new)) }
    ensures tags { OnOk result ((n : ℕ) → tag + 1 ≤ n → waits queue.new.commands n ≡ false) }
    ensures held { TellsHeld (O.written out.old) (O.written out.new) (O.log out.old) (O.log out.new) }
{
    if line_waits(session, queue, tag, line, out)? {
        return Ok(());
    }
    answer_at_once(alloc, session, tag, line, out)
}

/// Takes the lines in order, and then serves all that waits. Each reply is given with the number of its line in one piece.
pub fn queue_lines<S: Serving, O: Sink>(
    alloc: Global,
    session: &mut S,
    queue: &mut Queue,
    lines: &[Line],
    out: &mut O,
) -> Result<(), WriteFault>
    requires queue_of { IsQueueOf queue.old (S.session session.old).holding }
    requires can_step { All CanStep lines.now }
    requires none_waits { queue.old.commands ≡ [] }
    requires few_lines { length lines.now < 2 ^ 32 }
    ensures ok { OnOk result ((d : Numbers) → HasNumbers d (S.session session.old).holding
        → ActsSession d (place lines.now 1 queue.old) (S.session session.old) (place [] (length lines.now + 1) queue.new) (S.session session.new) (O.log out.old) (O.log out.new)) }
    ensures err { OnErr result ((d : Numbers) → HasNumbers d (S.session session.old).holding
        → CutsOffActs d (place lines.now 1 queue.old) (S.session session.old) (S.session session.new) (O.log out.old) (O.log out.new)) }
    ensures done { OnOk result (queue.new.commands ≡ []) }
    ensures held { TellsHeld (O.written out.old) (O.written out.new) (O.log out.old) (O.log out.new) }
{
    let mut tag = 0;
    for line in lines {
        tag += 1;
        take_line(alloc, session, queue, tag, line, out)?;
    }
    serve_all(session, queue, out)
}
