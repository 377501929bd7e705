//! Answers that wait to be written.
ghost use Rattle.std.specs.Prelude.{◌≡◌, ◌<◌, ◌≤◌, ◌⊎◌, ◌^◌, [], IfErr, IfOk, IsErrOf, OnErr, OnOk, length};
ghost use Rattle.std.specs.Io.KnownBytes.{Appends};
ghost use Rattle.hol_io.specs.Causes.{HasCause, Rose};
ghost use Rattle.hol_answers.specs.Reply.{line_of};
ghost use Rattle.hollow_script.specs.Scripted.{FailsWithin, PutsAnswer, PutsReply};

use crate::script_stop::ScriptStop;
use hol_answers::{Reply, put_reply};
use hol_io::{Sink, WriteFailed, write_all};
use std::alloc::Global;

/// Answers wait until they are so many bytes.
const BATCH: usize = 0x8000;

/// Writes what waits. Where the sink fails it gained a front of it, and not all.
pub fn write_waiting<O: Sink>(waiting: &mut Vec<u8>, out: &mut O) -> Result<(), WriteFailed>
    ensures put { IfOk result (λ done. PutsAnswer [] (O.taken out.old) (O.taken out.new) waiting.old.items waiting.new.items) }
    ensures none { IfOk result (λ done. waiting.new.items ≡ []) }
    ensures gained { OnOk result (Appends (O.taken out.old) (O.taken out.new) waiting.old.items) }
    ensures part { OnErr result (FailsWithin waiting.old.items (O.taken out.old) (O.taken out.new)) }
    ensures kept { OnErr result (waiting.new.items ≡ waiting.old.items) }
    ensures cause { HasCause (O.faults out.old) (O.faults out.new) result }
{
    write_all(out, waiting.as_slice())?;
    waiting.clear();
    Ok(())
}

/// Puts an answer behind those that wait, and writes all of them once they are many. Where memory is refused all stays as it was.
#[tactic(auto, using(crate::proofs::Replying::reply_waits))]
pub fn put_answer<O: Sink>(
    alloc: Global,
    reply: Reply,
    waiting: &mut Vec<u8>,
    out: &mut O,
) -> Result<(), ScriptStop>
    ensures put { PutsReply (line_of reply) (O.taken out.old) (O.taken out.new) waiting.old.items waiting.new.items result }
    ensures few { OnOk result (length waiting.new.items < 2 ^ 15) }
    ensures sink_fault { IsErrOf result ScriptStop.Sink → Rose (O.faults out.old) (O.faults out.new) }
    ensures later { O.faults out.old ≤ O.faults out.new }
    ensures others { IfErr result (λ stop. (stop ≡ ScriptStop.Memory) ⊎ (stop ≡ ScriptStop.Sink)) }
{
    put_reply(alloc, waiting, reply)?;
    if waiting.len() < BATCH {
        return Ok(());
    }
    Ok(write_waiting(waiting, out)?)
}
