//! The writing of an answer of one line.
ghost use Rattle.std.specs.Prelude.{◌≡◌, IsErrOf};
ghost use Rattle.hol_io.specs.Causes.{Rose};
ghost use Rattle.hollow_top.specs.Command.{IsLineOf};
ghost use Rattle.hollow_top.specs.Stopping.{IsVerdict, Leaves};

use crate::stop::Stop;
use hol_answers::{Reply, reply_line};
use hol_io::{Sink, write_all};
use std::alloc::Global;

/// Writes the line of an answer, and tells whether it is a refusal.
pub fn write_reply<O: Sink>(alloc: Global, reply: Reply, out: &mut O) -> Result<bool, Stop>
    ensures written { Leaves (IsLineOf (λ answer. answer ≡ reply)) (O.taken out.old) (O.taken out.new) result }
    ensures verdict { Leaves IsVerdict (O.taken out.old) (O.taken out.new) result }
    ensures sink_fault { IsErrOf result Stop.Sink → Rose (O.faults out.old) (O.faults out.new) }
    ensures no_store { IsErrOf result Stop.Store → ⊥ }
    ensures silent { IsErrOf result Stop.Memory → out.new ≡ out.old }
{
    let refused = reply.is_refusal();
    let line = reply_line(alloc, reply)?;
    write_all(out, line.as_bytes())?;
    Ok(refused)
}
