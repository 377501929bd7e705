//! Where bytes go.
ghost use Rattle.std.specs.Prelude.{◌≡◌, ℕ, ◌<◌, length, take, OnOk, OnErr};
ghost use Rattle.std.specs.Io.KnownBytes.{Appends};
ghost use Rattle.hol_io.specs.Causes.{HasCause};

/// A write failed. It comes only where the sink's count of faults rose.
#[derive(Debug, Clone, Copy, PartialEq, Eq)]
pub struct WriteFailed;

/// A sink of bytes, which takes them one after another.
pub trait Sink {
    ghost use Rattle.std.specs.Prelude.{ℕ, List, Option, ◌≤◌, ◌<◌, length, IfOk};
    ghost use Rattle.std.specs.Io.KnownBytes.{WriteAppends};
    ghost use Rattle.hol_io.specs.Causes.{HasCause};

    // How many faults came so far.
    ghost faults: { Self → ℕ };

    // The bytes that were taken so far, where the sink tells them.
    ghost taken: { Self → Option (List ℕ) };

    /// Takes bytes from the front of `piece`, which is not empty, and gives their number, which is
    /// at least 1: a sink that can take nothing fails.
    /// `WriteFailed` comes only where the count of faults rose, and then nothing was taken.
    fn write(&mut self, piece: &[u8]) -> Result<usize, WriteFailed>
        requires { 0 < length piece.now }
        ensures cause { HasCause (faults self.old) (faults self.new) result }
        ensures some { IfOk result (λ count. 0 < count) }
        ensures bound { IfOk result (λ count. count ≤ length piece.now) }
        ensures appended { WriteAppends (taken self.old) (taken self.new) result piece.now };
}

/// Writes all of the bytes. After a failure, which comes only where the count of faults rose, the
/// first of them were taken, and not all. It takes no memory.
#[tactic(auto, using(crate::proofs::Pieces::writing))]
pub fn write_all<O: Sink>(out: &mut O, bytes: &[u8]) -> Result<(), WriteFailed>
    ensures cause { HasCause (O.faults out.old) (O.faults out.new) result }
    ensures written { OnOk result (Appends (O.taken out.old) (O.taken out.new) bytes.now) }
    ensures part { OnErr result ((count : ℕ) × (count < length bytes.now)
        × Appends (O.taken out.old) (O.taken out.new) (take count bytes.now)) }
{
    let mut done = 0;
    while done < bytes.len() {
        done += out.write(&bytes[done..])?;
    }
    Ok(())
}
