//! Where bytes come from.

/// A read failed. It comes only where the source's count of faults rose.
#[derive(Debug, Clone, Copy, PartialEq, Eq)]
pub struct ReadFailed;

/// A source of bytes, which come one after another.
pub trait Source {
    ghost use Rattle.std.specs.Prelude.{ℕ, List, Option};
    ghost use Rattle.std.specs.Prelude.{◌<◌, length, OnSome};
    ghost use Rattle.std.specs.Io.{ReadsAtMost};
    ghost use Rattle.std.specs.Io.KnownBytes.{ReadConsumes};
    ghost use Rattle.hol_io.specs.Causes.{HasCause};
    ghost use Rattle.hol_io.specs.Buffer.{KeepsRest};

    // How many faults came so far.
    ghost faults: { Self → ℕ };

    // The bytes that are left to give, where the source tells them.
    ghost left: { Self → Option (List ℕ) };

    /// Places bytes at the front of `buf`, which is not empty, and gives their number. 0 comes only at the end of the
    /// bytes. `ReadFailed` comes only where the count of faults rose, and takes nothing.
    fn read(&mut self, buf: &mut [u8]) -> Result<usize, ReadFailed>
        requires { 0 < length buf.old }
        ensures cause { HasCause (faults self.old) (faults self.new) result }
        ensures bound { ReadsAtMost result buf.new }
        ensures taken { ReadConsumes (left self.old) (left self.new) result buf.new }
        ensures rest { OnSome (left self.old) (KeepsRest buf.old buf.new result) };
}
