//! The live ordinals of the rows that a patch moves others to.
ghost use Rattle.std.specs.Prelude.{◌≡◌, ◌-◌, ◌^◌, ◌<◌, All, IfOk, OnOk};
ghost use Rattle.type_state.specs.Differences.{AreApart};
ghost use Rattle.type_state.specs.Live.{live_with as live_ordinals, with_all, without_all};

use crate::differences::Differences;
use hol_varint::Duplicate;
use ordinal_set::OrdinalSet;
use std::alloc::{AllocError, Global};

/// Takes ordinals out.
fn take_out(set: &mut OrdinalSet, removed: &[u64])
    requires { All (λ ordinal. ordinal < 2 ^ 32) removed.now }
    ensures { set.new ≡ without_all set.old removed.now }
{
    for ordinal in removed {
        set.remove(*ordinal as u32);
    }
}

/// Puts ordinals in.
fn put_in(set: &mut OrdinalSet, added: &[u64]) -> Result<(), AllocError>
    requires { All (λ ordinal. ordinal < 2 ^ 32 - 1) added.now }
    ensures { OnOk result (set.new ≡ with_all set.old added.now) }
{
    for ordinal in added {
        set.insert(*ordinal as u32)?;
    }
    Ok(())
}

/// The live ordinals without those that are removed, and with those that are added.
pub(crate) fn live_with(
    alloc: Global,
    live: &OrdinalSet,
    differences: &Differences<'_, '_>,
) -> Result<OrdinalSet, AllocError>
    requires { AreApart differences.now }
    ensures { IfOk result (λ set. set ≡ live_ordinals live.now differences.now) }
{
    let mut set = live.copy(alloc)?;
    take_out(&mut set, differences.patch.removed.as_slice());
    put_in(&mut set, differences.patch.added.as_slice())?;
    Ok(set)
}
