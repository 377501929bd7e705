//! What a move of a state hands over: which of its types the step names, and what is kept of each.
ghost use Rattle.std.specs.Prelude.{◌≡◌, ◌<◌, IfOk, Some, false, length, replicate, slice_get};

use crate::past::PastParts;
use hol_varint::List;
use std::alloc::{AllocError, Global};

/// Of each type of a model, in model order, whether a step names it. It lasts as long as the step.
pub type NamedTypes = List<bool>;

/// What a move of a state hands over.
#[derive(Drop)]
pub struct Moved {
    /// Which types the step names: those whose next halves come.
    pub named: NamedTypes,
    /// What is to be kept of each type.
    pub past: PastParts,
}

/// So many types, of which none is named.
pub(crate) fn none_named(alloc: Global, count: u32) -> Result<NamedTypes, AllocError>
    ensures { IfOk result (λ named. named ≡ replicate count false) }
{
    let mut named = NamedTypes::new(alloc);
    for _type_index in 0..count {
        named.push(false)?;
    }
    Ok(named)
}

/// Whether the type at an index is named.
pub(crate) fn is_named(named: &[bool], type_index: u32) -> bool
    requires { type_index < length named.now }
    ensures { slice_get named.now type_index ≡ Some result }
{
    named[type_index as usize]
}
