//! What a step changed: which rows came, and which left.
ghost use Rattle.std.specs.Prelude.{List, ◌≡◌, ◌<◌, Some, IsSomeAnd, length, slice_get, IfOk};
ghost use Rattle.row_model.specs.Before.{PastPart};

use crate::Row;
use std::alloc::{AllocError, Global};

/// What a step changed of the rows of a state, type by type. With the rows behind the step it gives those before it (`specs/Before.antt`).
pub trait LeftRows {
    /// What the step changed of each type.
    ghost past: { Self → List PastPart };

    /// The ordinals of a type that came, rising.
    fn came(&self, type_index: u32) -> &[u32]
        requires { type_index < length (past self.now) }
        ensures { IsSomeAnd (slice_get (past self.now) type_index) (λ part. part.came ≡ result.now) };

    /// The ordinals of a type that left, rising.
    fn gone(&self, type_index: u32) -> &[u32]
        requires { type_index < length (past self.now) }
        ensures { IsSomeAnd (slice_get (past self.now) type_index) (λ part. part.gone ≡ result.now) };

    /// A copy of the row of a type that left, by the index of its ordinal among those that left.
    fn left(&self, alloc: Global, type_index: u32, index: usize) -> Result<Row, AllocError>
        requires { IsSomeAnd (slice_get (past self.now) type_index) (λ part. index < length part.rows) }
        ensures { IfOk result (λ row. IsSomeAnd (slice_get (past self.now) type_index) (λ part. slice_get part.rows index ≡ Some row)) };
}
