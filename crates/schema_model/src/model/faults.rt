//! Why schemas are no model, and why a path is not resolved.
use crate::Rule;
use std::alloc::AllocError;

/// Why schemas are not made a model.
#[derive(Debug, Drop)]
pub enum ModelFault {
    /// The first rule that some type breaks, and the index of the first type that breaks it.
    Broken(Rule, u32),
    /// Memory was refused.
    Memory,
}

impl From<AllocError> for ModelFault {
    ghost use Rattle.std.specs.Prelude.{◌≡◌};
    ghost use Rattle.schema_model.specs.declared.model.faults.ModelFault.TheVariants.{Memory};

    ghost from_gives = { λ error fault. fault ≡ Memory };

    fn from(error: AllocError) -> ModelFault {
        ModelFault::Memory
    }
}

/// Why a path is not resolved.
#[derive(Debug, Drop)]
pub enum PathFault {
    /// Its names lead to no value.
    BadPath,
    /// Memory was refused.
    Memory,
}

impl From<AllocError> for PathFault {
    ghost use Rattle.std.specs.Prelude.{◌≡◌};
    ghost use Rattle.schema_model.specs.declared.model.faults.PathFault.TheVariants.{Memory};

    ghost from_gives = { λ error fault. fault ≡ Memory };

    fn from(error: AllocError) -> PathFault {
        PathFault::Memory
    }
}
