//! Why a JSON value is refused.
use schema_model::{Reason, Rule};
use std::alloc::AllocError;

/// Why a JSON value gives no schemas.
#[derive(Debug, Drop)]
pub enum SchemasFault {
    /// The value is no list of schemas.
    Shape,
    /// Some field is a FLOAT or a DOUBLE: the first rule that the list of schemas breaks, and the index of the first type
    /// that breaks it.
    Rule(Rule, u32),
    /// Memory was refused.
    Memory,
}

impl From<AllocError> for SchemasFault {
    ghost use Rattle.std.specs.Prelude.{◌≡◌};
    ghost use Rattle.json_values.specs.declared.fault.SchemasFault.TheVariants.{Memory};

    ghost from_gives = { λ error fault. fault ≡ Memory };

    fn from(error: AllocError) -> SchemasFault {
        SchemasFault::Memory
    }
}

/// Why a JSON value gives no key.
#[derive(Debug, Drop)]
pub enum KeyFault {
    /// The value is no array of the values of a key: there are more or fewer than the key has, or one is of another kind than
    /// its field, out of its range, or null, as which the least INT and the least LONG count.
    Shape,
    /// Memory was refused.
    Memory,
}

impl From<AllocError> for KeyFault {
    ghost use Rattle.std.specs.Prelude.{◌≡◌};
    ghost use Rattle.json_values.specs.declared.fault.KeyFault.TheVariants.{Memory};

    ghost from_gives = { λ error fault. fault ≡ Memory };

    fn from(error: AllocError) -> KeyFault {
        KeyFault::Memory
    }
}

/// Why a JSON value gives no value of a field, or no record.
#[derive(Debug, Drop)]
pub enum ValueFault {
    /// The value does not fit the field, or the record its type, and why.
    Field(Reason),
    /// Memory was refused.
    Memory,
}

impl From<AllocError> for ValueFault {
    ghost use Rattle.std.specs.Prelude.{◌≡◌};
    ghost use Rattle.json_values.specs.declared.fault.ValueFault.TheVariants.{Memory};

    ghost from_gives = { λ error fault. fault ≡ Memory };

    fn from(error: AllocError) -> ValueFault {
        ValueFault::Memory
    }
}
