//! The index of names: each by the first index at which it stands.
ghost use Rattle.std.specs.Prelude.{◌≡◌, ◌≤◌, ◌++◌, ◌∷◌, ℕ, List, [], length, IfOk, OnOk, is_none};
ghost use Rattle.std.specs.BTreeMap.{get_by_text};
ghost use Rattle.schema_model.specs.NameIndex.{Indexes};
ghost use Rattle.schema_model.specs.Parts.{type_names};

use schema_model::{NameIndex, Schemas};
use std::alloc::{AllocError, Global};
use std::collections::BTreeMap;

/// Adds the name at the next index, unless it stands earlier. Whether it was added.
pub(crate) fn add_name(
    alloc: Global,
    index: &mut NameIndex,
    name: &str,
    place: u32,
) -> Result<bool, AllocError>
    ensures added { IfOk result (λ fresh. fresh ≡ is_none (get_by_text index.old name.now)) }
    ensures indexes { OnOk result ((names : List (List ℕ)) → Indexes names index.old → length names ≡ place → Indexes (names ++ name.now ∷ []) index.new) }
{
    if index.contains_key(name) {
        return Ok(false);
    }
    index.insert(String::from_str(alloc, name)?, place)?;
    Ok(true)
}

/// The index of the types' names.
pub(crate) fn index_types(alloc: Global, schemas: &Schemas) -> Result<NameIndex, AllocError>
    requires { length schemas.now ≤ 512 }
    ensures { IfOk result (Indexes (type_names schemas.now)) }
{
    let mut index = BTreeMap::new(alloc);
    for type_index in 0..schemas.len() {
        add_name(
            alloc,
            &mut index,
            schemas.get(type_index).name.text(),
            type_index as u32,
        )?;
    }
    Ok(index)
}
