//! The fields of a blob's type, found by their names.
ghost use Rattle.std.specs.Prelude.{◌≡◌, ◌∷◌, ◌++◌, ◌≤◌, ℕ, List, [], length, OnOk};
ghost use Rattle.schema_model.specs.NameIndex.{Indexes};

use schema_model::Field;
use std::alloc::{AllocError, Global};
use std::collections::BTreeMap;
use std::marker::Model;

/// The fields of a blob's type, found by their names. Contracts see the list of them.
#[derive(Drop)]
pub(crate) struct NamedFields<'a> {
    fields: &'a [Field],
    places: BTreeMap<String, u32>,
}

impl<'a> Model for NamedFields<'a> {
    ghost use Rattle.std.specs.Prelude.{List};
    ghost use Rattle.schema_model.specs.NameIndex.{Indexes};
    ghost use Rattle.schema_model.specs.declared.schema.Field.{Field};
    ghost use Rattle.schema_model.specs.Parts.{field_names};

    ghost Value = { List Field };

    ghost view = { λ named. named.fields.now };

    ghost invariant = { λ named. Indexes (field_names named.fields.now) named.places };
}

impl<'a> NamedFields<'a> {
    ghost use Rattle.std.specs.Prelude.{◌≡◌, ◌<◌, ◌≤◌, IfOk, IfSome, length};
    ghost use Rattle.seen_patches.specs.ByName.{field_in};

    /// The fields, which are 1,024 at most.
    pub(crate) fn new(alloc: Global, fields: &'a [Field]) -> Result<NamedFields<'a>, AllocError>
        requires { length fields.now ≤ 1024 }
        ensures { IfOk result (λ named. named ≡ fields.now) }
    {
        let mut places = BTreeMap::new(alloc);
        for (place, field) in fields.iter().enumerate() {
            add_name(alloc, &mut places, field.name.text(), place as u32)?;
        }
        Ok(NamedFields { fields, places })
    }

    /// The index of the first field of a name, if there is one.
    pub(crate) fn find(&self, name: &str) -> Option<u32>
        ensures is { result ≡ field_in self.now name.now }
        ensures inside { IfSome result (λ place. place < length self.now) }
    {
        self.places.get(name).copied()
    }
}

// Adds a name at the next index, unless it stands earlier.
fn add_name(
    alloc: Global,
    places: &mut BTreeMap<String, u32>,
    name: &str,
    place: u32,
) -> Result<(), AllocError>
    ensures { OnOk result ((names : List (List ℕ)) → Indexes names places.old → length names ≡ place → Indexes (names ++ name.now ∷ []) places.new) }
{
    if places.contains_key(name) {
        return Ok(());
    }
    places.insert(String::from_str(alloc, name)?, place)?;
    Ok(())
}
