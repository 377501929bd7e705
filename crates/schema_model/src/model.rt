//! Models: schemas that keep the rules, with the index of their names.
ghost use Rattle.std.specs.Prelude.{◌≡◌, ◌<◌, ◌≤◌, ◌↔◌, ℕ, [], length, Some, None, slice_get, Contains};
ghost use Rattle.schema_model.specs.Model.{IsModel};
ghost use Rattle.schema_model.specs.NameIndex.{Indexes};
ghost use Rattle.schema_model.specs.Parts.{index_of_type, type_names};

pub(crate) mod faults;
pub(crate) mod name_index;
pub(crate) mod path;
pub(crate) mod rule;
pub(crate) mod walk_path;

use crate::model::name_index::{NameIndex, find_name};
use crate::{Schema, Schemas};
use std::alloc::Global;
use std::collections::BTreeMap;

/// The types of a data set: schemas that keep the rules of a model. Contracts see the list of its schemas.
#[derive(Drop)]
pub struct Model {
    schemas: Schemas,
    index: NameIndex,
}

impl std::marker::Model for Model {
    ghost use Rattle.std.specs.Prelude.{List};
    ghost use Rattle.schema_model.specs.NameIndex.{Indexes};
    ghost use Rattle.schema_model.specs.Model.{IsModel};
    ghost use Rattle.schema_model.specs.Parts.{type_names};
    ghost use Rattle.schema_model.specs.declared.schema.Schema.{Schema};

    ghost Value = { List Schema };

    ghost view = { λ a. a.schemas };

    ghost invariant = { λ a. IsModel a.schemas × Indexes (type_names a.schemas) a.index };
}

impl Model {
    /// The model without types. It takes no memory.
    pub fn none(alloc: Global) -> Model
        ensures { result ≡ [] }
    {
        Model {
            schemas: Schemas::new(alloc),
            index: BTreeMap::new(alloc),
        }
    }

    /// The model of schemas that keep the rules, with the index of their names. It takes no memory.
    pub fn from_schemas(schemas: Schemas, index: NameIndex) -> Model
        requires model { IsModel schemas }
        requires indexed { Indexes (type_names schemas) index }
        ensures { result ≡ schemas }
    {
        Model { schemas, index }
    }

    /// How many types there are.
    pub fn len(&self) -> u32
        ensures count { result ≡ length self.now }
        ensures few { result ≤ 512 }
        ensures model { IsModel self.now }
    {
        self.schemas.len() as u32
    }

    /// The schemas of the types, in order.
    pub fn schemas(&self) -> &Schemas
        ensures value { result.now ≡ self.now }
        ensures model { IsModel self.now }
    {
        &self.schemas
    }

    /// The schema of a type.
    pub fn schema(&self, type_index: u32) -> &Schema
        requires { type_index < length self.now }
        ensures value { slice_get self.now type_index ≡ Some result.now }
        ensures model { IsModel self.now }
    {
        self.schemas.get(type_index as usize)
    }

    /// The index of the type of this name.
    pub fn index_of(&self, name: &str) -> Option<u32>
        ensures value { result ≡ index_of_type self.now name.now }
        ensures found { (type_index : ℕ) → (result ≡ Some type_index) ↔ (slice_get (type_names self.now) type_index ≡ Some name.now) }
        ensures missing { (result ≡ None) ↔ (¬ Contains (type_names self.now) name.now) }
        ensures model { IsModel self.now }
    {
        find_name(&self.index, name)
    }

    /// The index of the types' names.
    pub fn names(&self) -> &NameIndex
        ensures indexed { Indexes (type_names self.now) result.now }
        ensures model { IsModel self.now }
    {
        &self.index
    }
}
