//! The two states of a producer, each seen alone as rows.
ghost use Rattle.std.specs.Prelude.{◌≡◌};
ghost use Rattle.row_model.specs.Table.{IsTableOf};
ghost use Rattle.write_engine.specs.Production.{current_of, previous_of};

use hol_varint::Duplicate;
use ordinal_map::OrdinalMap;
use ordinal_set::OrdinalSet;
use row_model::{LentRow, Row, Rows};
use row_packing::OrdinalRows;
use schema_model::Model;
use std::alloc::{AllocError, Global};

/// The rows of a producer's previous state.
#[derive(Drop)]
pub struct Previous<'a> {
    model: &'a Model,
    maps: &'a [OrdinalMap],
}

impl<'a> std::marker::Model for Previous<'a> {
    ghost use Rattle.row_model.specs.Table.{IsTableOf};
    ghost use Rattle.write_engine.specs.Production.{Content, content_code, previous_of};

    ghost Value = { Content };

    ghost coded = { content_code };

    ghost view = { λ r. record { schemas = r.model.now; table = previous_of r.maps.now } };

    ghost invariant = { λ r. IsTableOf r.model.now (previous_of r.maps.now) };
}

impl<'a> Previous<'a> {
    // The previous rows of these maps, which are those of the model's types.
    pub(crate) fn new(model: &'a Model, maps: &'a [OrdinalMap]) -> Previous<'a>
        requires { IsTableOf model.now (previous_of maps.now) }
        ensures schemas { result.schemas ≡ model.now }
        ensures table { result.table ≡ previous_of maps.now }
    {
        Previous { model, maps }
    }
}

impl<'a> Rows for Previous<'a> {
    ghost schemas = { λ rows. rows.schemas };

    ghost table = { λ rows. rows.table };

    fn model(&self) -> &Model {
        self.model
    }

    fn bound(&self, type_index: u32) -> u32 {
        match self.maps.get(type_index as usize) {
            Some(rows) => rows.previous_bound(),
            None => 0,
        }
    }

    fn is_live(&self, type_index: u32, ordinal: u32) -> bool {
        match self.maps.get(type_index as usize) {
            Some(rows) => rows.previous_has(ordinal),
            None => false,
        }
    }

    fn row(&self, alloc: Global, type_index: u32, ordinal: u32) -> Result<Row, AllocError> {
        self.maps[type_index as usize].row(ordinal).copy(alloc)
    }

    fn lend(
        &self,
        _alloc: Global,
        type_index: u32,
        ordinal: u32,
    ) -> Result<LentRow<'_>, AllocError> {
        Ok(LentRow::Kept(self.maps[type_index as usize].row(ordinal)))
    }
}

impl<'a> OrdinalRows for Previous<'a> {
    fn ordinals(&self, type_index: u32) -> &OrdinalSet {
        self.maps[type_index as usize].previous_ordinals()
    }
}

/// The rows of a producer's cycle so far.
#[derive(Drop)]
pub struct Current<'a> {
    model: &'a Model,
    maps: &'a [OrdinalMap],
}

impl<'a> std::marker::Model for Current<'a> {
    ghost use Rattle.row_model.specs.Table.{IsTableOf};
    ghost use Rattle.write_engine.specs.Production.{Content, content_code, current_of};

    ghost Value = { Content };

    ghost coded = { content_code };

    ghost view = { λ r. record { schemas = r.model.now; table = current_of r.maps.now } };

    ghost invariant = { λ r. IsTableOf r.model.now (current_of r.maps.now) };
}

impl<'a> Current<'a> {
    // The current rows of these maps, which are those of the model's types.
    pub(crate) fn new(model: &'a Model, maps: &'a [OrdinalMap]) -> Current<'a>
        requires { IsTableOf model.now (current_of maps.now) }
        ensures schemas { result.schemas ≡ model.now }
        ensures table { result.table ≡ current_of maps.now }
    {
        Current { model, maps }
    }
}

impl<'a> Rows for Current<'a> {
    ghost schemas = { λ rows. rows.schemas };

    ghost table = { λ rows. rows.table };

    fn model(&self) -> &Model {
        self.model
    }

    fn bound(&self, type_index: u32) -> u32 {
        match self.maps.get(type_index as usize) {
            Some(rows) => rows.current_bound(),
            None => 0,
        }
    }

    fn is_live(&self, type_index: u32, ordinal: u32) -> bool {
        match self.maps.get(type_index as usize) {
            Some(rows) => rows.current_has(ordinal),
            None => false,
        }
    }

    fn row(&self, alloc: Global, type_index: u32, ordinal: u32) -> Result<Row, AllocError> {
        self.maps[type_index as usize].row(ordinal).copy(alloc)
    }

    fn lend(
        &self,
        _alloc: Global,
        type_index: u32,
        ordinal: u32,
    ) -> Result<LentRow<'_>, AllocError> {
        Ok(LentRow::Kept(self.maps[type_index as usize].row(ordinal)))
    }
}

impl<'a> OrdinalRows for Current<'a> {
    fn ordinals(&self, type_index: u32) -> &OrdinalSet {
        self.maps[type_index as usize].current_ordinals()
    }
}
