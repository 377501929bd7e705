//! The line of an order, from which its records are read one by one.
ghost use Rattle.std.specs.Prelude.{◌≡◌, IfOk};
ghost use Rattle.serde_json.specs.Data.{Members, object};
ghost use Rattle.serde_json.specs.View.{view};
ghost use Rattle.record_stream.specs.RecordLine.{TellsRecords, added_by, bare};

use crate::holder::Holder;
use crate::listing::{enter_type, last_place};
use crate::opening::{enter_types, pass_opening};
use json::{Reader, Scratch};
use serde_json::Value;
use std::alloc::AllocError;
use std::marker::Model;

/// The line of an order whose records are read one by one. A clause sees its bytes.
#[derive(Debug, Drop)]
pub struct RecordLine {
    pub(crate) text: String,
    // Which order it is.
    pub(crate) holder: Holder,
    // The names of the types, each with an empty array.
    pub(crate) names: Value,
    // The names of the types in the order of the line, where one may be there twice.
    pub(crate) order: Vec<String>,
}

impl Model for RecordLine {
    ghost use Rattle.std.specs.Prelude.{ℕ, List, map, string_bytes};
    ghost use Rattle.std.specs.Coded.{coded_ℕ, coded_list};

    ghost Value = { List ℕ };

    ghost coded = { coded_list coded_ℕ };

    ghost use Rattle.serde_json.specs.View.{view as value_view};
    ghost use Rattle.record_stream.specs.RecordLine.{IsKept};

    ghost view = { λ a. string_bytes a.text };

    ghost invariant = { λ a. IsKept a.holder (string_bytes a.text) (value_view a.names) (map string_bytes a.order.items) };
}

impl RecordLine {
    /// The names of the types under which records are added, as an object that has an empty array under each.
    pub fn names(&self) -> &Value
        ensures { (members : Members) × (added_by self.now ≡ object members) × (view result.now ≡ object (bare members)) }
    {
        &self.names
    }

    /// A reader that stands at the first record of a type, or `None` exactly where no records are added under its name.
    pub fn records<'a>(
        &'a self,
        scratch: &'a mut Scratch,
        name: &str,
    ) -> Result<Option<Reader<'a>>, AllocError>
        ensures { IfOk result (TellsRecords name.now (added_by self.now)) }
    {
        let Some(place) = last_place(self.order.as_slice(), name) else {
            return Ok(None);
        };
        let mut reader = Reader::new(self.text.as_str(), scratch)?;
        pass_opening(&mut reader);
        enter_types(&mut reader, self.holder.records_name());
        enter_type(&mut reader, place);
        Ok(Some(reader))
    }
}
