//! What the order `stat` answers: what a consumer keeps of each type, and the JSON object of it.
ghost use Rattle.std.specs.Prelude.{◌≡◌};
ghost use Rattle.hol_answers.specs.Content.{content_data};
ghost use Rattle.hol_answers.specs.Reply.{max_data};

use crate::member::Content::{Integer, Number, Text};
use crate::member::{Content, send_object};
use crate::to_json::ToJson;
use hol_varint::List;
use schema_model::Name;
use serde::Serializer;
use std::alloc::Global;

/// What a consumer keeps of one type.
#[derive(Drop)]
pub struct TypeCounts {
    /// The name of the type.
    pub type_name: Name,
    /// How many rows are live.
    pub live: u64,
    /// The greatest ordinal that has a place, none where there is no place.
    pub max: Option<u32>,
    /// How many words of 64 bits the rows take where they stand.
    pub words: u64,
    /// How many bytes of STRING and BYTES fields the rows have.
    pub bytes: u64,
}

/// What a consumer keeps of the types of its model, in model order.
pub type TypesCounts = List<TypeCounts>;

// What is kept of one type.
impl ToJson for TypeCounts {
    ghost use Rattle.hol_answers.specs.Reply.{counts_data};

    ghost json = { counts_data };

    fn send<S: Serializer>(&self, alloc: Global, out: &mut S) -> Result<(), S::Error> {
        send_object(
            alloc,
            &[
                ("bytes", Number(self.bytes)),
                ("live", Number(self.live)),
                ("max", max_content(self.max)),
                ("name", Text(self.type_name.text())),
                ("words", Number(self.words)),
            ],
            out,
        )
    }
}

// The greatest ordinal that has a place, -1 where there is no place.
fn max_content(max: Option<u32>) -> Content<'static>
    ensures { content_data result ≡ max_data max }
{
    match max {
        None => Integer(-1),
        Some(max) => Number(u64::from(max)),
    }
}
