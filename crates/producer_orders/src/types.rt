//! The names under which a cycle or a change has records.
ghost use Rattle.std.specs.Prelude.{IfOk};
ghost use Rattle.serde_json.specs.Data.{object};
ghost use Rattle.serde_json.specs.View.{view, members_view};
ghost use Rattle.hol_orders.specs.Parts.{added};
ghost use Rattle.hol_orders.specs.Shapes.{AreRecords};
ghost use Rattle.producer_orders.specs.Parts.{TellsUnknown};

use hol_orders::Added;
use schema_model::{Model, Name};
use serde_json::{Map, Value};
use std::alloc::{AllocError, Global};

/// The first name under which records are that is that of no type; `None` exactly where each is that of a type.
pub fn unknown_type(alloc: Global, model: &Model, add: &Added) -> Result<Option<Name>, AllocError>
    requires { AreRecords (added add.now) }
    ensures { IfOk result (TellsUnknown model.now (added add.now)) }
{
    match add {
        Added::Json(json) => unknown_name(alloc, model, json),
        Added::Line(line) => unknown_name(alloc, model, line.names()),
    }
}

// The first name of a member of a JSON object that is that of no type; `None` exactly where each is that of a type.
fn unknown_name(alloc: Global, model: &Model, add: &Value) -> Result<Option<Name>, AllocError>
    requires { AreRecords (view add.now) }
    ensures { IfOk result (TellsUnknown model.now (view add.now)) }
{
    match add {
        Value::Object(members) => unknown_among(alloc, model, members),
        _ => unreachable!(),
    }
}

/// The first name of a member that is that of no type.
pub fn unknown_among(
    alloc: Global,
    model: &Model,
    members: &Map<String, Value>,
) -> Result<Option<Name>, AllocError>
    ensures { IfOk result (TellsUnknown model.now (object (members_view members.now.entries))) }
{
    match members
        .keys()
        .find(|name| model.index_of(name.as_str()).is_none())
    {
        Some(name) => Ok(Some(Name::from_text(alloc, name.as_str())?)),
        None => Ok(None),
    }
}
