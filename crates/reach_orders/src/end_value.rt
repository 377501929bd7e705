//! The value of what stands at the end of a walk path, from its JSON.
ghost use Rattle.std.specs.Prelude.{◌≡◌, IsSomeAnd, Some};
ghost use Rattle.serde_json.specs.View.{view};
ghost use Rattle.closed_rows.specs.Dangling.{IsPlain};
ghost use Rattle.schema_model.specs.WalkPath.{part_kind};
ghost use Rattle.hollow_machine.specs.WalkOrders.{kind_walked};
ghost use Rattle.reach_orders.specs.Walked.{TellsEnd};

use hol_paths::type_behind;
use json_values::{KeyFault, part_from};
use row_model::Value as FieldValue;
use schema_model::{FieldKind, Model, Shape, WalkPart, WalkPath};
use serde_json::Value;
use std::alloc::Global;

/// The value of what stands at the end of a walk path. `Shape` where the JSON is of another kind, out of its range, or null, as which the least INT and the least
/// LONG count.
pub(crate) fn end_value(
    alloc: Global,
    model: &Model,
    path: &WalkPath,
    value: &Value,
) -> Result<FieldValue, KeyFault>
    requires { IsSomeAnd (kind_walked model.now path.now.type_index path.now.parts) IsPlain }
    ensures { TellsEnd model.now path.now (view value.now) result }
{
    let kind = kind_behind(model, path.type_index, path.parts.as_slice());
    part_from(alloc, kind, value)
}

// The kind of what stands at the end of parts from a type.
fn kind_behind<'a>(model: &'a Model, type_index: u32, parts: &[WalkPart]) -> &'a FieldKind
    requires { IsSomeAnd (kind_walked model.now type_index parts.now) IsPlain }
    ensures kind { kind_walked model.now type_index parts.now ≡ Some result.now }
    ensures plain { IsPlain result.now }
{
    let [part, rest @ ..] = parts else {
        unreachable!();
    };
    if rest.is_empty() {
        return field_kind(&model.schema(type_index).shape, *part);
    }
    match type_behind(model, type_index, *part) {
        Some(next) => kind_behind(model, next, rest),
        None => unreachable!(),
    }
}

// The kind of a part of a type of this shape that is a field without a reference.
fn field_kind(shape: &Shape, part: WalkPart) -> &FieldKind
    requires { IsSomeAnd (part_kind shape.now part) IsPlain }
    ensures kind { part_kind shape.now part ≡ Some result.now }
    ensures plain { IsPlain result.now }
{
    match (shape, part) {
        (Shape::Object(_, fields), WalkPart::Field(place)) => &fields.get(place as usize).kind,
        _ => unreachable!(),
    }
}
