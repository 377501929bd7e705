//! What JSON values can stand for: single things, and arrays of them.
ghost use Rattle.std.specs.Prelude.{◌≡◌, ◌↔◌, List as Items, IfOk, IsTrue};
ghost use Rattle.serde_json.specs.View.{view, items_view};
ghost use Rattle.json_values.specs.SchemaJson.{ItemsAre};

use hol_varint::List;
use schema_model::Name;
use serde_json::Value;
use std::alloc::{AllocError, Global};

/// What a JSON value can stand for.
pub(crate) trait JsonForm: Drop + Sized {
    ghost use Rattle.std.specs.Prelude.{◌≡◌, ◌↔◌, IfOk, IsTrue};
    ghost use Rattle.serde_json.specs.Data.{Data};
    ghost use Rattle.serde_json.specs.View.{view};

    // The value stands for this one.
    ghost stands: { Data → Self → Type 0 };

    /// Whether a value stands for one.
    fn is_form(value: &Value) -> bool
        ensures { IsTrue result ↔ ((one : Self) × stands (view value.now) one) };

    /// The one for which a value stands. It fails only where memory is refused.
    fn from_form(alloc: Global, value: &Value) -> Result<Self, AllocError>
        requires { (one : Self) × stands (view value.now) one }
        ensures { IfOk result (stands (view value.now)) };
}

/// Whether each of these values stands for one.
pub(crate) fn each_is_form<T: JsonForm>(values: &[Value]) -> bool
    ensures { IsTrue result ↔ ((ones : Items T) × ItemsAre T.stands (items_view values.now) ones) }
{
    for value in values {
        if !T::is_form(value) {
            return false;
        }
    }
    true
}

/// Those for which the values of an array stand. It fails only where memory is refused.
pub(crate) fn all_from_forms<T: JsonForm>(
    alloc: Global,
    values: &[Value],
) -> Result<List<T>, AllocError>
    requires { (ones : Items T) × ItemsAre T.stands (items_view values.now) ones }
    ensures { IfOk result (λ list. ItemsAre T.stands (items_view values.now) list) }
{
    let mut list = List::with_capacity(alloc, values.len())?;
    for value in values {
        list.push(T::from_form(alloc, value)?)?;
    }
    Ok(list)
}

impl JsonForm for Name {
    ghost use Rattle.json_values.specs.SchemaJson.{IsText};

    ghost stands = { IsText };

    fn is_form(value: &Value) -> bool {
        matches!(value, Value::String(_))
    }

    fn from_form(alloc: Global, value: &Value) -> Result<Name, AllocError> {
        match value {
            Value::String(text) => Name::from_text(alloc, text.as_str()),
            _ => unreachable!(),
        }
    }
}
