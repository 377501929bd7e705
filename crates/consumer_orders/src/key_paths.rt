//! The paths of a key that an order asks for.
ghost use Rattle.std.specs.Prelude.{◌≡◌, ◌<◌, ◌++◌, IfOk, OnOk, length};
ghost use Rattle.serde_json.specs.View.{items_view, view};
ghost use Rattle.hollow_machine.specs.KeyPaths.{text_in, texts_in, texts_of_array};
ghost use Rattle.consumer_orders.specs.Sought.{TellsKeyPaths, TellsResolved};

use hol_answers::Refusal;
use hol_varint::Duplicate;
use model_paths::resolve;
use schema_model::{Model, Name, Names, PathFault, Paths, Shape};
use serde_json::Value;
use std::alloc::{AllocError, Global};

/// What the paths of a key lead to.
#[derive(Drop)]
pub enum KeyPaths {
    /// To values: the resolved paths.
    Resolved(Paths),
    /// There is no such key: `WrongKind` or `BadPath`.
    Refused(Refusal),
}

/// The items of an array; any other value has none.
pub(crate) fn items_of(value: &Value) -> &[Value]
    ensures { texts_in (items_view result.now) ≡ texts_of_array (view value.now) }
{
    match value {
        Value::Array(items) => items.as_slice(),
        _ => &[],
    }
}

/// The texts of key paths, which are an array of texts.
pub(crate) fn texts_of(alloc: Global, paths: &Value) -> Result<Names, AllocError>
    ensures { IfOk result (λ texts. texts ≡ texts_of_array (view paths.now)) }
{
    copy_texts(alloc, items_of(paths))
}

/// Those of some values that are texts.
pub(crate) fn copy_texts(alloc: Global, values: &[Value]) -> Result<Names, AllocError>
    ensures { IfOk result (λ texts. texts ≡ texts_in (items_view values.now)) }
{
    let mut texts = Names::new(alloc);
    for value in values {
        push_text(alloc, &mut texts, value)?;
    }
    Ok(texts)
}

// Adds the text that a value is, if it is one.
fn push_text(alloc: Global, texts: &mut Names, value: &Value) -> Result<(), AllocError>
    ensures { OnOk result (texts.new ≡ texts.old ++ text_in (view value.now)) }
{
    match value {
        Value::String(text) => texts.push(Name::from_text(alloc, text.as_str())?),
        _ => Ok(()),
    }
}

/// The paths of a key of the type at an index, which has this name: those of the texts, and where there is none those of its primary key. Refused with
/// `WrongKind` where the rows of the type are no records, and else with `BadPath`: of the first text that leads to no value, and of an empty one where
/// there is no primary key to ask for.
pub fn key_paths(
    alloc: Global,
    model: &Model,
    name: &Name,
    type_index: u32,
    texts: &Names,
) -> Result<KeyPaths, AllocError>
    requires { type_index < length model.now }
    ensures { IfOk result (TellsKeyPaths model.now type_index name.now texts.now) }
{
    let Shape::Object(primary, _) = &model.schema(type_index).shape else {
        return Ok(KeyPaths::Refused(Refusal::WrongKind(name.copy(alloc)?)));
    };
    if !texts.is_empty() {
        return resolve_all(alloc, model, type_index, texts.as_slice());
    }
    match primary {
        Some(texts) => resolve_all(alloc, model, type_index, texts.as_slice()),
        None => Ok(KeyPaths::Refused(Refusal::BadPath(Name::from_text(alloc, "")?))),
    }
}

// The paths to which texts resolve, from the type at an index, or the first one that does not.
fn resolve_all(
    alloc: Global,
    model: &Model,
    type_index: u32,
    texts: &[Name],
) -> Result<KeyPaths, AllocError>
    requires { type_index < length model.now }
    ensures { IfOk result (TellsResolved model.now type_index texts.now) }
{
    let mut paths = Paths::new(alloc);
    for text in texts {
        match resolve(alloc, model, type_index, text.text()) {
            Ok(path) => paths.push(path)?,
            Err(PathFault::BadPath) => {
                return Ok(KeyPaths::Refused(Refusal::BadPath(text.copy(alloc)?)));
            }
            Err(PathFault::Memory) => return Err(AllocError),
        }
    }
    Ok(KeyPaths::Resolved(paths))
}
