//! Schemas from their JSON form.
ghost use Rattle.std.specs.Prelude.{◌≡◌, ℕ, List, Option, IfOk, codes};
ghost use Rattle.serde_json.specs.View.{view};
ghost use Rattle.schema_model.specs.declared.schema.name.Name.{Name};
ghost use Rattle.schema_model.specs.declared.schema.Field.{Field};
ghost use Rattle.schema_model.specs.declared.schema.FieldKind.{FieldKind};
ghost use Rattle.schema_model.specs.declared.schema.Schema.{Schema};
ghost use Rattle.schema_model.specs.declared.schema.Shape.{Shape};
ghost use Rattle.json_values.specs.SchemaJson.{HasKey, HasParts, HasTarget, HasText, IsArrayOf, IsField, IsKindOrFloat, IsSchema, IsText, shape_name};

use crate::json_form::all_from_forms;
use crate::schema_shape::{plain_kind, text_member};
use schema_model::{Field, FieldKind, Name, Names, Schema, Shape};
use serde_json::Value;
use std::alloc::{AllocError, Global};

/// The schema for which a value stands; a FLOAT or a DOUBLE is taken as a BOOLEAN. It fails only where memory is refused.
pub(crate) fn schema_from(alloc: Global, value: &Value) -> Result<Schema, AllocError>
    requires { (schema : Schema) × IsSchema IsKindOrFloat (view value.now) schema }
    ensures { IfOk result (IsSchema IsKindOrFloat (view value.now)) }
{
    let name = text_from(alloc, value, "name")?;
    match text_member(value, "kind") {
        Some(kind) => {
            let shape = shape_from(alloc, value, kind)?;
            Ok(Schema { name, shape })
        }
        None => unreachable!(),
    }
}

// The shape of a schema of this kind.
fn shape_from(alloc: Global, value: &Value, kind: &str) -> Result<Shape, AllocError>
    requires { (shape : Shape) × (kind.now ≡ shape_name shape) × HasParts IsKindOrFloat (view value.now) shape }
    ensures { IfOk result (λ shape. (kind.now ≡ shape_name shape) × HasParts IsKindOrFloat (view value.now) shape) }
{
    if kind == "OBJECT" {
        object_from(alloc, value)
    } else if kind == "SET" {
        Ok(Shape::Set(text_from(alloc, value, "element")?))
    } else if kind == "LIST" {
        Ok(Shape::List(text_from(alloc, value, "element")?))
    } else {
        map_from(alloc, value)
    }
}

fn object_from(alloc: Global, value: &Value) -> Result<Shape, AllocError>
    requires { (key : Option (List Name)) × (fields : List Field) × HasParts IsKindOrFloat (view value.now) (Shape.Object key fields) }
    ensures { IfOk result (λ shape. (codes "OBJECT" ≡ shape_name shape) × HasParts IsKindOrFloat (view value.now) shape) }
{
    let key = key_from(alloc, value)?;
    match value.get("fields") {
        Some(Value::Array(fields)) => {
            let fields = all_from_forms(alloc, fields.as_slice())?;
            Ok(Shape::Object(key, fields))
        }
        _ => unreachable!(),
    }
}

fn key_from(alloc: Global, value: &Value) -> Result<Option<Names>, AllocError>
    requires { (key : Option (List Name)) × HasKey (view value.now) key }
    ensures { IfOk result (HasKey (view value.now)) }
{
    match value.get("key") {
        None => Ok(None),
        Some(paths) => Ok(Some(paths_from(alloc, paths)?)),
    }
}

fn paths_from(alloc: Global, paths: &Value) -> Result<Names, AllocError>
    requires { (texts : List Name) × IsArrayOf IsText (view paths.now) texts }
    ensures { IfOk result (IsArrayOf IsText (view paths.now)) }
{
    match paths {
        Value::Array(paths) => all_from_forms(alloc, paths.as_slice()),
        _ => unreachable!(),
    }
}

fn map_from(alloc: Global, value: &Value) -> Result<Shape, AllocError>
    requires { (key : Name) × (element : Name) × HasParts IsKindOrFloat (view value.now) (Shape.Map key element) }
    ensures { IfOk result (λ shape. (codes "MAP" ≡ shape_name shape) × HasParts IsKindOrFloat (view value.now) shape) }
{
    let key = text_from(alloc, value, "key")?;
    let element = text_from(alloc, value, "value")?;
    Ok(Shape::Map(key, element))
}

/// The field for which a value stands; a FLOAT or a DOUBLE is taken as a BOOLEAN. It fails only where memory is refused.
pub(crate) fn field_from(alloc: Global, value: &Value) -> Result<Field, AllocError>
    requires { (field : Field) × IsField IsKindOrFloat (view value.now) field }
    ensures { IfOk result (IsField IsKindOrFloat (view value.now)) }
{
    let name = text_from(alloc, value, "name")?;
    match text_member(value, "type") {
        Some(text) => {
            let kind = kind_from(alloc, value, text)?;
            Ok(Field { name, kind })
        }
        None => unreachable!(),
    }
}

// The kind of a field whose type has this name.
fn kind_from(alloc: Global, value: &Value, name: &str) -> Result<FieldKind, AllocError>
    requires { (kind : FieldKind) × IsKindOrFloat kind name.now × HasTarget (view value.now) kind }
    ensures { IfOk result (λ kind. IsKindOrFloat kind name.now × HasTarget (view value.now) kind) }
{
    match plain_kind(name) {
        Some(kind) => Ok(kind),
        None => Ok(FieldKind::Reference(text_from(alloc, value, "to")?)),
    }
}

// The text that is the member of this name.
fn text_from(alloc: Global, value: &Value, name: &str) -> Result<Name, AllocError>
    requires { (text : List ℕ) × HasText (view value.now) name.now text }
    ensures { IfOk result (HasText (view value.now) name.now) }
{
    match text_member(value, name) {
        Some(text) => Name::from_text(alloc, text),
        None => unreachable!(),
    }
}
