//! Schemas as the bytes of a blob.
ghost use Rattle.std.specs.Prelude.{◌≡◌, ◌<◌, ◌≤◌, ◌^◌, ◌++◌, length, take, All, OnOk, OnErr};
ghost use Rattle.hol_varint.specs.JavaUtf.{utf_bytes};
ghost use Rattle.schema_model.specs.Schema.{name_bytes, kind_name, target_bytes, field_bytes, paths_bytes, fields_bytes, kind_number as kind_number_of, shape_bytes, schema_bytes, EachNameOfKind, EachNameOfField, EachNameOfShape, IsShortName, HasFewParts, IsSpellable};

use hol_varint::{put_utf, put_vint, units_of};
use schema_model::{Field, FieldKind, Fields, Name, Names, Schema, Shape};
use std::alloc::AllocError;

/// Writes a schema at the end, in its one spelling in a blob: the kind, the name, and what the kind asks for.
///
/// Where memory is refused nothing is written.
pub fn put_schema(out: &mut Vec<u8>, schema: &Schema) -> Result<(), AllocError>
    requires { IsSpellable schema.now }
    ensures ok { OnOk result (out.new.items ≡ out.old.items ++ schema_bytes schema.now) }
    ensures err { OnErr result (out.new.items ≡ out.old.items) }
{
    let start = out.len();
    let written = push_schema(out, schema);
    if written.is_err() {
        out.truncate(start);
    }
    written
}

// Writes a schema at the end. Where memory is refused a front of it may stand there, and so it is with the part of a schema that each function below writes.
fn push_schema(out: &mut Vec<u8>, schema: &Schema) -> Result<(), AllocError>
    requires { IsSpellable schema.now }
    ensures ok { OnOk result (out.new.items ≡ out.old.items ++ schema_bytes schema.now) }
    ensures kept { take (length out.old.items) out.new.items ≡ out.old.items }
{
    out.push(kind_number(&schema.shape))?;
    push_name(out, &schema.name)?;
    push_shape(out, &schema.shape)
}

fn kind_number(shape: &Shape) -> u8
    ensures { result ≡ kind_number_of shape.now }
{
    match shape {
        Shape::Object(None, _) => 0,
        Shape::Set(_) => 1,
        Shape::List(_) => 2,
        Shape::Map(_, _) => 3,
        Shape::Object(Some(_), _) => 6,
    }
}

fn push_shape(out: &mut Vec<u8>, shape: &Shape) -> Result<(), AllocError>
    requires short { EachNameOfShape IsShortName shape.now }
    requires few { HasFewParts shape.now }
    ensures ok { OnOk result (out.new.items ≡ out.old.items ++ shape_bytes shape.now) }
    ensures kept { take (length out.old.items) out.new.items ≡ out.old.items }
{
    match shape {
        Shape::Object(None, fields) => push_fields(out, fields),
        Shape::Object(Some(key), fields) => {
            push_paths(out, key)?;
            push_fields(out, fields)
        }
        Shape::Set(element) => push_name(out, element),
        Shape::List(element) => push_name(out, element),
        Shape::Map(key, value) => {
            push_name(out, key)?;
            push_name(out, value)
        }
    }
}

fn push_paths(out: &mut Vec<u8>, paths: &Names) -> Result<(), AllocError>
    requires few { length paths.now < 2 ^ 32 }
    requires short { All IsShortName paths.now }
    ensures ok { OnOk result (out.new.items ≡ out.old.items ++ paths_bytes paths.now) }
    ensures kept { take (length out.old.items) out.new.items ≡ out.old.items }
{
    put_vint(out, paths.len() as u32)?;
    for path in paths.as_slice() {
        push_name(out, path)?;
    }
    Ok(())
}

fn push_fields(out: &mut Vec<u8>, fields: &Fields) -> Result<(), AllocError>
    requires few { length fields.now ≤ 1024 }
    requires short { All (EachNameOfField IsShortName) fields.now }
    ensures ok { OnOk result (out.new.items ≡ out.old.items ++ fields_bytes fields.now) }
    ensures kept { take (length out.old.items) out.new.items ≡ out.old.items }
{
    let count = fields.len();
    out.extend_from_slice(&[(count / 256) as u8, (count % 256) as u8])?;
    for field in fields.as_slice() {
        push_field(out, field)?;
    }
    Ok(())
}

fn push_field(out: &mut Vec<u8>, field: &Field) -> Result<(), AllocError>
    requires { EachNameOfField IsShortName field.now }
    ensures ok { OnOk result (out.new.items ≡ out.old.items ++ field_bytes field.now) }
    ensures kept { take (length out.old.items) out.new.items ≡ out.old.items }
{
    push_name(out, &field.name)?;
    out.extend_from_slice(kind_text(&field.kind))?;
    push_target(out, &field.kind)
}

// The name of a field's type as a Java UTF text.
fn kind_text(kind: &FieldKind) -> &'static [u8]
    ensures { result.now ≡ utf_bytes (kind_name kind.now) }
{
    match kind {
        FieldKind::Reference(_) => b"\0\x09REFERENCE",
        FieldKind::Int => b"\0\x03INT",
        FieldKind::Long => b"\0\x04LONG",
        FieldKind::Boolean => b"\0\x07BOOLEAN",
        FieldKind::Text => b"\0\x06STRING",
        FieldKind::Bytes => b"\0\x05BYTES",
    }
}

fn push_target(out: &mut Vec<u8>, kind: &FieldKind) -> Result<(), AllocError>
    requires { EachNameOfKind IsShortName kind.now }
    ensures ok { OnOk result (out.new.items ≡ out.old.items ++ target_bytes kind.now) }
    ensures kept { take (length out.old.items) out.new.items ≡ out.old.items }
{
    match kind {
        FieldKind::Reference(name) => push_name(out, name),
        _ => Ok(()),
    }
}

fn push_name(out: &mut Vec<u8>, name: &Name) -> Result<(), AllocError>
    requires { IsShortName name.now }
    ensures ok { OnOk result (out.new.items ≡ out.old.items ++ name_bytes name.now) }
    ensures kept { take (length out.old.items) out.new.items ≡ out.old.items }
{
    let units = units_of(*out.allocator(), name.text())?;
    put_utf(out, &units)
}
