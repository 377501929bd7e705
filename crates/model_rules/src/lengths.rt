//! The rule of lengths: each name and key path can be spelled in a blob.
ghost use Rattle.std.specs.Prelude.{◌≡◌, ◌≤◌, length};
ghost use Rattle.std.specs.Char.Escape.{encode_utf16};
ghost use Rattle.hol_varint.specs.JavaUtf.{java_bytes};
ghost use Rattle.std.specs.List.{list_any};
ghost use Rattle.model_rules.specs.RuleTests.{TellsRule, is_long_text};
ghost use Rattle.schema_model.specs.Parts.{field_texts, shape_texts, texts_of};

use schema_model::{
    Field, FieldKind, Fields, MAX_NAME_BYTES, ModelFault, Names, Rule, Schema, Schemas, Shape,
};

/// How many bytes of Java UTF a character has.
fn java_size(character: char) -> usize
    ensures size { result ≡ length (java_bytes (encode_utf16 character)) }
    ensures small { result ≤ 6 }
{
    match character as u32 {
        0 => 2,
        1..0x80 => 1,
        0x80..0x800 => 2,
        0x800..0x1_0000 => 3,
        _ => 6,
    }
}

/// Whether a text has too many bytes of Java UTF.
fn is_long(text: &str) -> bool
    ensures { result ≡ is_long_text text.now }
{
    let mut size = 0;
    for character in text.chars() {
        size += java_size(character);
        if size > MAX_NAME_BYTES {
            return true;
        }
    }
    false
}

/// Whether the name of a field, or that of the type that it refers to, is too long.
fn is_long_field(field: &Field) -> bool
    ensures { result ≡ list_any is_long_text (field_texts field.now) }
{
    match &field.kind {
        FieldKind::Reference(name) => is_long(field.name.text()) || is_long(name.text()),
        _ => is_long(field.name.text()),
    }
}

/// Whether one of the key paths is too long.
fn has_long_path(paths: &Names) -> bool
    ensures { result ≡ list_any is_long_text paths.now }
{
    paths.as_slice().iter().any(|path| is_long(path.text()))
}

/// Whether a text of one of the fields is too long.
fn has_long_field(fields: &Fields) -> bool
    ensures { result ≡ list_any (λ field. list_any is_long_text (field_texts field)) fields.now }
{
    fields.as_slice().iter().any(|field| is_long_field(field))
}

/// Whether a text of a shape is too long.
#[tactic(auto, using(crate::proofs::RuleTests::any_pieces, crate::proofs::RuleTests::any_behind))]
fn has_long_text(shape: &Shape) -> bool
    ensures { result ≡ list_any is_long_text (shape_texts shape.now) }
{
    match shape {
        Shape::Object(Some(paths), fields) => has_long_path(paths) || has_long_field(fields),
        Shape::Object(None, fields) => has_long_field(fields),
        Shape::Set(element) => is_long(element.text()),
        Shape::List(element) => is_long(element.text()),
        Shape::Map(key, value) => is_long(key.text()) || is_long(value.text()),
    }
}

/// Whether a name or a key path of a schema is too long.
fn has_long_name(schema: &Schema) -> bool
    ensures { result ≡ list_any is_long_text (texts_of schema.now) }
{
    is_long(schema.name.text()) || has_long_text(&schema.shape)
}

/// Tries the lengths of all names and key paths.
pub(crate) fn check_lengths(schemas: &Schemas) -> Result<(), ModelFault>
    requires { length schemas.now ≤ 512 }
    ensures { TellsRule schemas.now Rule.LongName result }
{
    for type_index in 0..schemas.len() {
        if has_long_name(schemas.get(type_index)) {
            return Err(ModelFault::Broken(Rule::LongName, type_index as u32));
        }
    }
    Ok(())
}
