//! The model: Text, a STRING; Tags, a set of Text; and Film, which has both.
ghost use Rattle.std.specs.Prelude.{◌≡◌, IfOk};
ghost use Rattle.film_script.specs.Films.{field_of, film_schema, film_schemas, tags_schema, text_schema};
ghost use Rattle.schema_model.specs.declared.schema.FieldKind.TheVariants as kind;

use schema_model::{Field, FieldKind, Fields, Name, Names, Schema, Schemas, Shape};
use std::alloc::{AllocError, Global};

/// The type index of Text in the model of `film_schemas`.
pub const TEXT_TYPE: u32 = 0;

/// The type index of Tags in that model.
pub const TAGS_TYPE: u32 = 1;

/// The type index of Film in that model, the type of the records.
pub const FILM_TYPE: u32 = 2;

/// The schemas of the model, by type index. It fails only for want of memory.
pub fn film_schemas(alloc: Global) -> Result<Schemas, AllocError>
    ensures { IfOk result (λ schemas. schemas ≡ film_schemas) }
{
    let schemas = vec![in alloc;
        text_schema(alloc)?,
        tags_schema(alloc)?,
        film_schema(alloc)?,
    ]?;
    Ok(Schemas::from_vec(schemas))
}

// A type that is one STRING.
fn text_schema(alloc: Global) -> Result<Schema, AllocError>
    ensures { IfOk result (λ schema. schema ≡ text_schema) }
{
    let value = field(alloc, "value", FieldKind::Text)?;
    Ok(Schema {
        name: Name::from_text(alloc, "Text")?,
        shape: Shape::Object(None, Fields::from_vec(vec![in alloc; value]?)),
    })
}

// A set of texts.
fn tags_schema(alloc: Global) -> Result<Schema, AllocError>
    ensures { IfOk result (λ schema. schema ≡ tags_schema) }
{
    Ok(Schema {
        name: Name::from_text(alloc, "Tags")?,
        shape: Shape::Set(Name::from_text(alloc, "Text")?),
    })
}

// A film, found by its number.
fn film_schema(alloc: Global) -> Result<Schema, AllocError>
    ensures { IfOk result (λ schema. schema ≡ film_schema) }
{
    let key = Names::from_vec(vec![in alloc; Name::from_text(alloc, "id")?]?);
    let fields = Fields::from_vec(vec![in alloc;
        field(alloc, "id", FieldKind::Int)?,
        reference(alloc, "title", "Text")?,
        field(alloc, "year", FieldKind::Int)?,
        reference(alloc, "tags", "Tags")?,
    ]?);
    Ok(Schema {
        name: Name::from_text(alloc, "Film")?,
        shape: Shape::Object(Some(key), fields),
    })
}

fn field(alloc: Global, name: &str, kind: FieldKind) -> Result<Field, AllocError>
    ensures { IfOk result (λ field. field ≡ field_of name.now kind) }
{
    Ok(Field {
        name: Name::from_text(alloc, name)?,
        kind,
    })
}

fn reference(alloc: Global, name: &str, to: &str) -> Result<Field, AllocError>
    ensures { IfOk result (λ field. field ≡ field_of name.now (kind.Reference to.now)) }
{
    let kind = FieldKind::Reference(Name::from_text(alloc, to)?);
    field(alloc, name, kind)
}
