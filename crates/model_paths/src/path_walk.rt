//! The fields that a path goes through.
ghost use Rattle.std.specs.Prelude.{◌≡◌, ◌<◌, ◌≤◌, ◌∷◌, [], ℕ, length, IfSome, IsTrue, ◌↔◌, MatchOption};
ghost use Rattle.schema_model.specs.Ways.{CanBeWalked, TellsField, TellsFields, TellsReferred, TellsWay};
ghost use Rattle.schema_model.specs.NameIndex.{Indexes};
ghost use Rattle.schema_model.specs.Model.{HasChain, type_graph};
ghost use Rattle.schema_model.specs.Parts.{type_names};
ghost use Rattle.schema_model.specs.Path.{GoesOn, Leads, RefersTo, path_names};

use hol_varint::Ordinals;
use schema_model::{Field, FieldKind, MAX_DEPTH, NameIndex, PathFault, Schemas, find_name};
use std::alloc::Global;

/// The first name of a path, and the text behind the '.' that ends it.
pub(crate) fn first_name(text: &str) -> (&str, Option<&str>)
    ensures names { MatchOption result.1 (path_names text.now ≡ result.0.now ∷ []) (λ rest. path_names text.now ≡ result.0.now ∷ path_names rest.now) }
    ensures shorter { IfSome result.1 (λ rest. length rest.now < length text.now) }
{
    match text.split_once('.') {
        Some((name, rest)) => (name, Some(rest)),
        None => (text, None),
    }
}

/// The place of the field of this name.
pub(crate) fn field_of(fields: &[Field], name: &str) -> Option<u32>
    requires { length fields.now ≤ 1024 }
    ensures { TellsField fields.now name.now result }
{
    for (place, field) in fields.iter().enumerate() {
        if field.name.text() == name {
            return Some(place as u32);
        }
    }
    None
}

/// The type that a field of this kind refers to.
pub(crate) fn referred(schemas: &Schemas, index: &NameIndex, kind: &FieldKind) -> Option<u32>
    requires indexed { Indexes (type_names schemas.now) index.now }
    ensures { TellsReferred schemas.now kind.now result }
{
    match kind {
        FieldKind::Reference(name) => find_name(index, name.text()),
        _ => None,
    }
}

/// Goes on from a field of this kind, through types of one field, to a value, and adds the places of these fields. `depth` is more
/// than the references in any chain from the referred type.
pub(crate) fn follow_only_fields(
    schemas: &Schemas,
    index: &NameIndex,
    kind: &FieldKind,
    depth: u32,
    fields: &mut Ordinals,
) -> Result<(), PathFault>
    requires indexed { Indexes (type_names schemas.now) index.now }
    requires shallow { (target : ℕ) → RefersTo schemas.now kind.now target → ¬ HasChain (type_graph schemas.now) depth target }
    ensures { TellsWay (GoesOn schemas.now kind.now) fields.old fields.new result }
{
    let FieldKind::Reference(name) = kind else {
        return Ok(());
    };
    let Some(next) = find_name(index, name.text()) else {
        return Err(PathFault::BadPath);
    };
    let own = schemas.get(next as usize).shape.fields();
    if own.len() != 1 {
        return Err(PathFault::BadPath);
    }
    fields.push(0)?;
    follow_only_fields(schemas, index, &own[0].kind, depth - 1, fields)
}

/// Follows the names of a path from a type, and adds the places of the fields that it goes through.
fn follow_names(
    schemas: &Schemas,
    index: &NameIndex,
    type_index: u32,
    text: &str,
    fields: &mut Ordinals,
) -> Result<(), PathFault>
    requires inside { type_index < length schemas.now }
    requires ready { CanBeWalked schemas.now index.now }
    ensures { TellsWay (Leads schemas.now type_index (path_names text.now)) fields.old fields.new result }
{
    let own = schemas.get(type_index as usize).shape.fields();
    let (name, rest) = first_name(text);
    let Some(place) = field_of(own, name) else {
        return Err(PathFault::BadPath);
    };
    let kind = &own[place as usize].kind;
    let Some(rest) = rest else {
        fields.push(place)?;
        return follow_only_fields(schemas, index, kind, MAX_DEPTH, fields);
    };
    let Some(next) = referred(schemas, index, kind) else {
        return Err(PathFault::BadPath);
    };
    fields.push(place)?;
    follow_names(schemas, index, next, rest, fields)
}

/// The places of the fields that a path goes through from a type.
pub fn way_of(
    alloc: Global,
    schemas: &Schemas,
    index: &NameIndex,
    type_index: u32,
    text: &str,
) -> Result<Ordinals, PathFault>
    requires inside { type_index < length schemas.now }
    requires ready { CanBeWalked schemas.now index.now }
    ensures { TellsFields (Leads schemas.now type_index (path_names text.now)) result }
{
    let mut fields = Ordinals::new(alloc);
    follow_names(schemas, index, type_index, text, &mut fields)?;
    Ok(fields)
}

/// Whether a path goes on from a field of this kind through just these fields, each the only one of its type, to a value.
fn goes_on(schemas: &Schemas, index: &NameIndex, kind: &FieldKind, fields: &[u32]) -> bool
    requires indexed { Indexes (type_names schemas.now) index.now }
    ensures { IsTrue result ↔ GoesOn schemas.now kind.now fields.now }
{
    let [place, more @ ..] = fields else {
        return !matches!(kind, FieldKind::Reference(_));
    };
    let Some(next) = referred(schemas, index, kind) else {
        return false;
    };
    match schemas.get(next as usize).shape.fields() {
        [only] if *place == 0 => goes_on(schemas, index, &only.kind, more),
        _ => false,
    }
}

/// Whether the names of a path lead from a type through just these fields to a value. It takes no memory.
pub(crate) fn leads(
    schemas: &Schemas,
    index: &NameIndex,
    type_index: u32,
    text: &str,
    fields: &[u32],
) -> bool
    requires inside { type_index < length schemas.now }
    requires indexed { Indexes (type_names schemas.now) index.now }
    ensures { IsTrue result ↔ Leads schemas.now type_index (path_names text.now) fields.now }
{
    let [place, more @ ..] = fields else {
        return false;
    };
    let (name, rest) = first_name(text);
    let own = schemas.get(type_index as usize).shape.fields();
    let Some(field) = own.get(*place as usize) else {
        return false;
    };
    if field.name.text() != name {
        return false;
    }
    let Some(rest) = rest else {
        return goes_on(schemas, index, &field.kind, more);
    };
    match referred(schemas, index, &field.kind) {
        Some(next) => leads(schemas, index, next, rest, more),
        None => false,
    }
}
