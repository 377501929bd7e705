//! The parts that a walk path goes through.
ghost use Rattle.std.specs.Prelude.{◌≡◌, ◌<◌, ◌≤◌, length, IfOk, IsSome, Some};
ghost use Rattle.schema_model.specs.Ways.{CanBeWalked, TellsPart, TellsParts, TellsWay};
ghost use Rattle.schema_model.specs.Parts.{shape_fields};
ghost use Rattle.schema_model.specs.Path.{path_names};
ghost use Rattle.schema_model.specs.WalkPath.{LeadsAlong, WalksOn, part_kind};

use crate::path_walk::{field_of, first_name, follow_only_fields, referred};
use hol_varint::{Duplicate, Ordinals};
use schema_model::{
    FieldKind, MAX_DEPTH, NameIndex, PathFault, Schemas, Shape, WalkPart, WalkParts,
};
use std::alloc::{AllocError, Global};

/// The part of a type of this shape that has this name.
fn part_of(shape: &Shape, name: &str) -> Option<WalkPart>
    requires { length (shape_fields shape.now) ≤ 1024 }
    ensures { TellsPart shape.now name.now result }
{
    match shape {
        Shape::Object(_, fields) => match field_of(fields.as_slice(), name) {
            Some(place) => Some(WalkPart::Field(place)),
            None => None,
        },
        Shape::Set(_) | Shape::List(_) if name == "element" => Some(WalkPart::Element),
        Shape::Map(_, _) if name == "key" => Some(WalkPart::MapKey),
        Shape::Map(_, _) if name == "value" => Some(WalkPart::MapValue),
        _ => None,
    }
}

/// What stands at a part of a type of this shape, which has it.
fn kind_of_part(alloc: Global, shape: &Shape, part: WalkPart) -> Result<FieldKind, AllocError>
    requires { IsSome (part_kind shape.now part) }
    ensures { IfOk result (λ kind. part_kind shape.now part ≡ Some kind) }
{
    match (shape, part) {
        (Shape::Object(_, fields), WalkPart::Field(place)) => {
            fields.get(place as usize).kind.copy(alloc)
        }
        (Shape::Map(key, _), WalkPart::MapKey) => Ok(FieldKind::Reference(key.copy(alloc)?)),
        (Shape::Map(_, value), _) => Ok(FieldKind::Reference(value.copy(alloc)?)),
        (Shape::Set(element), _) => Ok(FieldKind::Reference(element.copy(alloc)?)),
        (Shape::List(element), _) => Ok(FieldKind::Reference(element.copy(alloc)?)),
        _ => unreachable!(),
    }
}

/// Goes on from what stands at the last named part, through types of one field, to a value, and adds these fields as parts.
fn walk_on(
    alloc: Global,
    schemas: &Schemas,
    index: &NameIndex,
    kind: &FieldKind,
    parts: &mut WalkParts,
) -> Result<(), PathFault>
    requires { CanBeWalked schemas.now index.now }
    ensures { TellsWay (WalksOn schemas.now kind.now) parts.old parts.new result }
{
    let mut fields = Ordinals::new(alloc);
    follow_only_fields(schemas, index, kind, MAX_DEPTH, &mut fields)?;
    for place in fields.as_slice() {
        parts.push(WalkPart::Field(*place))?;
    }
    Ok(())
}

/// Follows the names of a walk path from a type, and adds the parts that it goes through.
fn walk_names(
    alloc: Global,
    schemas: &Schemas,
    index: &NameIndex,
    type_index: u32,
    text: &str,
    parts: &mut WalkParts,
) -> Result<(), PathFault>
    requires inside { type_index < length schemas.now }
    requires ready { CanBeWalked schemas.now index.now }
    ensures { TellsWay (LeadsAlong schemas.now type_index (path_names text.now)) parts.old parts.new result }
{
    let shape = &schemas.get(type_index as usize).shape;
    let (name, rest) = first_name(text);
    let Some(part) = part_of(shape, name) else {
        return Err(PathFault::BadPath);
    };
    let kind = kind_of_part(alloc, shape, part)?;
    parts.push(part)?;
    let Some(rest) = rest else {
        return walk_on(alloc, schemas, index, &kind, parts);
    };
    let Some(next) = referred(schemas, index, &kind) else {
        return Err(PathFault::BadPath);
    };
    walk_names(alloc, schemas, index, next, rest, parts)
}

/// The parts that a walk path goes through from a type.
pub(crate) fn parts_of(
    alloc: Global,
    schemas: &Schemas,
    index: &NameIndex,
    type_index: u32,
    text: &str,
) -> Result<WalkParts, PathFault>
    requires inside { type_index < length schemas.now }
    requires ready { CanBeWalked schemas.now index.now }
    ensures { TellsParts (LeadsAlong schemas.now type_index (path_names text.now)) result }
{
    let mut parts = WalkParts::new(alloc);
    walk_names(alloc, schemas, index, type_index, text, &mut parts)?;
    Ok(parts)
}
