//! Schemas: the types of a model and their fields.
pub(crate) mod name;

use crate::{Fields, Name, Names};
use hol_varint::Duplicate;
use std::alloc::{AllocError, Global};

/// What a field holds.
#[derive(Debug, Drop)]
pub enum FieldKind {
    /// The ordinal of a record of the named type.
    Reference(Name),
    /// A signed number of 32 bits.
    Int,
    /// A signed number of 64 bits.
    Long,
    /// True or false.
    Boolean,
    /// A text, STRING in a schema.
    Text,
    /// A run of bytes.
    Bytes,
}

impl Duplicate for FieldKind {
    fn copy(&self, alloc: Global) -> Result<FieldKind, AllocError> {
        match self {
            FieldKind::Reference(name) => Ok(FieldKind::Reference(name.copy(alloc)?)),
            FieldKind::Int => Ok(FieldKind::Int),
            FieldKind::Long => Ok(FieldKind::Long),
            FieldKind::Boolean => Ok(FieldKind::Boolean),
            FieldKind::Text => Ok(FieldKind::Text),
            FieldKind::Bytes => Ok(FieldKind::Bytes),
        }
    }
}

/// A field of an OBJECT type.
#[derive(Debug, Drop)]
pub struct Field {
    /// Its name, which no other field of the type has.
    pub name: Name,
    /// What it holds: values of a kind, or references to rows of the type that it names.
    pub kind: FieldKind,
}

impl Duplicate for Field {
    fn copy(&self, alloc: Global) -> Result<Field, AllocError> {
        Ok(Field {
            name: self.name.copy(alloc)?,
            kind: self.kind.copy(alloc)?,
        })
    }
}

/// The kind of a type, with the types that it names.
#[derive(Debug, Drop)]
pub enum Shape {
    /// OBJECT: the key paths, where the type has a primary key, and the fields.
    Object(Option<Names>, Fields),
    /// SET: the type of its elements.
    Set(Name),
    /// LIST: the type of its elements.
    List(Name),
    /// MAP: the type of its keys and the type of its values.
    Map(Name, Name),
}

impl Shape {
    ghost use Rattle.std.specs.Prelude.{◌≡◌};
    ghost use Rattle.schema_model.specs.Parts.{shape_fields};

    /// The fields of an OBJECT, in order; the other shapes have none.
    pub fn fields(&self) -> &[Field]
        ensures { result.now ≡ shape_fields self.now }
    {
        match self {
            Shape::Object(_, fields) => fields.as_slice(),
            _ => &[],
        }
    }
}

impl Duplicate for Shape {
    fn copy(&self, alloc: Global) -> Result<Shape, AllocError> {
        match self {
            Shape::Object(key, fields) => Ok(Shape::Object(key.copy(alloc)?, fields.copy(alloc)?)),
            Shape::Set(element) => Ok(Shape::Set(element.copy(alloc)?)),
            Shape::List(element) => Ok(Shape::List(element.copy(alloc)?)),
            Shape::Map(key, value) => Ok(Shape::Map(key.copy(alloc)?, value.copy(alloc)?)),
        }
    }
}

/// A type of a model: its name and its shape.
#[derive(Debug, Drop)]
pub struct Schema {
    /// The name, which no other type of the model has.
    pub name: Name,
    /// The kind, with the types that it names.
    pub shape: Shape,
}

impl Duplicate for Schema {
    fn copy(&self, alloc: Global) -> Result<Schema, AllocError> {
        Ok(Schema {
            name: self.name.copy(alloc)?,
            shape: self.shape.copy(alloc)?,
        })
    }
}
