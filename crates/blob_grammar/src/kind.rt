//! The kinds of a schema and the types of a field, as a blob spells them.
ghost use Rattle.std.specs.Prelude.{◌≡◌, MatchResult};
ghost use Rattle.blob_grammar.specs.Words.{kind_byte, IsRefusedKind, type_text, IsRefusedType};

use schema_model::Reason;

/// The kinds of a schema, each by one byte.
#[derive(Clone, Copy, Debug)]
pub enum SchemaKind {
    /// 0: fields.
    Object,
    /// 1: elements without order or repeats.
    Set,
    /// 2: elements in order.
    List,
    /// 3: pairs of a key and a value.
    Map,
    /// 6: fields, and a primary key.
    KeyedObject,
}

/// The types of a field, each by its text.
#[derive(Clone, Copy, Debug)]
pub enum FieldType {
    /// REFERENCE
    Reference,
    /// INT
    Int,
    /// LONG
    Long,
    /// BOOLEAN
    Boolean,
    /// STRING
    Text,
    /// BYTES
    Bytes,
}

/// The kind of a schema's byte, or why there is none.
pub fn kind_of(byte: u8) -> Result<SchemaKind, Reason>
    ensures { MatchResult result (λ kind. byte ≡ kind_byte kind) (IsRefusedKind byte) }
{
    match byte {
        0 => Ok(SchemaKind::Object),
        1 => Ok(SchemaKind::Set),
        2 => Ok(SchemaKind::List),
        3 => Ok(SchemaKind::Map),
        4 | 5 => Err(Reason::KeyedHash),
        6 => Ok(SchemaKind::KeyedObject),
        _ => Err(Reason::BadSchema),
    }
}

/// The type of a field that a text names, or why there is none.
pub fn type_of(text: &str) -> Result<FieldType, Reason>
    ensures { MatchResult result (λ found. text.now ≡ type_text found) (IsRefusedType text.now) }
{
    match text {
        "REFERENCE" => Ok(FieldType::Reference),
        "INT" => Ok(FieldType::Int),
        "LONG" => Ok(FieldType::Long),
        "BOOLEAN" => Ok(FieldType::Boolean),
        "STRING" => Ok(FieldType::Text),
        "BYTES" => Ok(FieldType::Bytes),
        "FLOAT" | "DOUBLE" => Err(Reason::FloatField),
        _ => Err(Reason::BadSchema),
    }
}
