//! Writing the header of a blob.
ghost use Rattle.std.specs.Prelude.{◌≡◌, ◌<◌, ◌≤◌, ◌^◌, [], ◌++◌, length, All, OnOk, OnErr, IfOk};
ghost use Rattle.row_model.specs.Row.{Rises};
ghost use Rattle.blob_frame.specs.Written.{schemas_at, schema_list_bytes, header_bytes};

use crate::header::FORMAT;
use hol_varint::{Ordinals, put_vint};
use schema_bytes::{laws, put_schema};
use schema_model::Model;
use std::alloc::{AllocError, Global};

/// Writes a header at the end: the format, the two tags, the schemas of these types of the model in this order, no
/// bytes to skip and no header tags. The types are indexes of the model, rising, and their list takes 2^28 bytes at
/// most. Where memory is refused nothing is written.
pub fn put_header(
    out: &mut Vec<u8>,
    origin: i64,
    destination: i64,
    model: &Model,
    types: &Ordinals,
) -> Result<(), AllocError>
    requires in_model { All (λ type_index. type_index < length model.now) types.now }
    requires rising { Rises types.now }
    requires short { length (schema_list_bytes (schemas_at model.now types.now)) ≤ 2 ^ 28 }
    ensures ok { OnOk result (out.new.items ≡ out.old.items ++ header_bytes origin destination (schemas_at model.now types.now)) }
    ensures err { OnErr result (out.new.items ≡ out.old.items) }
{
    let header = header_of(*out.allocator(), origin, destination, model, types)?;
    out.extend_from_slice(header.as_slice())
}

// The bytes of a header.
fn header_of(
    alloc: Global,
    origin: i64,
    destination: i64,
    model: &Model,
    types: &Ordinals,
) -> Result<Vec<u8>, AllocError>
    requires in_model { All (λ type_index. type_index < length model.now) types.now }
    requires short { length (schema_list_bytes (schemas_at model.now types.now)) ≤ 2 ^ 28 }
    ensures { IfOk result (λ header. header.items ≡ header_bytes origin destination (schemas_at model.now types.now)) }
{
    let mut listed = Vec::new(alloc);
    push_schemas(&mut listed, model, types)?;
    let mut header = Vec::new(alloc);
    header.extend_from_slice(&FORMAT.to_be_bytes())?;
    header.extend_from_slice(&origin.cast_unsigned().to_be_bytes())?;
    header.extend_from_slice(&destination.cast_unsigned().to_be_bytes())?;
    put_vint(&mut header, listed.len() as u32 + 1)?;
    header.extend_from_slice(listed.as_slice())?;
    header.extend_from_slice(&[0, 0, 0])?;
    Ok(header)
}

// Writes the list of the schemas of these types at the end.
fn push_schemas(out: &mut Vec<u8>, model: &Model, types: &Ordinals) -> Result<(), AllocError>
    requires in_model { All (λ type_index. type_index < length model.now) types.now }
    requires short { length (schema_list_bytes (schemas_at model.now types.now)) ≤ 2 ^ 28 }
    requires empty { out.old.items ≡ [] }
    ensures ok { OnOk result (out.new.items ≡ schema_list_bytes (schemas_at model.now types.now)) }
{
    put_vint(out, types.len() as u32)?;
    laws::spellable_model();
    let indexes = types.as_slice();
    for type_index in indexes {
        put_schema(out, model.schema(*type_index))?;
    }
    Ok(())
}
