//! The header of a blob, and the limit on its bytes.
ghost use Rattle.std.specs.Prelude.{◌≡◌, ◌<◌, ◌≤◌, ◌^◌, ◌++◌, All, IfErr, IfOk, MatchBool, MatchResult, OnOk, length};
ghost use Rattle.row_model.specs.Row.{Rises};
ghost use Rattle.blob_frame.specs.Written.{schemas_at, schema_list_bytes, header_bytes};
ghost use Rattle.blob_writing.specs.Limits.{HasFewPaths, HasManyPaths, MeansLarge};

use crate::WriteFault;
use blob_frame::put_header;
use hol_varint::{Ordinals, put_vlong};
use schema_bytes::{laws, put_schema};
use schema_model::{MAX_BLOB_BYTES, Model, Schema, Shape};
use std::alloc::{AllocError, Global};

/// Writes the header of a blob at the end, with the schemas of these types of the model. The types are indexes of the
/// model, rising.
///
/// `Large` comes exactly where the list of the schemas takes more than 2^28 bytes.
pub fn put_limited_header(
    out: &mut Vec<u8>,
    origin: i64,
    destination: i64,
    model: &Model,
    types: &Ordinals,
) -> Result<(), WriteFault>
    requires in_model { All (λ type_index. type_index < length model.now) types.now }
    requires rising { Rises types.now }
    ensures ok { OnOk result (out.new.items ≡ out.old.items ++ header_bytes origin destination (schemas_at model.now types.now)) }
    ensures short { OnOk result (length (schema_list_bytes (schemas_at model.now types.now)) ≤ 2 ^ 28) }
    ensures large { IfErr result (MeansLarge (2 ^ 28 < length (schema_list_bytes (schemas_at model.now types.now)))) }
{
    if is_long_list(*out.allocator(), model, types)? {
        return Err(WriteFault::Large);
    }
    put_header(out, origin, destination, model, types)?;
    Ok(())
}

/// Answers `Large` where a blob has more than 2^28 bytes.
pub fn check_length(blob: &[u8]) -> Result<(), WriteFault>
    ensures ok { OnOk result (length blob.now ≤ 2 ^ 28) }
    ensures large { IfErr result (MeansLarge (2 ^ 28 < length blob.now)) }
{
    if blob.len() as u64 > MAX_BLOB_BYTES {
        return Err(WriteFault::Large);
    }
    Ok(())
}

// Whether the list of the schemas of these types takes more than 2^28 bytes. Each is spelled for its length alone, but for one with so many
// key paths that it cannot be spelled.
fn is_long_list(alloc: Global, model: &Model, types: &Ordinals) -> Result<bool, AllocError>
    requires in_model { All (λ type_index. type_index < length model.now) types.now }
    ensures { IfOk result (λ long. MatchBool long (2 ^ 28 < length (schema_list_bytes (schemas_at model.now types.now))) (length (schema_list_bytes (schemas_at model.now types.now)) ≤ 2 ^ 28)) }
{
    laws::spellable_model();
    let mut spelled = Vec::new(alloc);
    put_vlong(&mut spelled, types.len() as u64)?;
    let mut total = spelled.len() as u64;
    let indexes = types.as_slice();
    for type_index in indexes {
        if total > MAX_BLOB_BYTES {
            return Ok(true);
        }
        let schema = model.schema(*type_index);
        if !has_few_paths(schema) {
            return Ok(true);
        }
        spelled.clear();
        put_schema(&mut spelled, schema)?;
        total += spelled.len() as u64;
    }
    Ok(total > MAX_BLOB_BYTES)
}

// Whether a type has fewer than 2^32 key paths.
fn has_few_paths(schema: &Schema) -> bool
    ensures { MatchBool result (HasFewPaths schema.now) (HasManyPaths schema.now) }
{
    match &schema.shape {
        Shape::Object(Some(paths), _) => (paths.len() as u64) < 0x1_0000_0000,
        _ => true,
    }
}
