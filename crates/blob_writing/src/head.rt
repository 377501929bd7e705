//! What is written in front of a type's section.
ghost use Rattle.std.specs.Prelude.{◌≡◌, ◌++◌, OnOk, OnErr, length, take};
ghost use Rattle.schema_model.specs.Schema.{IsSpellable};
ghost use Rattle.blob_writing.specs.Written.{type_head_bytes};

use crate::items::or_undone;
use schema_bytes::put_schema;
use schema_model::Schema;
use std::alloc::AllocError;

/// The shard envelope: a number that is not 0, no bytes to skip, and one shard.
const ONE_SHARD: [u8; 3] = [2, 0, 1];

/// Writes the head of a type at the end: its schema, and its shard envelope, which names one shard. Where memory is
/// refused nothing is written.
pub fn put_type_head(out: &mut Vec<u8>, schema: &Schema) -> Result<(), AllocError>
    requires { IsSpellable schema.now }
    ensures ok { OnOk result (out.new.items ≡ out.old.items ++ type_head_bytes schema.now) }
    ensures err { OnErr result (out.new.items ≡ out.old.items) }
{
    let start = out.len();
    let written = push_type_head(out, schema);
    or_undone(out, start, written)
}

// Writes the head of a type at the end. Where memory is refused its schema may stand there.
fn push_type_head(out: &mut Vec<u8>, schema: &Schema) -> Result<(), AllocError>
    requires { IsSpellable schema.now }
    ensures ok { OnOk result (out.new.items ≡ out.old.items ++ type_head_bytes schema.now) }
    ensures kept { take (length out.old.items) out.new.items ≡ out.old.items }
{
    put_schema(out, schema)?;
    out.extend_from_slice(&ONE_SHARD)
}
