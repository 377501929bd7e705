//! Which types have records of bits alone.
ghost use Rattle.std.specs.Prelude.{◌↔◌, IsTrue};
ghost use Rattle.record_copies.specs.Fixed.{AreFixed};

use object_codec::has_bytes;
use schema_model::Field;

/// Whether no field is a STRING or BYTES, so that a record is the bits of its place alone.
pub fn is_fixed(fields: &[Field]) -> bool
    ensures { IsTrue result ↔ AreFixed fields.now }
{
    fields.iter().all(|field| !has_bytes(&field.kind))
}
