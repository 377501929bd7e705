//! The fault of a blob for a fault of the rows of a type.
ghost use Rattle.std.specs.Prelude.{◌≡◌, ◌⊎◌};
ghost use Rattle.blob_faults.specs.Blame.{row_blame};

use blob_frame::BlobFault;
use hol_varint::Duplicate;
use schema_model::Name;
use std::alloc::Global;
use type_rows::RowFault;

/// The fault of a blob for a fault of the rows of the type of this name, whose schema stands at this offset. `Memory` comes where memory is
/// refused too.
pub fn blame_rows(alloc: Global, at: u64, name: &Name, fault: RowFault) -> BlobFault
    ensures { (result ≡ row_blame at name.now fault) ⊎ (result ≡ BlobFault.Memory) }
{
    match fault {
        RowFault::At(reason, ordinal) => match name.copy(alloc) {
            Ok(name) => BlobFault::BadRow(at, reason, name, ordinal),
            Err(_) => BlobFault::Memory,
        },
        RowFault::Limit(limit) => BlobFault::Large(limit),
        RowFault::Memory => BlobFault::Memory,
    }
}
