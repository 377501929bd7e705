//! The refusal of a blob, by its fault.
ghost use Rattle.std.specs.Prelude.{◌≡◌};
ghost use Rattle.hol_answers.specs.BlobRefusal.{refusal_of_blob};

use crate::{ItemFault, OriginFault, Refusal, RowPlace};
use blob_frame::BlobFault;
use hol_io::BlobName;
use hol_orders::OrderStop;

/// The refusal of the blob of this name for a fault of it, or why the call stops: the store failed, or memory was refused.
pub fn blob_refusal(name: &BlobName, fault: BlobFault) -> Result<Refusal, OrderStop>
    ensures { result ≡ refusal_of_blob name.now fault }
{
    match fault {
        BlobFault::NoBlob(_) => Ok(Refusal::NoBlob(*name)),
        BlobFault::Large(limit) => Ok(Refusal::TooLarge(limit)),
        BlobFault::Bad(at, reason) => Ok(Refusal::BadBlob(ItemFault {
            blob: *name,
            at,
            reason,
            row: None,
        })),
        BlobFault::BadRow(at, reason, type_name, ordinal) => Ok(Refusal::BadBlob(ItemFault {
            blob: *name,
            at,
            reason,
            row: Some(RowPlace { type_name, ordinal }),
        })),
        BlobFault::OtherOrigin(found, current) => Ok(Refusal::OtherOrigin(OriginFault {
            blob: *name,
            found,
            current,
        })),
        BlobFault::OtherModel(type_name) => Ok(Refusal::OtherModel {
            blob: *name,
            type_name,
        }),
        BlobFault::Store => Err(OrderStop::Store),
        BlobFault::Memory => Err(OrderStop::Memory),
    }
}
