//! The tags of a store's blobs.
ghost use Rattle.std.specs.Prelude.{◌≡◌, ◌≤◌, ◌+◌, ◌↔◌, Any, IfOk, IfSome, IsTrue, length};
ghost use Rattle.hol_io.specs.Causes.{HasCause};
ghost use Rattle.hol_io.specs.Store.{told};
ghost use Rattle.chain_store.specs.Tags.{FrontHas, HaveTag, IsFrontOf, IsTagged, number_at};

use hol_io::{BlobName, BlobStore, StoreFailed};

/// The format and the two tags of a blob take so many bytes.
const FRONT: usize = 20;

/// The format that blobs are of.
const FORMAT: u32 = 1030;

/// Whether a snapshot, delta or reverse delta among these names of a store has the tag as that of the state that it leads from or to: in its
/// first 20 bytes, which begin with the format. `StoreFailed` comes only where the store's count of faults rose.
pub fn is_tag_taken<S: BlobStore>(
    store: &mut S,
    listed: &[BlobName],
    tag: i64,
) -> Result<bool, StoreFailed>
    ensures taken { IfSome (S.seen store.old).held (λ held. IfOk result (λ taken. IsTrue taken ↔ HaveTag held listed.now tag)) }
    ensures cause { HasCause (S.seen store.old).faults (S.seen store.new).faults result }
    ensures kept { (S.seen store.new).held ≡ (S.seen store.old).held }
    ensures unput { (S.seen store.new).puts ≡ (S.seen store.old).puts }
{
    are_tagged(store, listed, tag.cast_unsigned())
}

// Whether a blob of one of these names has a tag of these bits.
fn are_tagged<S: BlobStore>(
    store: &mut S,
    listed: &[BlobName],
    bits: u64,
) -> Result<bool, StoreFailed>
    ensures tagged { IfSome (S.seen store.old).held (λ held. IfOk result (λ tagged. IsTrue tagged ↔ Any (IsTagged held bits) listed.now)) }
    ensures cause { HasCause (S.seen store.old).faults (S.seen store.new).faults result }
    ensures kept { (S.seen store.new).held ≡ (S.seen store.old).held }
    ensures unput { (S.seen store.new).puts ≡ (S.seen store.old).puts }
{
    for name in listed {
        if is_tagged(store, name, bits)? {
            return Ok(true);
        }
    }
    Ok(false)
}

// Whether the blob of a name has a tag of these bits.
fn is_tagged<S: BlobStore>(store: &mut S, name: &BlobName, bits: u64) -> Result<bool, StoreFailed>
    ensures tagged { IfSome (S.seen store.old).held (λ held. IfOk result (λ tagged. IsTrue tagged ↔ IsTagged held bits name.now)) }
    ensures cause { HasCause (S.seen store.old).faults (S.seen store.new).faults result }
    ensures kept { (S.seen store.new).held ≡ (S.seen store.old).held }
    ensures unput { (S.seen store.new).puts ≡ (S.seen store.old).puts }
{
    if *name == BlobName::Announced {
        return Ok(false);
    }
    match front_of(store, name)? {
        Some(front) => Ok(has_tag(&front, bits)),
        None => Ok(false),
    }
}

// The first bytes of what a name holds, if it holds so many.
fn front_of<S: BlobStore>(
    store: &mut S,
    name: &BlobName,
) -> Result<Option<[u8; FRONT]>, StoreFailed>
    ensures front { IfSome (S.seen store.old).held (λ held. IfOk result (IsFrontOf (told (S.seen store.old).held name.now))) }
    ensures cause { HasCause (S.seen store.old).faults (S.seen store.new).faults result }
    ensures kept { (S.seen store.new).held ≡ (S.seen store.old).held }
    ensures unput { (S.seen store.new).puts ≡ (S.seen store.old).puts }
{
    let mut front = [0; FRONT];
    let count = store.read_at(name, 0, &mut front)?;
    if count < FRONT {
        return Ok(None);
    }
    Ok(Some(front))
}

// Whether the first bytes of a blob have a tag of these bits.
fn has_tag(front: &[u8], bits: u64) -> bool
    requires { length front.now ≡ 20 }
    ensures { IsTrue result ↔ FrontHas bits front.now }
{
    front.starts_with(&FORMAT.to_be_bytes())
        && (number_at(front, 4) == bits || number_at(front, 12) == bits)
}

// The number of the 8 bytes at an offset.
fn number_at(front: &[u8], offset: usize) -> u64
    requires { offset + 8 ≤ length front.now }
    ensures { result ≡ number_at front.now offset }
{
    let mut bytes = [0; 8];
    bytes.copy_from_slice(&front[offset..offset + 8]);
    u64::from_be_bytes(bytes)
}
