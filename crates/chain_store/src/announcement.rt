//! The announced version.
ghost use Rattle.std.specs.Prelude.{◌≡◌, ◌≤◌, IfOk, IfSome};
ghost use Rattle.hol_io.specs.Causes.{HasCause};
ghost use Rattle.hol_io.specs.Store.{told};
ghost use Rattle.hol_io.specs.declared.name.BlobName.TheVariants as blob;
ghost use Rattle.chain_store.specs.Announced.{TellsAnnounced};

use hol_io::{BlobName, BlobStore, StoreFailed, parse_version};

/// A version has so many digits at most.
const DIGITS: usize = 19;

/// What a store has as its announced version.
#[derive(Debug, Clone, Copy, PartialEq, Eq)]
pub enum Announcement {
    /// The version that is announced, 0 where none is.
    Version(u64),
    /// The content is no version in decimal.
    Bad,
}

/// What a store announces: the version that the content of `announced.version` is in decimal, 0 where the store has no such name, and `Bad`
/// exactly where the content is no number from 1 to 2^63 - 1 without leading zeros. `StoreFailed` comes only where the store's count of faults
/// rose.
pub fn announced_version<S: BlobStore>(store: &mut S) -> Result<Announcement, StoreFailed>
    ensures tells { IfSome (S.seen store.old).held (λ held. IfOk result (TellsAnnounced (told (S.seen store.old).held blob.Announced))) }
    ensures cause { HasCause (S.seen store.old).faults (S.seen store.new).faults result }
    ensures kept { (S.seen store.new).held ≡ (S.seen store.old).held }
    ensures unput { (S.seen store.new).puts ≡ (S.seen store.old).puts }
{
    let Some(size) = store.size(&BlobName::Announced)? else {
        return Ok(Announcement::Version(0));
    };
    if size > DIGITS as u64 {
        return Ok(Announcement::Bad);
    }
    let mut digits = [0; DIGITS];
    let count = store.read_at(&BlobName::Announced, 0, &mut digits)?;
    Ok(version_in(&digits[..count]))
}

// What content announces.
fn version_in(content: &[u8]) -> Announcement
    ensures { TellsAnnounced (Some content.now) result }
{
    let Ok(text) = std::str::from_utf8(content) else {
        return Announcement::Bad;
    };
    match parse_version(text) {
        Some(version) => Announcement::Version(version),
        None => Announcement::Bad,
    }
}
