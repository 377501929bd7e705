//! Reading numbers of variable length.
ghost use Rattle.std.specs.Prelude.{◌≡◌, ◌<◌, ℕ, length, take, slice_index, IfErr, MatchOption, if◌then◌else◌};
ghost use Rattle.hol_io.specs.Store.{told};
ghost use Rattle.hol_varint.specs.Varint.{GoOn};
ghost use Rattle.blob_frame.specs.Item.{vint, vlong};
ghost use Rattle.blob_cursor.specs.Scene.{IsAbove, Leads, IsOver, IsReadFault, Reads, scene};
ghost use Rattle.blob_cursor.specs.Filling.{Seeks, HasAhead};

use crate::cursor::Cursor;
use blob_frame::BlobFault;
use hol_io::BlobStore;
use hol_varint::{VarFault, get_vlong};
use schema_model::Reason;

/// So many bytes tell whether a number fits: one that goes on past them is too large, if it ends.
const LONGEST: usize = 10;

/// The place of the first byte that ends a number.
#[tactic(auto, using(crate::proofs::Seeking::go_on_more))]
fn first_stop(bytes: &[u8]) -> Option<usize>
    ensures { MatchOption result (GoOn bytes.now)
        (λ place. (place < length bytes.now) × GoOn (take place bytes.now) × (slice_index bytes.now place < 128)) }
{
    for (place, byte) in bytes.iter().enumerate() {
        if *byte < 128 {
            return Some(place);
        }
    }
    None
}

impl Cursor {
    /// The next VInt, a number below 2^32. `Truncated` where the blob ends inside it, `BadVarint` where
    /// it is null or too large.
    pub fn vint<S: BlobStore>(&mut self, store: &mut S) -> Result<u32, BlobFault>
        requires over { IsAbove S.seen store.old self.old }
        ensures reads { Leads S.seen vint store.old self.old store.new self.new result }
        ensures kind { IfErr result IsReadFault }
    {
        let at = self.at();
        let number = self.vlong(store)?;
        if number > u64::from(u32::MAX) {
            return Err(BlobFault::Bad(at, Reason::BadVarint));
        }
        Ok(number as u32)
    }

    /// The next VLong, a number below 2^64. `Truncated` where the blob ends inside it, `BadVarint`
    /// where it is null or too large.
    pub fn vlong<S: BlobStore>(&mut self, store: &mut S) -> Result<u64, BlobFault>
        requires over { IsAbove S.seen store.old self.old }
        ensures reads { Leads S.seen vlong store.old self.old store.new self.new result }
        ensures kind { IfErr result IsReadFault }
    {
        self.want(store, LONGEST)?;
        match get_vlong(self.ahead(), 0) {
            Ok((number, next)) => {
                self.pass(next);
                Ok(number)
            }
            Err(VarFault::Null) => Err(self.bad(Reason::BadVarint)),
            Err(VarFault::Long) => Err(self.bad(Reason::BadVarint)),
            Err(VarFault::Short) => {
                let at = self.at();
                let stops = self.stops(store)?;
                Err(BlobFault::Bad(at, unended(stops)))
            }
        }
    }

    /// Whether a byte that ends a number comes before the blob does. The cursor moves on.
    fn stops<S: BlobStore>(&mut self, store: &mut S) -> Result<bool, BlobFault>
        requires over { IsAbove S.seen store.old self.old }
        requires ahead { HasAhead 1 (scene (S.seen store.old) self.old) }
        ensures seeks { Seeks (scene (S.seen store.old) self.old)
            (scene (S.seen store.new) self.new) result }
    {
        while !self.ahead().is_empty() {
            match first_stop(self.ahead()) {
                Some(_) => return Ok(true),
                None => {
                    let count = self.ahead().len();
                    self.pass(count);
                    self.want(store, 1)?;
                }
            }
        }
        Ok(false)
    }
}

/// Why a number that goes on past its longest cannot be read.
fn unended(stops: bool) -> Reason
    ensures { result ≡ (if stops then Reason.BadVarint else Reason.Truncated) }
{
    if stops {
        Reason::BadVarint
    } else {
        Reason::Truncated
    }
}
