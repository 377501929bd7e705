//! Reading texts.
ghost use Rattle.blob_frame.specs.Item.{name, units};
ghost use Rattle.blob_cursor.specs.Scene.{IsAbove, Leads, IsOver, Reads, scene};

use crate::cursor::Cursor;
use blob_frame::BlobFault;
use hol_io::BlobStore;
use hol_varint::{Units, UtfFault, get_utf, text_of};
use schema_model::{Name, Reason};

impl Cursor {
    /// The next Java UTF text, with its length before it. `Truncated` where the blob ends inside it,
    /// `BadName` where its bytes are another spelling or its units are no well-formed UTF-16.
    pub fn utf<S: BlobStore>(&mut self, store: &mut S) -> Result<Name, BlobFault>
        requires over { IsAbove S.seen store.old self.old }
        ensures reads { Leads S.seen name store.old self.old store.new self.new result }
    {
        let start = self.at();
        let units = self.units(store)?;
        match text_of(self.allocator(), &units)? {
            Some(text) => Ok(Name::from_string(text)),
            None => Err(BlobFault::Bad(start, Reason::BadName)),
        }
    }

    /// The units of the next Java UTF text.
    fn units<S: BlobStore>(&mut self, store: &mut S) -> Result<Units, BlobFault>
        requires over { IsAbove S.seen store.old self.old }
        ensures reads { Leads S.seen units store.old self.old store.new self.new result }
    {
        let start = self.at();
        self.need(store, 2)?;
        let ahead = self.ahead();
        let length = u64::from(ahead[0]) * 256 + u64::from(ahead[1]) + 2;
        let spelled = self.run(store, length)?;
        match get_utf(self.allocator(), spelled.as_slice(), 0) {
            Ok((units, _)) => Ok(units),
            Err(UtfFault::Short) => Err(BlobFault::Bad(start, Reason::Truncated)),
            Err(UtfFault::BadName) => Err(BlobFault::Bad(start, Reason::BadName)),
            Err(UtfFault::Memory) => Err(BlobFault::Memory),
        }
    }
}
