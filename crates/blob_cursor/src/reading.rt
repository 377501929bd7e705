//! Reading the header of a blob.
ghost use Rattle.std.specs.Prelude.{IfSome};
ghost use Rattle.hol_io.specs.Store.{told};
ghost use Rattle.blob_frame.specs.Header.{header, format, schema_envelope, listed_schemas, header_tags};
ghost use Rattle.blob_cursor.specs.Scene.{IsAbove, Leads, Exactly};

use crate::cursor::Cursor;
use crate::readable::counted;
use blob_frame::{BlobFault, FORMAT, Header};
use hol_io::BlobStore;
use schema_model::{NamePairs, Reason, Schemas};

impl Cursor {
    /// The header of the blob, from its start. The fault is that of the first item that cannot be read;
    /// `OtherFormat` stands at 0 where the format is not 1030.
    pub fn read_header<S: BlobStore>(&mut self, store: &mut S) -> Result<Header, BlobFault>
        requires over { IsAbove S.seen store.old self.old }
        ensures reads { Leads S.seen header store.old self.old store.new self.new result }
        ensures exact { IfSome (told (S.seen store.old).held self.old.name)
            (λ blob. Exactly header blob self.old.at result) }
    {
        self.header(store)
    }

    /// The header, as its items stand.
    fn header<S: BlobStore>(&mut self, store: &mut S) -> Result<Header, BlobFault>
        requires over { IsAbove S.seen store.old self.old }
        ensures reads { Leads S.seen header store.old self.old store.new self.new result }
    {
        self.format(store)?;
        let origin = self.signed(store)?;
        let destination = self.signed(store)?;
        let schemas = self.schema_envelope(store)?;
        let tags = self.header_tags(store)?;
        Ok(Header {
            origin,
            destination,
            schemas,
            tags,
        })
    }

    /// The format, which is 1030.
    fn format<S: BlobStore>(&mut self, store: &mut S) -> Result<(), BlobFault>
        requires over { IsAbove S.seen store.old self.old }
        ensures reads { Leads S.seen format store.old self.old store.new self.new result }
    {
        let at = self.at();
        let number = self.be32(store)?;
        if number != FORMAT {
            return Err(BlobFault::Bad(at, Reason::OtherFormat));
        }
        Ok(())
    }

    /// The schemas that the header lists; none where the envelope's number is 0.
    fn schema_envelope<S: BlobStore>(&mut self, store: &mut S) -> Result<Schemas, BlobFault>
        requires over { IsAbove S.seen store.old self.old }
        ensures reads { Leads S.seen schema_envelope store.old self.old store.new self.new result }
    {
        let number = self.vint(store)?;
        if number == 0 {
            return Ok(Schemas::new(self.allocator()));
        }
        self.listed_schemas(store)
    }

    /// The schemas that stand in an envelope behind its number, and the bytes to skip behind them.
    fn listed_schemas<S: BlobStore>(&mut self, store: &mut S) -> Result<Schemas, BlobFault>
        requires over { IsAbove S.seen store.old self.old }
        ensures reads { Leads S.seen listed_schemas store.old self.old store.new self.new result }
    {
        let listed = self.schemas(store)?;
        let count = self.vint(store)?;
        self.skip_counted(count)?;
        Ok(listed)
    }

    /// The pairs of texts of the header, their number first.
    fn header_tags<S: BlobStore>(&mut self, store: &mut S) -> Result<NamePairs, BlobFault>
        requires over { IsAbove S.seen store.old self.old }
        ensures reads { Leads S.seen header_tags store.old self.old store.new self.new result }
    {
        let count = self.be16(store)?;
        counted(self, store, u64::from(count))
    }
}
