//! What a cursor reads from a blob, so many of it, and two things one behind the other.
ghost use Rattle.std.specs.Prelude.{◌≡◌, IfOk, length};
ghost use Rattle.blob_grammar.specs.Form.{repeated};
ghost use Rattle.blob_cursor.specs.Scene.{IsAbove, Leads};

use crate::cursor::Cursor;
use blob_frame::BlobFault;
use hol_io::BlobStore;
use hol_varint::{List, Octets};
use schema_model::{Field, Fields, Name, Names, Schema};

/// What a cursor reads from a blob.
pub trait Readable: Drop + Sized {
    ghost use Rattle.blob_grammar.specs.Form.{Form};
    ghost use Rattle.blob_cursor.specs.Scene.{IsAbove, Leads};

    // What stands in a blob for one.
    ghost form: { Form Self };

    /// Reads one. The fault is that of the first item that cannot be read, `Store` or `Memory`.
    fn read<S: BlobStore>(cursor: &mut Cursor, store: &mut S) -> Result<Self, BlobFault>
        requires over { IsAbove S.seen store.old cursor.old }
        ensures reads { Leads S.seen form store.old cursor.old store.new cursor.new result };
}

/// Reads so many, one behind the other. The fault is that of the first one that cannot be read, `Store` or `Memory`. The
/// memory that they take grows with those that are there.
pub fn counted<T: Readable, S: BlobStore>(
    cursor: &mut Cursor,
    store: &mut S,
    count: u64,
) -> Result<List<T>, BlobFault>
    requires over { IsAbove S.seen store.old cursor.old }
    ensures reads { Leads S.seen (repeated count T.form) store.old cursor.old store.new cursor.new result }
    ensures long { IfOk result (λ list. length list ≡ count) }
{
    let mut list = List::new(cursor.allocator());
    for _item in 0..count {
        list.push(T::read(cursor, store)?)?;
    }
    Ok(list)
}

impl<A: Readable, B: Readable> Readable for (A, B) {
    ghost use Rattle.blob_grammar.specs.Form.{both};
    ghost use Rattle.blob_cursor.specs.Scene.{IsAbove, Leads};

    ghost form = { both A.form B.form };

    fn read<S: BlobStore>(cursor: &mut Cursor, store: &mut S) -> Result<(A, B), BlobFault> {
        let first = A::read(cursor, store)?;
        let second = B::read(cursor, store)?;
        Ok((first, second))
    }
}

impl Readable for Name {
    ghost use Rattle.blob_frame.specs.Item.{name};
    ghost use Rattle.blob_cursor.specs.Scene.{IsAbove, Leads};

    ghost form = { name };

    fn read<S: BlobStore>(cursor: &mut Cursor, store: &mut S) -> Result<Name, BlobFault> {
        cursor.utf(store)
    }
}

impl Readable for Octets {
    ghost use Rattle.blob_frame.specs.Item.{counted_run};
    ghost use Rattle.blob_cursor.specs.Scene.{IsAbove, Leads};

    ghost form = { counted_run };

    fn read<S: BlobStore>(cursor: &mut Cursor, store: &mut S) -> Result<Octets, BlobFault> {
        cursor.counted_run(store)
    }
}

impl Readable for Field {
    ghost use Rattle.blob_frame.specs.SchemaForm.{field};
    ghost use Rattle.blob_cursor.specs.Scene.{IsAbove, Leads};

    ghost form = { field };

    fn read<S: BlobStore>(cursor: &mut Cursor, store: &mut S) -> Result<Field, BlobFault> {
        cursor.field(store)
    }
}

impl Readable for Fields {
    ghost use Rattle.blob_frame.specs.SchemaForm.{fields};
    ghost use Rattle.blob_cursor.specs.Scene.{IsAbove, Leads};

    ghost form = { fields };

    fn read<S: BlobStore>(cursor: &mut Cursor, store: &mut S) -> Result<Fields, BlobFault> {
        cursor.fields(store)
    }
}

impl Readable for Names {
    ghost use Rattle.blob_frame.specs.SchemaForm.{key_paths};
    ghost use Rattle.blob_cursor.specs.Scene.{IsAbove, Leads};

    ghost form = { key_paths };

    fn read<S: BlobStore>(cursor: &mut Cursor, store: &mut S) -> Result<Names, BlobFault> {
        cursor.key_paths(store)
    }
}

impl Readable for Schema {
    ghost use Rattle.blob_frame.specs.SchemaForm.{schema};
    ghost use Rattle.blob_cursor.specs.Scene.{IsAbove, Leads};

    ghost form = { schema };

    fn read<S: BlobStore>(cursor: &mut Cursor, store: &mut S) -> Result<Schema, BlobFault> {
        cursor.schema(store)
    }
}
