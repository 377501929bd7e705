//! Reading a schema: its kind, its name, and what its kind calls for.
ghost use Rattle.std.specs.Prelude.{IfErr, IfSome};
ghost use Rattle.std.specs.Int.{w16};
ghost use Rattle.hol_io.specs.Store.{told};
ghost use Rattle.blob_grammar.specs.Form.{at_most};
ghost use Rattle.blob_frame.specs.Item.{fixed, vint};
ghost use Rattle.blob_frame.specs.SchemaForm.{schema_kind, field_type, field_kind_of, field, fields, key_paths, shape_of, schema, schemas};
ghost use Rattle.blob_cursor.specs.Scene.{IsAbove, Leads, IsReadFault, Exactly};

use crate::cursor::Cursor;
use crate::readable::{Readable, counted};
use blob_frame::BlobFault;
use blob_grammar::{FieldType, SchemaKind, kind_of, type_of};
use hol_io::BlobStore;
use schema_model::{
    Field, FieldKind, Fields, MAX_FIELDS, MAX_TYPES, Name, Names, Reason, Schema, Schemas, Shape,
};

impl Cursor {
    /// The next schema. Its faults are those of its items; `BadSchema` stands at a kind, a count or a field's type that
    /// is none, `KeyedHash` at the kind of a set or map with a hash key, `FloatField` at FLOAT and DOUBLE.
    pub fn schema<S: BlobStore>(&mut self, store: &mut S) -> Result<Schema, BlobFault>
        requires over { IsAbove S.seen store.old self.old }
        ensures reads { Leads S.seen schema store.old self.old store.new self.new result }
        ensures exact { IfSome (told (S.seen store.old).held self.old.name)
            (λ blob. Exactly schema blob self.old.at result) }
    {
        self.whole_schema(store)
    }

    /// The next schema, as its items stand.
    fn whole_schema<S: BlobStore>(&mut self, store: &mut S) -> Result<Schema, BlobFault>
        requires over { IsAbove S.seen store.old self.old }
        ensures reads { Leads S.seen schema store.old self.old store.new self.new result }
    {
        let kind = self.schema_kind(store)?;
        let name = self.utf(store)?;
        let shape = self.shape(store, kind)?;
        Ok(Schema { name, shape })
    }

    /// The next kind of a schema.
    fn schema_kind<S: BlobStore>(&mut self, store: &mut S) -> Result<SchemaKind, BlobFault>
        requires over { IsAbove S.seen store.old self.old }
        ensures reads { Leads S.seen schema_kind store.old self.old store.new self.new result }
    {
        let at = self.at();
        let byte = self.byte(store)?;
        match kind_of(byte) {
            Ok(kind) => Ok(kind),
            Err(reason) => Err(BlobFault::Bad(at, reason)),
        }
    }

    /// What a kind calls for behind a type's name.
    fn shape<S: BlobStore>(&mut self, store: &mut S, kind: SchemaKind) -> Result<Shape, BlobFault>
        requires over { IsAbove S.seen store.old self.old }
        ensures reads { Leads S.seen (shape_of kind) store.old self.old store.new self.new result }
    {
        match kind {
            SchemaKind::Object => {
                let fields = self.fields(store)?;
                Ok(Shape::Object(None, fields))
            }
            SchemaKind::KeyedObject => {
                let (paths, fields) = <(Names, Fields)>::read(self, store)?;
                Ok(Shape::Object(Some(paths), fields))
            }
            SchemaKind::Set => {
                let element = self.utf(store)?;
                Ok(Shape::Set(element))
            }
            SchemaKind::List => {
                let element = self.utf(store)?;
                Ok(Shape::List(element))
            }
            SchemaKind::Map => {
                let (key, value) = <(Name, Name)>::read(self, store)?;
                Ok(Shape::Map(key, value))
            }
        }
    }

    /// The paths of a primary key, their number first.
    pub(crate) fn key_paths<S: BlobStore>(&mut self, store: &mut S) -> Result<Names, BlobFault>
        requires over { IsAbove S.seen store.old self.old }
        ensures reads { Leads S.seen key_paths store.old self.old store.new self.new result }
    {
        let count = self.vint(store)?;
        counted(self, store, u64::from(count))
    }

    /// The fields of a type, their number first.
    pub(crate) fn fields<S: BlobStore>(&mut self, store: &mut S) -> Result<Fields, BlobFault>
        requires over { IsAbove S.seen store.old self.old }
        ensures reads { Leads S.seen fields store.old self.old store.new self.new result }
    {
        let count = self.field_count(store)?;
        counted(self, store, u64::from(count))
    }

    /// The number of a type's fields.
    fn field_count<S: BlobStore>(&mut self, store: &mut S) -> Result<u16, BlobFault>
        requires over { IsAbove S.seen store.old self.old }
        ensures reads { Leads S.seen (at_most (fixed w16) 1024) store.old self.old store.new self.new result }
    {
        let at = self.at();
        let count = self.be16(store)?;
        if count > MAX_FIELDS {
            return Err(BlobFault::Bad(at, Reason::BadSchema));
        }
        Ok(count)
    }

    /// The next field: its name, its type's name, and what that calls for.
    pub(crate) fn field<S: BlobStore>(&mut self, store: &mut S) -> Result<Field, BlobFault>
        requires over { IsAbove S.seen store.old self.old }
        ensures reads { Leads S.seen field store.old self.old store.new self.new result }
    {
        let name = self.utf(store)?;
        let type_name = self.field_type(store)?;
        let kind = self.field_kind(store, type_name)?;
        Ok(Field { name, kind })
    }

    /// The name of a field's type.
    fn field_type<S: BlobStore>(&mut self, store: &mut S) -> Result<FieldType, BlobFault>
        requires over { IsAbove S.seen store.old self.old }
        ensures reads { Leads S.seen field_type store.old self.old store.new self.new result }
    {
        let at = self.at();
        let text = self.utf(store)?;
        match type_of(text.text()) {
            Ok(found) => Ok(found),
            Err(reason) => Err(BlobFault::Bad(at, reason)),
        }
    }

    /// What a field of a type holds: behind REFERENCE stands the type that it refers to.
    fn field_kind<S: BlobStore>(
        &mut self,
        store: &mut S,
        type_name: FieldType,
    ) -> Result<FieldKind, BlobFault>
        requires over { IsAbove S.seen store.old self.old }
        ensures reads { Leads S.seen (field_kind_of type_name) store.old self.old store.new self.new result }
    {
        match type_name {
            FieldType::Reference => {
                let to = self.utf(store)?;
                Ok(FieldKind::Reference(to))
            }
            FieldType::Int => Ok(FieldKind::Int),
            FieldType::Long => Ok(FieldKind::Long),
            FieldType::Boolean => Ok(FieldKind::Boolean),
            FieldType::Text => Ok(FieldKind::Text),
            FieldType::Bytes => Ok(FieldKind::Bytes),
        }
    }

    /// The next list of schemas, their number first.
    pub(crate) fn schemas<S: BlobStore>(&mut self, store: &mut S) -> Result<Schemas, BlobFault>
        requires over { IsAbove S.seen store.old self.old }
        ensures reads { Leads S.seen schemas store.old self.old store.new self.new result }
    {
        let count = self.type_count(store)?;
        counted(self, store, u64::from(count))
    }

    /// The number of types, which is 512 at most, else `BadSchema` at it.
    pub fn type_count<S: BlobStore>(&mut self, store: &mut S) -> Result<u32, BlobFault>
        requires over { IsAbove S.seen store.old self.old }
        ensures reads { Leads S.seen (at_most vint 512) store.old self.old store.new self.new result }
        ensures kind { IfErr result IsReadFault }
    {
        let at = self.at();
        let count = self.vint(store)?;
        if count > MAX_TYPES {
            return Err(BlobFault::Bad(at, Reason::BadSchema));
        }
        Ok(count)
    }
}
