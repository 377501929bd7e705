//! One field of all records of a type.
ghost use Rattle.std.specs.Prelude.{ℕ, ◌≡◌, ◌+◌, ◌*◌, ◌^◌, ◌<◌, ◌≤◌};
ghost use Rattle.row_model.specs.declared.row.Value.{Value};
ghost use Rattle.object_codec.specs.Part.{SpellsValue};
ghost use Rattle.object_codec.specs.Bytes.{bytes_of};
ghost use Rattle.object_codec.specs.Parts.{IsRunWithin};
ghost use Rattle.object_codec.specs.Columns.{IsReadAt, part_of, Shows, ShowsPart};

use crate::bytes::PackedBytes;
use crate::part::{Part, read_part};
use crate::value_ref::ValueRef;
use schema_model::FieldKind;

/// One field of all records of an OBJECT type.
#[derive(Clone, Copy)]
pub struct Column<'a> {
    /// The kind of the field.
    pub kind: &'a FieldKind,
    /// The width of its elements, in bits.
    pub width: u32,
    /// The widths of the fields before it, in bits.
    pub before: u64,
    /// The width of a record, in bits.
    pub size: u64,
    /// The words of the records.
    pub first: &'a [u64],
    /// The bytes of the field.
    pub area: PackedBytes<'a>,
}

impl<'a> Column<'a> {
    /// The value of the field in the record at a place, which spells one. It takes no memory, and a constant time.
    #[inline(always)]
    pub fn value(&self, place: u64) -> ValueRef<'a>
        requires { IsReadAt self.now place }
        ensures { (value : Value) → SpellsValue self.now.kind.now (part_of self.now place) value → Shows result value }
    {
        let at = place * self.size + self.before;
        let part = read_part(
            self.first,
            self.kind,
            at,
            self.width,
            self.size,
            self.area.len,
        );
        match part {
            Ok(part) => self.shown(part),
            Err(_) => ValueRef::Null,
        }
    }

    /// What a part of the field is, with its bytes.
    #[inline(always)]
    fn shown(&self, part: Part) -> ValueRef<'a>
        requires { IsRunWithin self.now.area.len part }
        ensures { ShowsPart self.now.kind.now (bytes_of self.now.area) part result }
    {
        match part {
            Part::Null => ValueRef::Null,
            Part::Int(number) => ValueRef::Int(number),
            Part::Long(number) => ValueRef::Long(number),
            Part::Bool(flag) => ValueRef::Bool(flag),
            Part::Ref(ordinal) => ValueRef::Ref(ordinal),
            Part::Run(start, end) => {
                let bytes = self.area.between(start, end);
                if matches!(self.kind, FieldKind::Text) {
                    ValueRef::Text(bytes)
                } else {
                    ValueRef::Bytes(bytes)
                }
            }
        }
    }
}
