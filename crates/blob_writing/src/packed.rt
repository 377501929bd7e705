//! The packed rows of a type.
ghost use Rattle.std.specs.Prelude.{◌≡◌, ◌<◌, ◌^◌, ◌++◌, All, OnOk, OnErr, length, take};
ghost use Rattle.blob_writing.specs.Carried.{FitWords, FitBytes};
ghost use Rattle.blob_writing.specs.Written.{records_bytes, runs_bytes, packed_bytes, rows_by};

use crate::items::{or_undone, push_areas, push_widths, push_words};
use hol_varint::put_vlong;
use row_model::Packed;
use row_packing::Chosen;
use schema_model::Shape;
use std::alloc::AllocError;

/// Writes the packed rows of a type of this shape at the end: the widths that are chosen for them; of an OBJECT the words of the records and the
/// bytes of each field, and of a LIST, SET or MAP the total, the words of the places and those of the elements or
/// buckets. Where memory is refused nothing is written.
pub fn put_packed(
    out: &mut Vec<u8>,
    shape: &Shape,
    chosen: &Chosen,
    packed: &Packed,
) -> Result<(), AllocError>
    ensures ok { OnOk result (out.new.items ≡ out.old.items ++ packed_bytes shape.now (rows_by chosen.now packed.now)) }
    ensures fits { OnOk result (FitBytes shape.now (rows_by chosen.now packed.now)) }
    ensures err { OnErr result (out.new.items ≡ out.old.items) }
{
    let start = out.len();
    let written = push_packed(out, shape, chosen, packed);
    or_undone(out, start, written)
}

// Writes the packed rows of a type of this shape at the end. Where memory is refused the first of it may stand there. So it is with all that follow.
fn push_packed(
    out: &mut Vec<u8>,
    shape: &Shape,
    chosen: &Chosen,
    packed: &Packed,
) -> Result<(), AllocError>
    ensures ok { OnOk result (out.new.items ≡ out.old.items ++ packed_bytes shape.now (rows_by chosen.now packed.now)) }
    ensures fits { OnOk result (FitBytes shape.now (rows_by chosen.now packed.now)) }
    ensures kept { take (length out.old.items) out.new.items ≡ out.old.items }
{
    push_widths(out, chosen.widths.as_slice())?;
    match shape {
        Shape::Object(_, _) => push_records(out, packed),
        Shape::List(_) | Shape::Set(_) | Shape::Map(_, _) => {
            push_runs(out, chosen.total, packed)
        }
    }
}

// What stands behind the widths of an OBJECT.
fn push_records(out: &mut Vec<u8>, packed: &Packed) -> Result<(), AllocError>
    ensures ok { OnOk result (out.new.items ≡ out.old.items ++ records_bytes packed.now) }
    ensures fits { OnOk result (FitWords packed.now.first × All (λ area. length area < 2 ^ 64) packed.now.areas) }
    ensures kept { take (length out.old.items) out.new.items ≡ out.old.items }
{
    push_words(out, packed.first.as_slice())?;
    push_areas(out, packed.areas.as_slice())
}

// What stands behind the widths of a LIST, SET or MAP.
fn push_runs(out: &mut Vec<u8>, total: u64, packed: &Packed) -> Result<(), AllocError>
    ensures ok { OnOk result (out.new.items ≡ out.old.items ++ runs_bytes total packed.now) }
    ensures fits { OnOk result ((total < 2 ^ 64) × FitWords packed.now.first × FitWords packed.now.second) }
    ensures kept { take (length out.old.items) out.new.items ≡ out.old.items }
{
    put_vlong(out, total)?;
    push_words(out, packed.first.as_slice())?;
    push_words(out, packed.second.as_slice())
}
