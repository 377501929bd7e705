//! Closedness of the rows that come in a step. A row that stays names what it named, so it is tried only where rows left in a type that its own
//! names; and each row that came is tried.
ghost use Rattle.std.specs.Prelude.{◌≡◌, ◌↔◌, ◌<◌, ◌⊎◌, All, IfOk, IfSome, IsSomeAnd, IsTrue, MatchResult, length, slice_get};
ghost use Rattle.std.specs.List.{AllZip};
ghost use Rattle.closed_rows.specs.Dangling.{IsClosedAt};
ghost use Rattle.schema_model.specs.Parts.{referenced};
ghost use Rattle.row_model.specs.Table.{IsClosed};
ghost use Rattle.blob_faults.specs.Blame.{BlamesRow};
ghost use Rattle.blob_faults.specs.Judge.{Blames};
ghost use Rattle.blob_faults.specs.Rows.{closed};
ghost use Rattle.state_moves.specs.Closing.{HasKept, IsTypeClosed, KeepsNamed, NamesKept};
ghost use Rattle.state_moves.specs.Judged.{IsFreeMove, offset_among, offsets_among};
ghost use Rattle.row_model.specs.Before.{FitsPast, table_before};

use crate::coming::Coming;
use crate::past::{PastPart, part_at};
use blob_faults::blame_rows;
use blob_frame::BlobFault;
use closed_rows::{Dangling, is_closed_at};
use column_rows::{are_closed_at, dangling_in, first_dangling};
use delta_blob::PatchPart;
use row_model::Rows;
use schema_model::{Field, FieldKind, Model, Name, Reason, Shape};
use std::alloc::{AllocError, Global};
use type_rows::RowFault;

/// Tries whether each ordinal that a row names that comes is live, where those of the rows before were. The first row that names another one is at
/// fault, at the offset of the part that names its type, or at the length of the blob, `size`, where no part does.
pub(crate) fn check_closed(
    alloc: Global,
    rows: &Coming<'_>,
    past: &[PastPart],
    parts: &[PatchPart],
    size: u64,
) -> Result<(), BlobFault>
    requires fits { AllZip FitsPast rows.now.table past.now }
    requires closed { IsClosed rows.now.schemas (table_before rows.now.table past.now) }
    ensures { MatchResult result (λ done. IsClosed rows.now.schemas rows.now.table) (Blames (closed (offsets_among rows.now.schemas parts.now size) rows.now.schemas rows.now.table) IsFreeMove) }
{
    if have_closed(alloc, rows, past)? {
        return Ok(());
    }
    match first_dangling(alloc, rows)? {
        Some(found) => Err(blame_row(alloc, rows.model(), parts, size, found)),
        None => Ok(()),
    }
}

// The fault of a row that comes and names an ordinal that is not live.
fn blame_row(
    alloc: Global,
    model: &Model,
    parts: &[PatchPart],
    size: u64,
    found: Dangling,
) -> BlobFault
    requires { found.type_index < length model.now }
    ensures { BlamesRow (offsets_among model.now parts.now size) model.now found result ⊎ IsFreeMove result }
{
    let at = offset_of(parts, size, found.type_index);
    let name = &model.schema(found.type_index).name;
    let fault = RowFault::At(Reason::Dangling, u64::from(found.ordinal));
    blame_rows(alloc, at, name, fault)
}

// The offset of the schema of a type: that of the part that names it, and the length of the blob where none does.
fn offset_of(parts: &[PatchPart], size: u64, type_index: u32) -> u64
    ensures { result ≡ offset_among parts.now size type_index }
{
    for part in parts {
        if part.type_index == type_index {
            return part.at;
        }
    }
    size
}

// Whether the rows that come name live ordinals alone.
fn have_closed(alloc: Global, rows: &Coming<'_>, past: &[PastPart]) -> Result<bool, AllocError>
    requires fits { AllZip FitsPast rows.now.table past.now }
    requires closed { IsClosed rows.now.schemas (table_before rows.now.table past.now) }
    ensures { IfOk result (λ closed. IsTrue closed ↔ IsClosed rows.now.schemas rows.now.table) }
{
    for type_index in 0..rows.model().len() {
        if !is_type_closed(alloc, rows, past, type_index)? {
            return Ok(false);
        }
    }
    Ok(true)
}

// Whether the rows that come in a type name live ordinals alone. All are tried where rows left in a type that they name, and else those that
// came.
fn is_type_closed(
    alloc: Global,
    rows: &Coming<'_>,
    past: &[PastPart],
    type_index: u32,
) -> Result<bool, AllocError>
    requires type_there { type_index < length rows.now.schemas }
    requires fits { AllZip FitsPast rows.now.table past.now }
    requires closed { IsClosed rows.now.schemas (table_before rows.now.table past.now) }
    ensures { IfOk result (λ closed. IsTrue closed ↔ IsTypeClosed rows.now.schemas rows.now.table type_index) }
{
    let model = rows.model();
    let shape = &model.schema(type_index).shape;
    let came = part_at(past, type_index).came().as_slice();
    if names_kept(model, past, shape) {
        are_closed(alloc, rows, shape, type_index, came)
    } else {
        Ok(dangling_in(alloc, rows, type_index)?.is_none())
    }
}

// Whether the rows under some ordinals of a type of this shape name live ordinals alone.
fn are_closed(
    alloc: Global,
    rows: &Coming<'_>,
    shape: &Shape,
    type_index: u32,
    ordinals: &[u32],
) -> Result<bool, AllocError>
    requires { IsSomeAnd (slice_get rows.now.schemas type_index) (λ schema. schema.shape ≡ shape.now) }
    ensures { IfOk result (λ closed. IsTrue closed ↔ All (IsClosedAt rows.now.schemas rows.now.table type_index) ordinals.now) }
{
    if are_closed_at(rows, type_index, ordinals) {
        return Ok(true);
    }
    for ordinal in ordinals {
        if !is_closed_at(alloc, rows, shape, type_index, *ordinal)? {
            return Ok(false);
        }
    }
    Ok(true)
}

// Whether no row left in the types that a shape names.
fn names_kept(model: &Model, past: &[PastPart], shape: &Shape) -> bool
    ensures { IsTrue result ↔ NamesKept model.now past.now shape.now }
{
    match shape {
        Shape::Object(_, fields) => keeps_referenced(model, past, fields.as_slice()),
        Shape::List(element) => keeps_named(model, past, element),
        Shape::Set(element) => keeps_named(model, past, element),
        Shape::Map(key, value) => keeps_named(model, past, key) && keeps_named(model, past, value),
    }
}

// Whether no row left in the types that some fields refer to.
fn keeps_referenced(model: &Model, past: &[PastPart], fields: &[Field]) -> bool
    ensures { IsTrue result ↔ All (λ field. IfSome (referenced field.kind) (KeepsNamed model.now past.now)) fields.now }
{
    fields
        .iter()
        .all(|field| keeps_kind(model, past, &field.kind))
}

// Whether no row left in the type that a field of this kind refers to, if it refers to one.
fn keeps_kind(model: &Model, past: &[PastPart], kind: &FieldKind) -> bool
    ensures { IsTrue result ↔ IfSome (referenced kind.now) (KeepsNamed model.now past.now) }
{
    match kind {
        FieldKind::Reference(name) => keeps_named(model, past, name),
        _ => true,
    }
}

// Whether no row left in the type of this name.
fn keeps_named(model: &Model, past: &[PastPart], name: &Name) -> bool
    ensures { IsTrue result ↔ KeepsNamed model.now past.now name.now }
{
    match model.index_of(name.text()) {
        Some(type_index) => has_kept(past, type_index),
        None => true,
    }
}

// Whether no row left in a type.
fn has_kept(past: &[PastPart], type_index: u32) -> bool
    ensures { IsTrue result ↔ HasKept past.now type_index }
{
    match past.get(type_index as usize) {
        Some(part) => part.gone().is_empty(),
        None => true,
    }
}
