//! The types of a blob, each with its head and its section.
ghost use Rattle.std.specs.Prelude.{◌≡◌, ◌++◌, List, ℕ, OnOk, OnErr, length, take};
ghost use Rattle.std.specs.List.Sorted.{IsStrictlyIncreasing};
ghost use Rattle.ordinal_set.specs.Population.{AreUpTo, IsPopulation};
ghost use Rattle.schema_model.specs.Schema.{IsSpellable};
ghost use Rattle.blob_writing.specs.Carried.{FitBytes, FitGaps};
ghost use Rattle.blob_writing.specs.Written.{snapshot_type_bytes, delta_type_bytes, rows_by};

use crate::head::put_type_head;
use crate::items::{or_undone, put_max};
use crate::ordinals::put_ordinals;
use crate::packed::put_packed;
use hol_varint::Ordinals;
use ordinal_set::OrdinalSet;
use row_model::Packed;
use row_packing::Chosen;
use schema_model::Schema;
use std::alloc::AllocError;

/// Writes a type of a snapshot at the end: its head, the max ordinal, its packed rows and its population.
///
/// No live ordinal is above the max ordinal. Where memory is refused nothing is written.
pub fn put_snapshot_type(
    out: &mut Vec<u8>,
    schema: &Schema,
    chosen: &Chosen,
    packed: &Packed,
    live: &OrdinalSet,
) -> Result<(), AllocError>
    requires spellable { IsSpellable schema.now }
    requires up_to { AreUpTo chosen.now.max live.now }
    ensures ok { OnOk result ((bytes : List ℕ) × (out.new.items ≡ out.old.items ++ snapshot_type_bytes schema.now chosen.now.max (rows_by chosen.now packed.now) bytes) × IsPopulation live.now chosen.now.max bytes) }
    ensures fits { OnOk result (FitBytes schema.now.shape (rows_by chosen.now packed.now)) }
    ensures err { OnErr result (out.new.items ≡ out.old.items) }
{
    let start = out.len();
    let written = push_snapshot_type(out, schema, chosen, packed, live);
    or_undone(out, start, written)
}

// Writes a type of a snapshot at the end. Where memory is refused the first of it may stand there.
fn push_snapshot_type(
    out: &mut Vec<u8>,
    schema: &Schema,
    chosen: &Chosen,
    packed: &Packed,
    live: &OrdinalSet,
) -> Result<(), AllocError>
    requires spellable { IsSpellable schema.now }
    requires up_to { AreUpTo chosen.now.max live.now }
    ensures ok { OnOk result ((bytes : List ℕ) × (out.new.items ≡ out.old.items ++ snapshot_type_bytes schema.now chosen.now.max (rows_by chosen.now packed.now) bytes) × IsPopulation live.now chosen.now.max bytes) }
    ensures fits { OnOk result (FitBytes schema.now.shape (rows_by chosen.now packed.now)) }
    ensures kept { take (length out.old.items) out.new.items ≡ out.old.items }
{
    put_type_head(out, schema)?;
    put_max(out, chosen.max)?;
    put_packed(out, &schema.shape, chosen, packed)?;
    live.put_population(out, chosen.max)
}

/// Writes a type of a delta at the end: its head, the max ordinal, the ordinals that the delta removes and adds, and the
/// packed rows of the added ones, whose places are as many.
///
/// Both lists rise. Where memory is refused nothing is written.
pub fn put_delta_type(
    out: &mut Vec<u8>,
    schema: &Schema,
    chosen: &Chosen,
    removed: &Ordinals,
    added: &Ordinals,
    packed: &Packed,
) -> Result<(), AllocError>
    requires spellable { IsSpellable schema.now }
    requires removed { IsStrictlyIncreasing removed.now }
    requires added { IsStrictlyIncreasing added.now }
    ensures ok { OnOk result (out.new.items ≡ out.old.items ++ delta_type_bytes schema.now chosen.now.max removed.now added.now (rows_by chosen.now packed.now)) }
    ensures fits { OnOk result (FitGaps removed.now × FitGaps added.now × FitBytes schema.now.shape (rows_by chosen.now packed.now)) }
    ensures err { OnErr result (out.new.items ≡ out.old.items) }
{
    let start = out.len();
    let written = push_delta_type(out, schema, chosen, removed, added, packed);
    or_undone(out, start, written)
}

// Writes a type of a delta at the end. Where memory is refused the first of it may stand there.
fn push_delta_type(
    out: &mut Vec<u8>,
    schema: &Schema,
    chosen: &Chosen,
    removed: &Ordinals,
    added: &Ordinals,
    packed: &Packed,
) -> Result<(), AllocError>
    requires spellable { IsSpellable schema.now }
    requires removed { IsStrictlyIncreasing removed.now }
    requires added { IsStrictlyIncreasing added.now }
    ensures ok { OnOk result (out.new.items ≡ out.old.items ++ delta_type_bytes schema.now chosen.now.max removed.now added.now (rows_by chosen.now packed.now)) }
    ensures fits { OnOk result (FitGaps removed.now × FitGaps added.now × FitBytes schema.now.shape (rows_by chosen.now packed.now)) }
    ensures kept { take (length out.old.items) out.new.items ≡ out.old.items }
{
    put_type_head(out, schema)?;
    put_max(out, chosen.max)?;
    put_ordinals(out, removed, added)?;
    put_packed(out, &schema.shape, chosen, packed)
}
