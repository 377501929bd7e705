//! The part of a type in a delta, as a consumer sees it.
ghost use Rattle.std.specs.Prelude.{◌≡◌, ◌↔◌, ◌≤◌, IfOk, IsTrue, length};
ghost use Rattle.schema_model.specs.Growth.{KindsAgree, ShapesAgree};
ghost use Rattle.schema_model.specs.Parts.{AreApart, shape_fields};
ghost use Rattle.type_rows.specs.Patches.{IsWellFormedPatch};
ghost use Rattle.seen_patches.specs.Seen.{AreColumns, IsColumned, IsSeen};

use crate::columns::{seen_areas, seen_widths, shared_bits};
use crate::named_fields::NamedFields;
use crate::words::seen_words;
use schema_model::{Field, Shape};
use std::alloc::{AllocError, Global};
use type_rows::PatchSection;

/// The section of a type in a delta, as a consumer sees it whose schema of the type may have other fields than that of the blob. Fields are found by
/// their names: columns that the consumer lacks are left out, and those that the blob lacks are null at each place, in 1 bit, or 2 of a BOOLEAN. `own`
/// counts the widths of the fields that both have.
///
/// Where both have the same fields the section is given back as it stands. Else the elements are laid out anew, place by place of the added ordinals, and
/// the variable bytes are moved, not copied: that takes time in proportion to the places times the consumer's fields, and memory for the new elements
/// alone. It fails where memory is refused, also where a blob adds so many ordinals that no limits let it have them all.
pub fn seen_section(
    alloc: Global,
    mine: &Shape,
    theirs: &Shape,
    raw: PatchSection,
) -> Result<PatchSection, AllocError>
    requires agree { ShapesAgree mine.now theirs.now }
    requires apart { AreApart (shape_fields mine.now) }
    requires few { length (shape_fields mine.now) ≤ 1024 }
    requires theirs_few { length (shape_fields theirs.now) ≤ 1024 }
    requires well { IsWellFormedPatch theirs.now raw }
    ensures { IfOk result (IsSeen mine.now theirs.now raw) }
{
    let own = mine.fields();
    let others = theirs.fields();
    if same_fields(own, others) {
        return Ok(raw);
    }
    with_columns(alloc, own, others, raw)
}

// Whether the fields are the same, where those of one name are of one kind: then their names alone are compared.
fn same_fields(mine: &[Field], theirs: &[Field]) -> bool
    requires { KindsAgree mine.now theirs.now }
    ensures { IsTrue result ↔ (mine.now ≡ theirs.now) }
{
    if mine.len() != theirs.len() {
        return false;
    }
    for (place, field) in mine.iter().enumerate() {
        if field.name.text() != theirs[place].name.text() {
            return false;
        }
    }
    true
}

// The section with the columns of the consumer's fields.
fn with_columns(
    alloc: Global,
    mine: &[Field],
    theirs: &[Field],
    raw: PatchSection,
) -> Result<PatchSection, AllocError>
    requires apart { AreApart mine.now }
    requires few { length mine.now ≤ 1024 }
    requires theirs_few { length theirs.now ≤ 1024 }
    requires columns { AreColumns theirs.now raw }
    ensures { IfOk result (IsColumned mine.now theirs.now raw) }
{
    let PatchSection {
        max,
        widths: raw_widths,
        own: _,
        total,
        first: raw_first,
        second,
        areas: raw_areas,
        removed,
        added,
    } = raw;
    let named = NamedFields::new(alloc, theirs)?;
    let old = raw_widths.as_slice();
    let widths = seen_widths(alloc, mine, &named, old)?;
    let own = shared_bits(mine, &named, old);
    let from = raw_first.as_slice();
    let new = widths.as_slice();
    let places = added.len();
    let first = seen_words(alloc, mine, &named, old, from, new, places)?;
    let areas = seen_areas(alloc, mine, &named, raw_areas)?;
    Ok(PatchSection {
        max,
        widths,
        own,
        total,
        first,
        second,
        areas,
        removed,
        added,
    })
}
