//! What a consumer sees of a blob's columns: their widths, and their variable bytes.
ghost use Rattle.std.specs.Prelude.{◌≡◌, ◌<◌, ◌≤◌, [], All, IfOk, IfSome, length, option_and_then, slice_get, unwrap_or};
ghost use Rattle.schema_model.specs.Parts.{AreApart};
ghost use Rattle.seen_patches.specs.Nulls.{null_width};
ghost use Rattle.seen_patches.specs.Seen.{areas_left, seen_areas, seen_widths, shared_bits};

use crate::named_fields::NamedFields;
use hol_varint::Octets;
use row_model::{Areas, Widths};
use schema_model::{Field, FieldKind};
use std::alloc::{AllocError, Global};
use std::mem::replace;

/// The width of an element that is null and no more, in bits.
fn null_width(kind: &FieldKind) -> u32
    ensures { result ≡ null_width kind.now }
{
    match kind {
        FieldKind::Boolean => 2,
        _ => 1,
    }
}

// The width at a place; another one where there is no place.
fn width_at(widths: &[u32], place: Option<u32>, other: u32) -> u32
    requires { IfSome place (λ place. place < length widths.now) }
    ensures { result ≡ unwrap_or (option_and_then (slice_get widths.now) place) other }
{
    match place {
        Some(place) => widths[place as usize],
        None => other,
    }
}

/// The widths of a consumer's fields, in bits: those of the blob's fields of their names, and those of nulls for the fields that the blob lacks.
pub(crate) fn seen_widths(
    alloc: Global,
    mine: &[Field],
    theirs: &NamedFields<'_>,
    widths: &[u32],
) -> Result<Widths, AllocError>
    requires { length widths.now ≡ length theirs.now }
    ensures { IfOk result (λ seen. seen ≡ seen_widths mine.now theirs.now widths.now) }
{
    let mut seen = Widths::with_capacity(alloc, mine.len())?;
    for field in mine {
        let place = theirs.find(field.name.text());
        seen.push(width_at(widths, place, null_width(&field.kind)))?;
    }
    Ok(seen)
}

/// The widths of the fields that both have, together.
pub(crate) fn shared_bits(mine: &[Field], theirs: &NamedFields<'_>, widths: &[u32]) -> u32
    requires long { length widths.now ≡ length theirs.now }
    requires few { length mine.now ≤ 1024 }
    requires narrow { All (λ width. width ≤ 64) widths.now }
    ensures { result ≡ shared_bits mine.now theirs.now widths.now }
{
    let mut bits = 0;
    for field in mine {
        let place = theirs.find(field.name.text());
        bits += width_at(widths, place, 0);
    }
    bits
}

// Takes the variable bytes at a place out of those of all fields; none where there is no place.
fn take_area(alloc: Global, areas: &mut [Octets], place: Option<u32>) -> Octets
    requires { IfSome place (λ place. place < length areas.old) }
    ensures taken { result ≡ unwrap_or (option_and_then (slice_get areas.old) place) [] }
    ensures left { areas.new ≡ areas_left areas.old place }
{
    match place {
        Some(place) => replace(&mut areas[place as usize], Octets::new(alloc)),
        None => Octets::new(alloc),
    }
}

/// The variable bytes of a consumer's fields: those of the blob's fields of their names, moved, and none for the fields that the blob lacks.
pub(crate) fn seen_areas(
    alloc: Global,
    mine: &[Field],
    theirs: &NamedFields<'_>,
    areas: Areas,
) -> Result<Areas, AllocError>
    requires filled { length areas ≡ length theirs.now }
    requires apart { AreApart mine.now }
    ensures { IfOk result (λ seen. seen ≡ seen_areas mine.now theirs.now areas) }
{
    let mut areas = areas.into_vec();
    let mut seen = Areas::with_capacity(alloc, mine.len())?;
    for field in mine {
        let place = theirs.find(field.name.text());
        seen.push(take_area(alloc, areas.as_mut_slice(), place))?;
    }
    Ok(seen)
}
