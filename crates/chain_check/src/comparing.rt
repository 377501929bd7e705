//! The comparison of two states.
ghost use Rattle.std.specs.Prelude.{◌≡◌, ◌<◌, IfOk, IfSome, length};
ghost use Rattle.schema_model.specs.Growth.{ModelsAgree};
ghost use Rattle.row_model.specs.Table.{IsTableOf};
ghost use Rattle.chain_check.specs.Compare.{Compare, IsPlaceOf};
ghost use Rattle.chain_check.specs.Walk.{state_by};

use crate::models::is_same_model;
use crate::{Place, RowPlace, Walk, first_other_row, first_other_seen, first_other_type};
use hol_varint::Duplicate;
use schema_growth::laws::agree_both_ways;
use schema_model::{Model, Schema};
use seen_rows::Seen;
use seen_rows::laws::own_table;
use std::alloc::{AllocError, Global};

/// Where a walked state and a fresh one differ, whose rows are seen through the walked one's model; `None` exactly where their tags are the same, their
/// models agree and their rows are the same. The place is the one that the first of three steps finds: the tags differ; the fresh model has a type of the
/// walked one under a schema that does not agree; rows differ. The first type of the walked model is named, and in the last step its least such ordinal.
pub fn compare<W: Walk>(alloc: Global, walked: &W, fresh: &W) -> Result<Option<Place>, AllocError>
    ensures { IfOk result (Compare (state_by W.tag W.schemas W.table walked.now) (state_by W.tag W.schemas W.table fresh.now)) }
{
    if walked.walk_tag() != fresh.walk_tag() {
        return Ok(Some(Place {
            type_name: None,
            ordinal: None,
        }));
    }
    if let Some(schema) = first_other_type(walked.model(), fresh.model()) {
        return Ok(Some(place_of(alloc, schema, None)?));
    }
    if is_same_model(walked.model(), fresh.model()) {
        compare_rows(alloc, walked, fresh)
    } else {
        compare_seen(alloc, walked, fresh)
    }
}

// The place in a type of this schema, of the row under an ordinal where there is one.
fn place_of(alloc: Global, schema: &Schema, ordinal: Option<u32>) -> Result<Place, AllocError>
    ensures { IfOk result (λ place. place ≡ record { type_name = Some schema.now.name; ordinal = ordinal }) }
{
    Ok(Place {
        type_name: Some(schema.name.copy(alloc)?),
        ordinal,
    })
}

// The place of a row of a model, where there is one.
fn place_at(
    alloc: Global,
    model: &Model,
    found: Option<RowPlace>,
) -> Result<Option<Place>, AllocError>
    requires { IfSome found (λ at. at.type_index < length model.now) }
    ensures { IfOk result (IsPlaceOf model.now found) }
{
    match found {
        None => Ok(None),
        Some(at) => {
            let schema = model.schema(at.type_index);
            Ok(Some(place_of(alloc, schema, Some(at.ordinal))?))
        }
    }
}

// The last step, where tags and models are the same.
fn compare_rows<W: Walk>(alloc: Global, walked: &W, fresh: &W) -> Result<Option<Place>, AllocError>
    requires tags { W.tag walked.now ≡ W.tag fresh.now }
    requires agree { ModelsAgree (W.schemas walked.now) (W.schemas fresh.now) }
    requires models { W.schemas walked.now ≡ W.schemas fresh.now }
    requires fits { IsTableOf (W.schemas fresh.now) (W.table fresh.now) }
    ensures { IfOk result (Compare (state_by W.tag W.schemas W.table walked.now) (state_by W.tag W.schemas W.table fresh.now)) }
{
    own_table();
    let found = first_other_row(alloc, walked, fresh)?;
    let model = walked.model();
    let _types = model.len();
    place_at(alloc, model, found)
}

// The last step, where tags are the same and models agree.
fn compare_seen<W: Walk>(alloc: Global, walked: &W, fresh: &W) -> Result<Option<Place>, AllocError>
    requires tags { W.tag walked.now ≡ W.tag fresh.now }
    requires agree { ModelsAgree (W.schemas walked.now) (W.schemas fresh.now) }
    ensures { IfOk result (Compare (state_by W.tag W.schemas W.table walked.now) (state_by W.tag W.schemas W.table fresh.now)) }
{
    agree_both_ways();
    let model = walked.model();
    let seen = Seen::new(fresh, model);
    let found = first_other_seen(alloc, walked, &seen)?;
    place_at(alloc, model, found)
}
