//! Looking rows up by a key.
ghost use Rattle.std.specs.Prelude.{◌≡◌, ◌<◌, ℕ, All, IfOk, IsSomeAnd, Some, length, slice_get};
ghost use Rattle.serde_json.specs.View.{items_view, view};
ghost use Rattle.row_model.specs.Key.{IsResolved};
ghost use Rattle.read_engine.specs.Indexes.{index_by};
ghost use Rattle.hollow_machine.specs.KeyPaths.{texts_in};
ghost use Rattle.consumer_orders.specs.Sought.{TellsAlong, TellsFound};

use crate::key_paths::{KeyPaths, copy_texts, key_paths};
use crate::named_index::named_index;
use hol_answers::Refusal;
use hol_varint::Ordinals;
use json_values::{KeyFault, key_from};
use read_engine::Consumer;
use schema_model::{Model, Name, Paths};
use serde_json::Value;
use std::alloc::{AllocError, Global};

/// What a look-up by a key finds.
#[derive(Drop)]
pub(crate) enum Found {
    /// The ordinals of the rows that have the key, rising.
    Ordinals(Ordinals),
    /// No rows are looked up, for this reason.
    Refused(Refusal),
}

/// The rows of the type at an index, which has this name, that have the key of these values along the paths of the texts, and where there is no text along
/// those of its primary key. Refused as `key_paths` refuses, then with `NoIndex` where no index is kept for the paths, and then with `BadKey` where the
/// values are no key. Where an index is kept by the paths of the texts, these are not made anew.
pub(crate) fn look_up(
    alloc: Global,
    consumer: &Consumer,
    name: &Name,
    type_index: u32,
    texts: &[Value],
    values: &Value,
) -> Result<Found, AllocError>
    requires { IsSomeAnd consumer.now (λ now. type_index < length now.schemas) }
    ensures { IfOk result (λ found. IsSomeAnd consumer.now (λ now. TellsFound name.now (texts_in (items_view texts.now)) (view values.now) now type_index found)) }
{
    let Some(model) = consumer.model() else {
        unreachable!();
    };
    match named_index(consumer, model, type_index, texts) {
        Some(index) => look_up_in(alloc, consumer, model, index.number, index.paths, values),
        None => look_up_anew(alloc, consumer, model, name, type_index, texts, values),
    }
}

// The rows of the type at an index, which has this name, that have the key of these values along the paths of the texts, which are made here. Refused as
// `look_up` refuses.
fn look_up_anew(
    alloc: Global,
    consumer: &Consumer,
    model: &Model,
    name: &Name,
    type_index: u32,
    texts: &[Value],
    values: &Value,
) -> Result<Found, AllocError>
    requires model { IsSomeAnd consumer.now (λ now. now.schemas ≡ model.now) }
    requires type_in { type_index < length model.now }
    ensures { IfOk result (λ found. IsSomeAnd consumer.now (λ now. TellsFound name.now (texts_in (items_view texts.now)) (view values.now) now type_index found)) }
{
    let texts = copy_texts(alloc, texts)?;
    match key_paths(alloc, model, name, type_index, &texts)? {
        KeyPaths::Resolved(paths) => {
            look_up_along(alloc, consumer, model, type_index, &paths, values)
        }
        KeyPaths::Refused(refusal) => Ok(Found::Refused(refusal)),
    }
}

// The rows of the type that have the key of these values along its resolved paths, where this is the consumer's model. Refused with `NoIndex` and `BadKey`, in
// this order.
fn look_up_along(
    alloc: Global,
    consumer: &Consumer,
    model: &Model,
    type_index: u32,
    paths: &Paths,
    values: &Value,
) -> Result<Found, AllocError>
    requires model { IsSomeAnd consumer.now (λ now. now.schemas ≡ model.now) }
    requires resolved { All (IsResolved model.now type_index) paths.now }
    ensures { IfOk result (λ found. IsSomeAnd consumer.now (λ now. TellsAlong paths.now (view values.now) now type_index found)) }
{
    match consumer.index_of(type_index, paths) {
        Some(number) => look_up_in(alloc, consumer, model, number, paths, values),
        None => Ok(Found::Refused(Refusal::NoIndex)),
    }
}

// The rows that the index of this number, which is kept by these paths of some type, finds by the key of these values. Refused with `BadKey` where the values
// are no key.
fn look_up_in(
    alloc: Global,
    consumer: &Consumer,
    model: &Model,
    number: u32,
    paths: &Paths,
    values: &Value,
) -> Result<Found, AllocError>
    requires model { IsSomeAnd consumer.now (λ now. now.schemas ≡ model.now) }
    requires kept { (type_index : ℕ) × All (IsResolved model.now type_index) paths.now × IsSomeAnd consumer.now (λ now. slice_get now.indexes number ≡ Some (index_by type_index paths.now)) }
    ensures { (type_index : ℕ) → IsSomeAnd consumer.now (λ now. slice_get now.indexes number ≡ Some (index_by type_index paths.now))
        → IfOk result (λ found. IsSomeAnd consumer.now (λ now. TellsAlong paths.now (view values.now) now type_index found)) }
{
    match key_from(alloc, model, paths, values) {
        Ok(key) => Ok(Found::Ordinals(consumer.find(number, &key)?)),
        Err(KeyFault::Shape) => Ok(Found::Refused(Refusal::BadKey)),
        Err(KeyFault::Memory) => Err(AllocError),
    }
}
