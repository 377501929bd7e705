//! Live rows with all that they refer to, as JSON.
ghost use Rattle.std.specs.Prelude.{◌≡◌, ◌+◌, ◌<◌, suc, Err, length, zip, slice_get, false, All, IfOk, IsSomeAnd};
ghost use Rattle.hol_varint.specs.Yields.{Yields};
ghost use Rattle.serde_json.specs.View.{view};
ghost use Rattle.serde_json.specs.Written.{has_float};
ghost use Rattle.row_model.specs.PlainTree.{node_count};
ghost use Rattle.row_model.specs.Row.{FitsShape, references_of_row};
ghost use Rattle.row_model.specs.Table.{IsClosed, IsLive, IsTableOf};
ghost use Rattle.row_model.specs.Unfold.{tree_of_row, tree_of_value, unfold_row, unfold_within};
ghost use Rattle.record_json.specs.PrintTree.{PrintsField, PrintsPair, PrintsShape, PrintsTree, PrintsWithin};
ghost use Rattle.record_json.specs.Printing.{CanPrint, CanPrintPair, CanPrintValue, IsFreePrint, IsShallow, PrintsItems, PrintsNamed, PrintsValued, TellsPrinted, count_of, count_pair, tree_of_field, unfold_named, unfold_pair};

use crate::PrintFault;
use crate::leaves::take_node;
use json_rows::leaf_value;
use row_model::{Row, Rows, Value as FieldValue};
use schema_model::{Field, FieldKind, Name, Shape};
use serde_json::{Map, Value};
use std::alloc::Global;

/// A live row with all that it refers to, as JSON: a record is an object with every field of its type, members in byte
/// order of their names, each a value as `json_rows` prints it, or what it refers to; a list or a set is the array of its
/// elements, a map that of its pairs of a key and a value, by rising ordinal. Each row is a node, and so is each null and
/// each other value; they are taken off `budget`. `Nodes` where that does not suffice.
pub fn tree_value<R: Rows>(
    alloc: Global,
    rows: &R,
    type_index: u32,
    ordinal: u32,
    budget: &mut u64,
) -> Result<Value, PrintFault>
    requires known { type_index < length (R.schemas rows.now) }
    requires live { IsLive (R.table rows.now) type_index ordinal }
    requires closed { IsClosed (R.schemas rows.now) (R.table rows.now) }
    ensures prints { IfOk result (λ value. PrintsTree (R.schemas rows.now) type_index (unfold_row (R.schemas rows.now) (R.table rows.now) type_index ordinal) (view value)) }
    ensures plain { IfOk result (λ value. has_float (view value) ≡ false) }
    ensures budget { IfOk result (λ value. budget.new + node_count (unfold_row (R.schemas rows.now) (R.table rows.now) type_index ordinal) ≡ budget.old) }
    ensures nodes { Yields IsFreePrint result (Err PrintFault.Nodes) (budget.old < node_count (unfold_row (R.schemas rows.now) (R.table rows.now) type_index ordinal)) }
{
    let shape = &rows.model().schema(type_index).shape;
    row_value(alloc, rows, 31, shape, type_index, ordinal, budget)
}

// The row of a type of this shape, where the types that it names are no deeper than so many.
#[cycle(printing)]
fn row_value<R: Rows>(
    alloc: Global,
    rows: &R,
    depth: u32,
    shape: &Shape,
    type_index: u32,
    ordinal: u32,
    budget: &mut u64,
) -> Result<Value, PrintFault>
    requires shape { IsSomeAnd (slice_get (R.schemas rows.now) type_index) (λ schema. schema.shape ≡ shape.now) }
    requires live { IsLive (R.table rows.now) type_index ordinal }
    requires shallow { IsShallow (R.schemas rows.now) (suc depth) type_index }
    requires fits { IsTableOf (R.schemas rows.now) (R.table rows.now) }
    requires closed { IsClosed (R.schemas rows.now) (R.table rows.now) }
    ensures { TellsPrinted view (PrintsWithin (R.schemas rows.now) (suc depth) type_index (unfold_within (R.schemas rows.now) (R.table rows.now) (suc depth) type_index ordinal)) (node_count (unfold_within (R.schemas rows.now) (R.table rows.now) (suc depth) type_index ordinal)) budget.old budget.new result }
{
    let row = rows.row(alloc, type_index, ordinal)?;
    shaped_value(alloc, rows, depth, shape, &row, budget)
}

// A row of a type of this shape.
#[cycle(printing)]
fn shaped_value<R: Rows>(
    alloc: Global,
    rows: &R,
    depth: u32,
    shape: &Shape,
    row: &Row,
    budget: &mut u64,
) -> Result<Value, PrintFault>
    requires fits { FitsShape shape.now row.now }
    requires each { All (λ named. CanPrint (R.schemas rows.now) (R.table rows.now) depth named.0 named.1) (references_of_row shape.now row.now) }
    requires closed { IsClosed (R.schemas rows.now) (R.table rows.now) }
    ensures { TellsPrinted view (PrintsShape (PrintsNamed (R.schemas rows.now) depth) shape.now (tree_of_row (unfold_named (R.schemas rows.now) (R.table rows.now) depth) shape.now row.now)) (node_count (tree_of_row (unfold_named (R.schemas rows.now) (R.table rows.now) depth) shape.now row.now)) budget.old budget.new result }
{
    take_node(budget)?;
    match (shape, row) {
        (Shape::Object(_, fields), Row::Object(values)) => record_value(
            alloc,
            rows,
            depth,
            fields.as_slice(),
            values.as_slice(),
            budget,
        ),
        (Shape::List(element), Row::List(ordinals)) => {
            elements_value(alloc, rows, depth, element, ordinals.as_slice(), budget)
        }
        (Shape::Set(element), Row::Set(ordinals)) => {
            elements_value(alloc, rows, depth, element, ordinals.as_slice(), budget)
        }
        (Shape::Map(key, value), Row::Map(pairs)) => {
            pairs_value(alloc, rows, depth, key, value, pairs.as_slice(), budget)
        }
        _ => unreachable!(),
    }
}

// The record of the type of this name.
#[cycle(printing)]
fn named_value<R: Rows>(
    alloc: Global,
    rows: &R,
    depth: u32,
    name: &Name,
    ordinal: u32,
    budget: &mut u64,
) -> Result<Value, PrintFault>
    requires there { CanPrint (R.schemas rows.now) (R.table rows.now) depth name.now ordinal }
    requires closed { IsClosed (R.schemas rows.now) (R.table rows.now) }
    ensures { TellsPrinted view (PrintsNamed (R.schemas rows.now) depth name.now (unfold_named (R.schemas rows.now) (R.table rows.now) depth name.now ordinal)) (node_count (unfold_named (R.schemas rows.now) (R.table rows.now) depth name.now ordinal)) budget.old budget.new result }
{
    let model = rows.model();
    match model.index_of(name.text()) {
        Some(type_index) => {
            let shape = &model.schema(type_index).shape;
            row_value(alloc, rows, depth - 1, shape, type_index, ordinal, budget)
        }
        None => unreachable!(),
    }
}

// The object of a record, which has a value for each field.
#[cycle(printing)]
fn record_value<R: Rows>(
    alloc: Global,
    rows: &R,
    depth: u32,
    fields: &[Field],
    values: &[FieldValue],
    budget: &mut u64,
) -> Result<Value, PrintFault>
    requires long { length fields.now ≡ length values.now }
    requires each { All (λ valued. CanPrintValue (R.schemas rows.now) (R.table rows.now) depth valued.0.kind valued.1) (zip fields.now values.now) }
    requires closed { IsClosed (R.schemas rows.now) (R.table rows.now) }
    ensures { TellsPrinted view (PrintsValued (PrintsNamed (R.schemas rows.now) depth) (unfold_named (R.schemas rows.now) (R.table rows.now) depth) fields.now values.now) (count_of (λ valued. node_count (tree_of_field (R.schemas rows.now) (R.table rows.now) depth valued)) (zip fields.now values.now)) budget.old budget.new result }
{
    let mut members = Map::new(alloc);
    for (place, value) in values.iter().enumerate() {
        let field = &fields[place];
        let printed = field_value(alloc, rows, depth, &field.kind, value, budget)?;
        serde_json::put(&mut members, alloc, field.name.text(), printed)?;
    }
    Ok(Value::Object(members))
}

// The value of a field, or the record that it refers to.
#[cycle(printing)]
fn field_value<R: Rows>(
    alloc: Global,
    rows: &R,
    depth: u32,
    kind: &FieldKind,
    value: &FieldValue,
    budget: &mut u64,
) -> Result<Value, PrintFault>
    requires can { CanPrintValue (R.schemas rows.now) (R.table rows.now) depth kind.now value.now }
    requires closed { IsClosed (R.schemas rows.now) (R.table rows.now) }
    ensures { TellsPrinted view (PrintsField (PrintsNamed (R.schemas rows.now) depth) kind.now (tree_of_value (unfold_named (R.schemas rows.now) (R.table rows.now) depth) kind.now value.now)) (node_count (tree_of_value (unfold_named (R.schemas rows.now) (R.table rows.now) depth) kind.now value.now)) budget.old budget.new result }
{
    match (kind, value) {
        (FieldKind::Reference(name), FieldValue::Ref(ordinal)) => {
            named_value(alloc, rows, depth, name, *ordinal, budget)
        }
        _ => {
            take_node(budget)?;
            Ok(leaf_value(alloc, value)?)
        }
    }
}

// The array of the elements of a list or a set.
#[cycle(printing)]
fn elements_value<R: Rows>(
    alloc: Global,
    rows: &R,
    depth: u32,
    element: &Name,
    ordinals: &[u32],
    budget: &mut u64,
) -> Result<Value, PrintFault>
    requires each { All (CanPrint (R.schemas rows.now) (R.table rows.now) depth element.now) ordinals.now }
    requires closed { IsClosed (R.schemas rows.now) (R.table rows.now) }
    ensures { TellsPrinted view (PrintsItems (λ ordinal part. PrintsNamed (R.schemas rows.now) depth element.now (unfold_named (R.schemas rows.now) (R.table rows.now) depth element.now ordinal) part) ordinals.now) (count_of (λ ordinal. node_count (unfold_named (R.schemas rows.now) (R.table rows.now) depth element.now ordinal)) ordinals.now) budget.old budget.new result }
{
    let mut parts = Vec::new(alloc);
    for ordinal in ordinals {
        parts.push(named_value(alloc, rows, depth, element, *ordinal, budget)?)?;
    }
    Ok(Value::Array(parts))
}

// The array of the pairs of a map.
#[cycle(printing)]
fn pairs_value<R: Rows>(
    alloc: Global,
    rows: &R,
    depth: u32,
    key: &Name,
    value: &Name,
    pairs: &[(u32, u32)],
    budget: &mut u64,
) -> Result<Value, PrintFault>
    requires each { All (CanPrintPair (R.schemas rows.now) (R.table rows.now) depth key.now value.now) pairs.now }
    requires closed { IsClosed (R.schemas rows.now) (R.table rows.now) }
    ensures { TellsPrinted view (PrintsItems (λ pair part. PrintsPair (PrintsNamed (R.schemas rows.now) depth) key.now value.now (unfold_pair (R.schemas rows.now) (R.table rows.now) depth key.now value.now pair) part) pairs.now) (count_of (λ pair. count_pair (unfold_pair (R.schemas rows.now) (R.table rows.now) depth key.now value.now pair)) pairs.now) budget.old budget.new result }
{
    let mut parts = Vec::new(alloc);
    for pair in pairs {
        parts.push(pair_value(alloc, rows, depth, key, value, *pair, budget)?)?;
    }
    Ok(Value::Array(parts))
}

// The array of a key and its value.
#[cycle(printing)]
fn pair_value<R: Rows>(
    alloc: Global,
    rows: &R,
    depth: u32,
    key: &Name,
    value: &Name,
    pair: (u32, u32),
    budget: &mut u64,
) -> Result<Value, PrintFault>
    requires can { CanPrintPair (R.schemas rows.now) (R.table rows.now) depth key.now value.now pair }
    requires closed { IsClosed (R.schemas rows.now) (R.table rows.now) }
    ensures { TellsPrinted view (PrintsPair (PrintsNamed (R.schemas rows.now) depth) key.now value.now (unfold_pair (R.schemas rows.now) (R.table rows.now) depth key.now value.now pair)) (count_pair (unfold_pair (R.schemas rows.now) (R.table rows.now) depth key.now value.now pair)) budget.old budget.new result }
{
    let mut both = Vec::new(alloc);
    both.push(named_value(alloc, rows, depth, key, pair.0, budget)?)?;
    both.push(named_value(alloc, rows, depth, value, pair.1, budget)?)?;
    Ok(Value::Array(both))
}
