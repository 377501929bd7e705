//! Live rows with all that they refer to, put as JSON behind what stands already, from where they stand, with no tree of values.
ghost use Rattle.std.specs.Prelude.{◌≡◌, ◌+◌, ◌<◌, ◌^◌, ◌++◌, suc, Err, List, Some, length, slice_get, zip, All, OnOk};
ghost use Rattle.hol_varint.specs.Yields.{Yields};
ghost use Rattle.serde_json.specs.Data.{Data};
ghost use Rattle.serde_json.specs.Written.{comma_if, compact_text};
ghost use Rattle.schema_model.specs.Model.{IsModel};
ghost use Rattle.schema_model.specs.Parts.{field_names};
ghost use Rattle.row_model.specs.declared.row.Row.{Row as RowOf};
ghost use Rattle.row_model.specs.declared.row.Value.{Value as ValueOf};
ghost use Rattle.row_model.specs.Key.{value_in};
ghost use Rattle.row_model.specs.PlainTree.{node_count};
ghost use Rattle.row_model.specs.Row.{FitsShape, references_of_row};
ghost use Rattle.row_model.specs.Table.{IsClosed, IsLive, IsTableOf, row_at};
ghost use Rattle.row_model.specs.Unfold.{tree_of_row, tree_of_value, unfold_row, unfold_within};
ghost use Rattle.json_rows.specs.LineForm.{AreWholeLeads};
ghost use Rattle.record_json.specs.Forms.{AreFormsOf};
ghost use Rattle.record_json.specs.NamesApart.{AreNamesApart};
ghost use Rattle.record_json.specs.PrintTree.{PrintsField, PrintsPair, PrintsShape, PrintsTree, PrintsWithin};
ghost use Rattle.record_json.specs.Printing.{CanPrint, CanPrintPair, CanPrintValue, HasRecord, HasValue, IsFreePrint, IsShallow, PrintsItems, PrintsNamed, PrintsValued, TellsPut, count_of, count_pair, tree_of_field, unfold_named, unfold_pair};

use crate::PrintFault;
use crate::forms::RecordForm;
use crate::leaves::{put_leaf, put_null, reference_of, take_node};
use column_rows::ColumnRows;
use row_model::{Row, Rows};
use schema_model::{Field, FieldKind, Name, Schema, Shape};
use std::alloc::{AllocError, Global};

/// The rows that are printed, with the forms of their records.
#[derive(Drop)]
pub(crate) struct Printer<'a, R: Rows> {
    alloc: Global,
    rows: &'a R,
    forms: &'a [RecordForm],
}

/// Puts a live row with all that it refers to behind what stands in `out`: the text of what `tree_value` answers, without spaces. Each row is a node, and so is
/// each null and each other value; they are taken off `budget`. `Nodes` where that does not suffice. Where it fails a part of the text may stand there.
pub fn put_tree<R: ColumnRows>(
    alloc: Global,
    rows: &R,
    forms: &[RecordForm],
    type_index: u32,
    ordinal: u32,
    budget: &mut u64,
    out: &mut Vec<u8>,
) -> Result<(), PrintFault>
    requires known { type_index < length (R.schemas rows.now) }
    requires live { IsLive (R.table rows.now) type_index ordinal }
    requires closed { IsClosed (R.schemas rows.now) (R.table rows.now) }
    requires forms { AreFormsOf (R.schemas rows.now) forms.now }
    ensures prints { OnOk result ((printed : Data) × PrintsTree (R.schemas rows.now) type_index (unfold_row (R.schemas rows.now) (R.table rows.now) type_index ordinal) printed
        × (out.new.items ≡ out.old.items ++ compact_text printed)) }
    ensures budget { OnOk result (budget.new + node_count (unfold_row (R.schemas rows.now) (R.table rows.now) type_index ordinal) ≡ budget.old) }
    ensures nodes { Yields IsFreePrint result (Err PrintFault.Nodes) (budget.old < node_count (unfold_row (R.schemas rows.now) (R.table rows.now) type_index ordinal)) }
{
    let schema = rows.model().schema(type_index);
    let printer = Printer { alloc, rows, forms };
    put_row(&printer, 31, schema, type_index, ordinal, budget, out)
}

// The row of a type, where the types that it names are no deeper than so many.
#[cycle(putting)]
fn put_row<R: ColumnRows>(
    printer: &Printer<'_, R>,
    depth: u32,
    schema: &Schema,
    type_index: u32,
    ordinal: u32,
    budget: &mut u64,
    out: &mut Vec<u8>,
) -> Result<(), PrintFault>
    requires live { IsLive (R.table printer.now.rows.now) type_index ordinal }
    requires shallow { IsShallow (R.schemas printer.now.rows.now) (suc depth) type_index }
    requires fits { IsTableOf (R.schemas printer.now.rows.now) (R.table printer.now.rows.now) }
    requires closed { IsClosed (R.schemas printer.now.rows.now) (R.table printer.now.rows.now) }
    requires forms { AreFormsOf (R.schemas printer.now.rows.now) printer.now.forms.now }
    requires schema { slice_get (R.schemas printer.now.rows.now) type_index ≡ Some schema.now }
    requires model { IsModel (R.schemas printer.now.rows.now) }
    ensures { TellsPut (PrintsWithin (R.schemas printer.now.rows.now) (suc depth) type_index (unfold_within (R.schemas printer.now.rows.now) (R.table printer.now.rows.now) (suc depth) type_index ordinal))
        (node_count (unfold_within (R.schemas printer.now.rows.now) (R.table printer.now.rows.now) (suc depth) type_index ordinal)) out.old.items out.new.items budget.old budget.new result }
{
    take_node(budget)?;
    if let Shape::Object(_, fields) = &schema.shape {
        let fields = fields.as_slice();
        let leads = printer.forms[type_index as usize].leads.as_slice();
        return put_record(
            printer, depth, fields, leads, type_index, ordinal, budget, out,
        );
    }
    let lent = printer.rows.lend(printer.alloc, type_index, ordinal)?;
    put_items(printer, depth, &schema.shape, lent.row(), budget, out)
}

// The object of the record under an ordinal, which has a value for each of these fields.
#[cycle(putting)]
fn put_record<R: ColumnRows>(
    printer: &Printer<'_, R>,
    depth: u32,
    fields: &[Field],
    leads: &[(String, usize)],
    type_index: u32,
    ordinal: u32,
    budget: &mut u64,
    out: &mut Vec<u8>,
) -> Result<(), PrintFault>
    requires record { HasRecord (R.schemas printer.now.rows.now) (R.table printer.now.rows.now) depth fields.now type_index ordinal }
    requires live { IsLive (R.table printer.now.rows.now) type_index ordinal }
    requires few { length fields.now < 2 ^ 32 }
    requires leads { AreWholeLeads fields.now leads.now }
    requires apart { AreNamesApart (field_names fields.now) }
    requires fits { IsTableOf (R.schemas printer.now.rows.now) (R.table printer.now.rows.now) }
    requires closed { IsClosed (R.schemas printer.now.rows.now) (R.table printer.now.rows.now) }
    requires forms { AreFormsOf (R.schemas printer.now.rows.now) printer.now.forms.now }
    ensures { (values : List ValueOf) → row_at (R.table printer.now.rows.now) type_index ordinal ≡ Some (RowOf.Object values)
        → TellsPut (PrintsValued (PrintsNamed (R.schemas printer.now.rows.now) depth) (unfold_named (R.schemas printer.now.rows.now) (R.table printer.now.rows.now) depth) fields.now values)
        (count_of (λ valued. node_count (tree_of_field (R.schemas printer.now.rows.now) (R.table printer.now.rows.now) depth valued)) (zip fields.now values)) out.old.items out.new.items budget.old budget.new result }
{
    out.push(b'{')?;
    for lead in leads {
        out.extend_from_slice(lead.0.as_bytes())?;
        let kind = &fields[lead.1].kind;
        put_member(
            printer,
            depth,
            kind,
            type_index,
            lead.1 as u32,
            ordinal,
            budget,
            out,
        )?;
    }
    out.push(b'}')?;
    Ok(())
}

// The value of a field of the record under an ordinal, or the record that it refers to.
#[cycle(putting)]
fn put_member<R: ColumnRows>(
    printer: &Printer<'_, R>,
    depth: u32,
    kind: &FieldKind,
    type_index: u32,
    field: u32,
    ordinal: u32,
    budget: &mut u64,
    out: &mut Vec<u8>,
) -> Result<(), PrintFault>
    requires there { HasValue (R.schemas printer.now.rows.now) (R.table printer.now.rows.now) depth kind.now type_index field ordinal }
    requires live { IsLive (R.table printer.now.rows.now) type_index ordinal }
    requires fits { IsTableOf (R.schemas printer.now.rows.now) (R.table printer.now.rows.now) }
    requires closed { IsClosed (R.schemas printer.now.rows.now) (R.table printer.now.rows.now) }
    requires forms { AreFormsOf (R.schemas printer.now.rows.now) printer.now.forms.now }
    ensures { (value : ValueOf) → value_in (row_at (R.table printer.now.rows.now) type_index ordinal) field ≡ Some value
        → TellsPut (PrintsField (PrintsNamed (R.schemas printer.now.rows.now) depth) kind.now (tree_of_value (unfold_named (R.schemas printer.now.rows.now) (R.table printer.now.rows.now) depth) kind.now value))
        (node_count (tree_of_value (unfold_named (R.schemas printer.now.rows.now) (R.table printer.now.rows.now) depth) kind.now value)) out.old.items out.new.items budget.old budget.new result }
{
    let FieldKind::Reference(name) = kind else {
        return put_leaf(
            printer.alloc,
            printer.rows,
            type_index,
            field,
            ordinal,
            budget,
            out,
        );
    };
    match reference_of(printer.alloc, printer.rows, type_index, field, ordinal)? {
        Some(named) => put_named(printer, depth, name, named, budget, out),
        None => put_null(budget, out),
    }
}

// The record of the type of this name.
#[cycle(putting)]
fn put_named<R: ColumnRows>(
    printer: &Printer<'_, R>,
    depth: u32,
    name: &Name,
    ordinal: u32,
    budget: &mut u64,
    out: &mut Vec<u8>,
) -> Result<(), PrintFault>
    requires there { CanPrint (R.schemas printer.now.rows.now) (R.table printer.now.rows.now) depth name.now ordinal }
    requires fits { IsTableOf (R.schemas printer.now.rows.now) (R.table printer.now.rows.now) }
    requires closed { IsClosed (R.schemas printer.now.rows.now) (R.table printer.now.rows.now) }
    requires forms { AreFormsOf (R.schemas printer.now.rows.now) printer.now.forms.now }
    ensures { TellsPut (PrintsNamed (R.schemas printer.now.rows.now) depth name.now (unfold_named (R.schemas printer.now.rows.now) (R.table printer.now.rows.now) depth name.now ordinal))
        (node_count (unfold_named (R.schemas printer.now.rows.now) (R.table printer.now.rows.now) depth name.now ordinal)) out.old.items out.new.items budget.old budget.new result }
{
    let model = printer.rows.model();
    match model.index_of(name.text()) {
        Some(type_index) => {
            let schema = model.schema(type_index);
            put_row(printer, depth - 1, schema, type_index, ordinal, budget, out)
        }
        None => unreachable!(),
    }
}

// A list, set or map of a type of this shape.
#[cycle(putting)]
fn put_items<R: ColumnRows>(
    printer: &Printer<'_, R>,
    depth: u32,
    shape: &Shape,
    row: &Row,
    budget: &mut u64,
    out: &mut Vec<u8>,
) -> Result<(), PrintFault>
    requires row_fits { FitsShape shape.now row.now }
    requires each { All (λ named. CanPrint (R.schemas printer.now.rows.now) (R.table printer.now.rows.now) depth named.0 named.1) (references_of_row shape.now row.now) }
    requires fits { IsTableOf (R.schemas printer.now.rows.now) (R.table printer.now.rows.now) }
    requires closed { IsClosed (R.schemas printer.now.rows.now) (R.table printer.now.rows.now) }
    requires forms { AreFormsOf (R.schemas printer.now.rows.now) printer.now.forms.now }
    ensures { TellsPut (PrintsShape (PrintsNamed (R.schemas printer.now.rows.now) depth) shape.now (tree_of_row (unfold_named (R.schemas printer.now.rows.now) (R.table printer.now.rows.now) depth) shape.now row.now))
        (node_count (tree_of_row (unfold_named (R.schemas printer.now.rows.now) (R.table printer.now.rows.now) depth) shape.now row.now)) out.old.items out.new.items (budget.old + 1) budget.new result }
{
    match (shape, row) {
        (Shape::List(element), Row::List(ordinals)) => {
            put_elements(printer, depth, element, ordinals.as_slice(), budget, out)
        }
        (Shape::Set(element), Row::Set(ordinals)) => {
            put_elements(printer, depth, element, ordinals.as_slice(), budget, out)
        }
        (Shape::Map(key, value), Row::Map(pairs)) => {
            put_pairs(printer, depth, key, value, pairs.as_slice(), budget, out)
        }
        _ => Err(PrintFault::Memory),
    }
}

// The array of the elements of a list or a set.
#[cycle(putting)]
fn put_elements<R: ColumnRows>(
    printer: &Printer<'_, R>,
    depth: u32,
    element: &Name,
    ordinals: &[u32],
    budget: &mut u64,
    out: &mut Vec<u8>,
) -> Result<(), PrintFault>
    requires each { All (CanPrint (R.schemas printer.now.rows.now) (R.table printer.now.rows.now) depth element.now) ordinals.now }
    requires fits { IsTableOf (R.schemas printer.now.rows.now) (R.table printer.now.rows.now) }
    requires closed { IsClosed (R.schemas printer.now.rows.now) (R.table printer.now.rows.now) }
    requires forms { AreFormsOf (R.schemas printer.now.rows.now) printer.now.forms.now }
    ensures { TellsPut (PrintsItems (λ ordinal part. PrintsNamed (R.schemas printer.now.rows.now) depth element.now (unfold_named (R.schemas printer.now.rows.now) (R.table printer.now.rows.now) depth element.now ordinal) part) ordinals.now)
        (count_of (λ ordinal. node_count (unfold_named (R.schemas printer.now.rows.now) (R.table printer.now.rows.now) depth element.now ordinal)) ordinals.now) out.old.items out.new.items budget.old budget.new result }
{
    out.push(b'[')?;
    for (index, ordinal) in ordinals.iter().enumerate() {
        put_comma(index > 0, out)?;
        put_named(printer, depth, element, *ordinal, budget, out)?;
    }
    out.push(b']')?;
    Ok(())
}

// A comma, where something stands before.
#[inline(always)]
fn put_comma(later: bool, out: &mut Vec<u8>) -> Result<(), AllocError>
    ensures { OnOk result (out.new.items ≡ out.old.items ++ comma_if later) }
{
    if later {
        out.push(b',')?;
    }
    Ok(())
}

// The array of the pairs of a map.
#[cycle(putting)]
fn put_pairs<R: ColumnRows>(
    printer: &Printer<'_, R>,
    depth: u32,
    key: &Name,
    value: &Name,
    pairs: &[(u32, u32)],
    budget: &mut u64,
    out: &mut Vec<u8>,
) -> Result<(), PrintFault>
    requires each { All (CanPrintPair (R.schemas printer.now.rows.now) (R.table printer.now.rows.now) depth key.now value.now) pairs.now }
    requires fits { IsTableOf (R.schemas printer.now.rows.now) (R.table printer.now.rows.now) }
    requires closed { IsClosed (R.schemas printer.now.rows.now) (R.table printer.now.rows.now) }
    requires forms { AreFormsOf (R.schemas printer.now.rows.now) printer.now.forms.now }
    ensures { TellsPut (PrintsItems (λ pair part. PrintsPair (PrintsNamed (R.schemas printer.now.rows.now) depth) key.now value.now (unfold_pair (R.schemas printer.now.rows.now) (R.table printer.now.rows.now) depth key.now value.now pair) part) pairs.now)
        (count_of (λ pair. count_pair (unfold_pair (R.schemas printer.now.rows.now) (R.table printer.now.rows.now) depth key.now value.now pair)) pairs.now) out.old.items out.new.items budget.old budget.new result }
{
    out.push(b'[')?;
    for (index, pair) in pairs.iter().enumerate() {
        put_comma(index > 0, out)?;
        put_pair(printer, depth, key, value, *pair, budget, out)?;
    }
    out.push(b']')?;
    Ok(())
}

// The array of a key and its value.
#[cycle(putting)]
fn put_pair<R: ColumnRows>(
    printer: &Printer<'_, R>,
    depth: u32,
    key: &Name,
    value: &Name,
    pair: (u32, u32),
    budget: &mut u64,
    out: &mut Vec<u8>,
) -> Result<(), PrintFault>
    requires can { CanPrintPair (R.schemas printer.now.rows.now) (R.table printer.now.rows.now) depth key.now value.now pair }
    requires fits { IsTableOf (R.schemas printer.now.rows.now) (R.table printer.now.rows.now) }
    requires closed { IsClosed (R.schemas printer.now.rows.now) (R.table printer.now.rows.now) }
    requires forms { AreFormsOf (R.schemas printer.now.rows.now) printer.now.forms.now }
    ensures { TellsPut (PrintsPair (PrintsNamed (R.schemas printer.now.rows.now) depth) key.now value.now (unfold_pair (R.schemas printer.now.rows.now) (R.table printer.now.rows.now) depth key.now value.now pair))
        (count_pair (unfold_pair (R.schemas printer.now.rows.now) (R.table printer.now.rows.now) depth key.now value.now pair)) out.old.items out.new.items budget.old budget.new result }
{
    out.push(b'[')?;
    put_named(printer, depth, key, pair.0, budget, out)?;
    out.push(b',')?;
    put_named(printer, depth, value, pair.1, budget, out)?;
    out.push(b']')?;
    Ok(())
}
