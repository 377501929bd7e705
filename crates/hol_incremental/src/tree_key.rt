//! The keys of records.
ghost use Rattle.std.specs.Prelude.{◌≡◌, IfOk, option_copied, slice_get};
ghost use Rattle.std.specs.Option.{option_map};
ghost use Rattle.record_trees.specs.Tree.{plain, trees};
ghost use Rattle.row_model.specs.Key.{unless_null};
ghost use Rattle.hol_incremental.specs.Roots.{key_of_tree, tree_in, tree_value, value_of_leaf};

use hol_varint::Duplicate;
use record_trees::{Tree, Trees};
use row_model::{Value, Values};
use schema_model::Paths;
use std::alloc::{AllocError, Global};

/// The key of a record along paths: the values at their ends; none where a null stands on one of them.
pub(crate) fn tree_key(
    alloc: Global,
    tree: &Tree,
    paths: &Paths,
) -> Result<Option<Values>, AllocError>
    ensures { IfOk result (λ key. key ≡ key_of_tree paths.now (plain tree.now)) }
{
    let mut key = Values::with_capacity(alloc, paths.len())?;
    for path in paths.as_slice() {
        match value_along(alloc, tree, path.fields.as_slice())? {
            Some(value) => key.push(value)?,
            None => return Ok(None),
        }
    }
    Ok(Some(key))
}

// The value to which fields lead from a record; none where a null stands on the way or at its end.
fn value_along(alloc: Global, tree: &Tree, fields: &[u32]) -> Result<Option<Value>, AllocError>
    ensures { IfOk result (λ value. value ≡ tree_value (plain tree.now) fields.now) }
{
    let [field, rest @ ..] = fields else {
        return Ok(None);
    };
    let Some(named) = field_of(tree, *field) else {
        return Ok(None);
    };
    if rest.is_empty() {
        return value_of(alloc, named);
    }
    value_along(alloc, named, rest)
}

// The tree of a field of a record.
fn field_of(tree: &Tree, field: u32) -> Option<&Tree>
    ensures { option_map plain (option_copied result) ≡ tree_in (plain tree.now) field }
{
    match tree {
        Tree::Object(parts) => part_at(parts, field as usize),
        _ => None,
    }
}

// The tree at a place, if there is one.
fn part_at(parts: &Trees, place: usize) -> Option<&Tree>
    ensures { option_copied result ≡ slice_get (trees parts.now) place }
{
    if place < parts.len() {
        Some(parts.get(place))
    } else {
        None
    }
}

// The value that a tree is, if it is one that is not null. The least INT and the least LONG are null.
fn value_of(alloc: Global, tree: &Tree) -> Result<Option<Value>, AllocError>
    ensures { IfOk result (λ value. value ≡ unless_null (value_of_leaf (plain tree.now))) }
{
    match tree {
        Tree::Int(number) if *number != i32::MIN => Ok(Some(Value::Int(*number))),
        Tree::Long(number) if *number != i64::MIN => Ok(Some(Value::Long(*number))),
        Tree::Bool(flag) => Ok(Some(Value::Bool(*flag))),
        Tree::Text(units) => Ok(Some(Value::Text(units.copy(alloc)?))),
        Tree::Bytes(bytes) => Ok(Some(Value::Bytes(bytes.copy(alloc)?))),
        _ => Ok(None),
    }
}
