//! Records with all that they refer to, each from its tokens.
ghost use Rattle.std.specs.Prelude.{◌≡◌, ◌<◌, ◌∷◌, length, replicate, slice_get, IfOk, IfSome, IsSomeAnd, OnOk};
ghost use Rattle.json.specs.Reads.{token_of};
ghost use Rattle.json.specs.Token.{begin_array};
ghost use Rattle.row_model.specs.PlainTree.{map as map_tree, object, pairs_of_list, trees_of_list};
ghost use Rattle.record_trees.specs.Tree.{plain, plain_pair, plain_pairs, plain_trees, trees};
ghost use Rattle.record_trees.specs.declared.tree.Tree.{Tree as RowTree};
ghost use Rattle.record_trees.specs.FitsTree.{AreKeysApart};
ghost use Rattle.schema_model.specs.Parts.{field_names};
ghost use Rattle.record_json.specs.ReadTree.{read_members, read_named, read_pair, read_present, read_within};
ghost use Rattle.record_json.specs.NamesApart.{AreNamesApart};
ghost use Rattle.record_tokens.specs.Taken.{Takes, TakesItems, TakesMembers};

use crate::keys::are_keys_apart;
use crate::leaf::leaf_tree;
use crate::unread::Unread;
use json::{Reader, Token};
use record_trees::{Tree, TreePairs, Trees};
use schema_model::{Field, FieldKind, Model, Name, Shape};
use std::alloc::{AllocError, Global};

/// The record of a type whose first token was read, and which is no deeper than so many types; `nest` arrays and objects may be in one another in it.
/// `Other` tells nothing of the tokens, and after an error the reader is not to be used.
#[cycle(taking)]
pub(crate) fn tree_behind(
    alloc: Global,
    model: &Model,
    depth: u32,
    type_index: u32,
    token: Token<'_>,
    reader: &mut Reader<'_>,
    nest: usize,
) -> Result<Tree, Unread>
    requires { type_index < length model.now }
    ensures { IfOk result (λ tree. Takes (read_within model.now depth type_index) nest (token_of token.entry ∷ reader.old) (plain tree) reader.new) }
{
    if depth == 0 || nest == 0 {
        return Err(Unread::Other);
    }
    let (below, within) = (depth - 1, nest - 1);
    match (&model.schema(type_index).shape, token) {
        (Shape::Object(_, fields), Token::BeginObject) => {
            let parts = fields_ahead(alloc, model, below, fields.as_slice(), reader, within)?;
            Ok(Tree::Object(parts))
        }
        (Shape::List(element), Token::BeginArray) => {
            let parts = elements_ahead(alloc, model, below, element, reader, within)?;
            Ok(Tree::List(parts))
        }
        (Shape::Set(element), Token::BeginArray) => {
            let parts = elements_ahead(alloc, model, below, element, reader, within)?;
            Ok(Tree::Set(parts))
        }
        (Shape::Map(key, part), Token::BeginArray) => {
            let pairs = pairs_ahead(alloc, model, below, key, part, reader, within)?;
            map_of(pairs)
        }
        _ => Err(Unread::Other),
    }
}

// The record of the type of this name.
#[cycle(taking)]
fn named_behind(
    alloc: Global,
    model: &Model,
    depth: u32,
    name: &Name,
    token: Token<'_>,
    reader: &mut Reader<'_>,
    nest: usize,
) -> Result<Tree, Unread>
    ensures { IfOk result (λ tree. Takes (read_named model.now depth name.now) nest (token_of token.entry ∷ reader.old) (plain tree) reader.new) }
{
    match model.index_of(name.text()) {
        Some(type_index) => tree_behind(alloc, model, depth, type_index, token, reader, nest),
        None => Err(Unread::Other),
    }
}

// The record of the type of this name, whose first token is still ahead.
#[cycle(taking)]
fn named_ahead(
    alloc: Global,
    model: &Model,
    depth: u32,
    name: &Name,
    reader: &mut Reader<'_>,
    nest: usize,
) -> Result<Tree, Unread>
    ensures { IfOk result (λ tree. Takes (read_named model.now depth name.now) nest reader.old (plain tree) reader.new) }
{
    let token = reader.next().ok_or(Unread::Other)?;
    named_behind(alloc, model, depth, name, token, reader, nest)
}

// The trees in the fields of a record, each in its slot, whatever the order of the members. A field that is missing is null, and of a member that
// is given twice the last one counts.
#[cycle(taking)]
fn fields_ahead(
    alloc: Global,
    model: &Model,
    depth: u32,
    fields: &[Field],
    reader: &mut Reader<'_>,
    nest: usize,
) -> Result<Trees, Unread>
    requires { AreNamesApart (field_names fields.now) }
    ensures { IfOk result (λ parts. TakesMembers (read_members (read_named model.now depth) fields.now) nest reader.old (object (trees_of_list (plain_trees parts))) reader.new) }
{
    let mut slots = null_slots(alloc, fields.len())?;
    let mut from = 0;
    'members: while let Some(name) = reader.next_key()? {
        let Some(place) = place_of(fields, from, name) else {
            return Err(Unread::Other);
        };
        let tree = field_ahead(alloc, model, depth, &fields[place].kind, reader, nest)?;
        slots[place] = tree;
        from = place + 1;
    }
    Ok(trees_of(alloc, slots)?)
}

/// The place of the field of this name, which is looked for from a place on, and then from the first one on.
pub(crate) fn place_of(fields: &[Field], from: usize, name: &str) -> Option<usize>
    ensures within { IfSome result (λ place. place < length fields.now) }
    ensures named { IfSome result (λ place. IsSomeAnd (slice_get fields.now place) (λ field. field.name ≡ name.now)) }
{
    match place_from(fields, from, name) {
        Some(place) => Some(place),
        None => place_from(fields, 0, name),
    }
}

// The place of the first field of this name, from a place on.
fn place_from(fields: &[Field], from: usize, name: &str) -> Option<usize>
    ensures within { IfSome result (λ place. place < length fields.now) }
    ensures named { IfSome result (λ place. IsSomeAnd (slice_get fields.now place) (λ field. field.name ≡ name.now)) }
{
    for place in from..fields.len() {
        if fields[place].name.text() == name {
            return Some(place);
        }
    }
    None
}

// So many slots with nothing in them.
fn null_slots(alloc: Global, count: usize) -> Result<Vec<Tree>, AllocError>
    ensures { IfOk result (λ slots. slots.items ≡ replicate count RowTree.Null) }
{
    let mut slots = Vec::with_capacity(alloc, count)?;
    'filling: while slots.len() < count {
        slots.push(Tree::Null)?;
    }
    Ok(slots)
}

// The trees in the slots.
fn trees_of(alloc: Global, slots: Vec<Tree>) -> Result<Trees, AllocError>
    ensures { IfOk result (λ parts. trees parts ≡ slots.items) }
{
    let mut parts = Trees::new(alloc);
    for slot in slots {
        parts.push(slot)?;
    }
    Ok(parts)
}

// The tree in a field.
#[cycle(taking)]
fn field_ahead(
    alloc: Global,
    model: &Model,
    depth: u32,
    kind: &FieldKind,
    reader: &mut Reader<'_>,
    nest: usize,
) -> Result<Tree, Unread>
    ensures { IfOk result (λ tree. Takes (read_present (read_named model.now depth) kind.now) nest reader.old (plain tree) reader.new) }
{
    let token = reader.next().ok_or(Unread::Other)?;
    match (kind, token) {
        (_, Token::Null) => Ok(Tree::Null),
        (FieldKind::Reference(name), token) => {
            named_behind(alloc, model, depth, name, token, reader, nest)
        }
        (kind, token) => leaf_tree(alloc, kind, token),
    }
}

// The elements of a list or a set.
#[cycle(taking)]
fn elements_ahead(
    alloc: Global,
    model: &Model,
    depth: u32,
    element: &Name,
    reader: &mut Reader<'_>,
    nest: usize,
) -> Result<Trees, Unread>
    ensures { IfOk result (λ parts. TakesItems (read_named model.now depth element.now) nest reader.old (plain_trees parts) reader.new) }
{
    let mut parts = Trees::new(alloc);
    'elements: while !reader.take_end_array() {
        parts.push(named_ahead(alloc, model, depth, element, reader, nest)?)?;
    }
    Ok(parts)
}

// The pairs of a map.
#[cycle(taking)]
fn pairs_ahead(
    alloc: Global,
    model: &Model,
    depth: u32,
    key: &Name,
    part: &Name,
    reader: &mut Reader<'_>,
    nest: usize,
) -> Result<TreePairs, Unread>
    ensures { IfOk result (λ pairs. TakesItems (read_pair (read_named model.now depth key.now) (read_named model.now depth part.now)) nest reader.old (plain_pairs pairs) reader.new) }
{
    let mut pairs = TreePairs::new(alloc);
    'each: while !reader.take_end_array() {
        pairs.push(pair_ahead(alloc, model, depth, key, part, reader, nest)?)?;
    }
    Ok(pairs)
}

// A key of a map and its value.
#[cycle(taking)]
fn pair_ahead(
    alloc: Global,
    model: &Model,
    depth: u32,
    key: &Name,
    part: &Name,
    reader: &mut Reader<'_>,
    nest: usize,
) -> Result<(Tree, Tree), Unread>
    ensures { IfOk result (λ pair. Takes (read_pair (read_named model.now depth key.now) (read_named model.now depth part.now)) nest reader.old (plain_pair pair) reader.new) }
{
    if nest == 0 {
        return Err(Unread::Other);
    }
    open_pair(reader)?;
    let first = named_ahead(alloc, model, depth, key, reader, nest - 1)?;
    let second = named_ahead(alloc, model, depth, part, reader, nest - 1)?;
    if reader.take_end_array() {
        Ok((first, second))
    } else {
        Err(Unread::Other)
    }
}

// The map of these pairs, where no two keys are the same record.
fn map_of(pairs: TreePairs) -> Result<Tree, Unread>
    ensures { IfOk result (λ tree. (plain tree ≡ map_tree (pairs_of_list (plain_pairs pairs))) × AreKeysApart (pairs_of_list (plain_pairs pairs))) }
{
    if are_keys_apart(pairs.as_slice()) {
        Ok(Tree::Map(pairs))
    } else {
        Err(Unread::Other)
    }
}

// Passes the bracket that opens a pair.
fn open_pair(reader: &mut Reader<'_>) -> Result<(), Unread>
    ensures { OnOk result (reader.old ≡ begin_array ∷ reader.new) }
{
    match reader.next() {
        Some(Token::BeginArray) => Ok(()),
        _ => Err(Unread::Other),
    }
}
