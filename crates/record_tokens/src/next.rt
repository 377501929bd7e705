//! The records of an array, one after another, as trees.
ghost use Rattle.std.specs.Prelude.{◌<◌, ◌∷◌, List, IfOk, length};
ghost use Rattle.json.specs.Reads.{token_of};
ghost use Rattle.json.specs.Token.{Token as SpecToken};
ghost use Rattle.serde_json.specs.Data.{Data};
ghost use Rattle.record_json.specs.ReadTree.{read_tree};
ghost use Rattle.record_stream.specs.Records.{AreAhead, record_depth};
ghost use Rattle.record_trees.specs.Tree.{plain};
ghost use Rattle.record_tokens.specs.Next.{TakesRecord, TellsTree, TellsWhole};
ghost use Rattle.record_tokens.specs.Taken.{Takes};

use crate::row::values_ahead;
use crate::tree::tree_behind;
use crate::unread::Unread;
use closed_rows::is_plain_type;
use json::{Reader, Token};
use record_stream::RECORD_DEPTH;
use record_trees::Tree;
use row_model::Row;
use schema_model::{MAX_DEPTH, Model, Shape};
use std::alloc::{AllocError, Global};

/// A record that was read from its tokens.
#[derive(Drop)]
pub enum Record {
    /// One that refers to no others: the row that it is.
    Row(Row),
    /// One with all that it refers to.
    Tree(Tree),
}

/// What stands next in the array of the records of a type.
#[derive(Drop)]
pub enum NextTree {
    /// A record, which is passed.
    Record(Record),
    /// The bracket that closes the array, which is passed.
    End,
    /// It is not told: the next record gives no tree, or has a STRING that is an array of units. The reader is not to be used any more.
    Other,
}

/// The next record of the array in which the reader stands, with all that it refers to, whatever the order of its members. Where memory is refused, the
/// reader is not to be used any more.
pub fn next_tree(
    alloc: Global,
    model: &Model,
    type_index: u32,
    reader: &mut Reader<'_>,
) -> Result<NextTree, AllocError>
    requires { type_index < length model.now }
    ensures { IfOk result (λ found. (records : List Data) (rest : List SpecToken) → AreAhead reader.old records rest → TellsTree model.now type_index records rest found reader.new) }
{
    if reader.take_end_array() {
        return Ok(NextTree::End);
    }
    let Some(token) = reader.next() else {
        return Ok(NextTree::Other);
    };
    match read_behind(alloc, model, type_index, token, reader) {
        Ok(record) => Ok(NextTree::Record(record)),
        Err(Unread::Other) => Ok(NextTree::Other),
        Err(Unread::Memory) => Err(AllocError),
    }
}

/// What stands next in the array of the records of a type, as a tree.
#[derive(Drop)]
pub enum NextWhole {
    /// A record with all that it refers to.
    Tree(Tree),
    /// The bracket that closes the array, which is passed.
    End,
    /// It is not told: the next record gives no tree, or has a STRING that is an array of units. The reader is not to be used any more.
    Other,
}

/// The next record of the array in which the reader stands as a tree, whether it refers to others or not. Where memory is refused, the reader is not to be
/// used any more.
pub fn next_whole(
    alloc: Global,
    model: &Model,
    type_index: u32,
    reader: &mut Reader<'_>,
) -> Result<NextWhole, AllocError>
    requires { type_index < length model.now }
    ensures { IfOk result (λ found. (records : List Data) (rest : List SpecToken) → AreAhead reader.old records rest → TellsWhole model.now type_index records rest found reader.new) }
{
    if reader.take_end_array() {
        return Ok(NextWhole::End);
    }
    let Some(token) = reader.next() else {
        return Ok(NextWhole::Other);
    };
    match whole_behind(alloc, model, type_index, token, reader) {
        Ok(tree) => Ok(NextWhole::Tree(tree)),
        Err(Unread::Other) => Ok(NextWhole::Other),
        Err(Unread::Memory) => Err(AllocError),
    }
}

// The record whose first token was read.
fn read_behind(
    alloc: Global,
    model: &Model,
    type_index: u32,
    token: Token<'_>,
    reader: &mut Reader<'_>,
) -> Result<Record, Unread>
    requires { type_index < length model.now }
    ensures { IfOk result (λ found. TakesRecord model.now type_index (token_of token.entry ∷ reader.old) found reader.new) }
{
    let shape = &model.schema(type_index).shape;
    match (shape, token) {
        (Shape::Object(_, fields), Token::BeginObject) if is_plain_type(shape) => {
            let values = values_ahead(alloc, fields.as_slice(), reader, RECORD_DEPTH - 1)?;
            Ok(Record::Row(Row::Object(values)))
        }
        (_, token) => {
            let tree = whole_behind(alloc, model, type_index, token, reader)?;
            Ok(Record::Tree(tree))
        }
    }
}

// The record whose first token was read, as a tree.
fn whole_behind(
    alloc: Global,
    model: &Model,
    type_index: u32,
    token: Token<'_>,
    reader: &mut Reader<'_>,
) -> Result<Tree, Unread>
    requires { type_index < length model.now }
    ensures { IfOk result (λ tree. Takes (read_tree model.now type_index) record_depth (token_of token.entry ∷ reader.old) (plain tree) reader.new) }
{
    tree_behind(
        alloc,
        model,
        MAX_DEPTH,
        type_index,
        token,
        reader,
        RECORD_DEPTH,
    )
}
