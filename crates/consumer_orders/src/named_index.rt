//! The kept index that the texts of an order name.
ghost use Rattle.std.specs.Prelude.{◌≡◌, ◌<◌, IfSome, IsSomeAnd, IsTrue, length};
ghost use Rattle.serde_json.specs.View.{items_view, view};
ghost use Rattle.hollow_machine.specs.KeyPaths.{text_in, texts_in};
ghost use Rattle.consumer_orders.specs.Named.{AreNamed, IsNamedIndex, NamesPath};

use model_paths::resolves_to;
use read_engine::Consumer;
use schema_model::{MAX_INDEXES, Model, Path, Paths};
use serde_json::Value;

/// An index that a consumer keeps: its number, and its paths, lent.
#[derive(Drop)]
pub(crate) struct NamedIndex<'a> {
    pub(crate) number: u32,
    pub(crate) paths: &'a Paths,
}

/// The index of the type at an index that is kept by the paths to which these texts resolve, where this is the consumer's model. `None` tells nothing. It
/// takes no memory.
pub(crate) fn named_index<'a>(
    consumer: &'a Consumer,
    model: &Model,
    type_index: u32,
    texts: &[Value],
) -> Option<NamedIndex<'a>>
    requires model { IsSomeAnd consumer.now (λ now. now.schemas ≡ model.now) }
    requires type_in { type_index < length model.now }
    ensures { IfSome result (λ found. IsSomeAnd consumer.now (IsNamedIndex type_index (texts_in (items_view texts.now)) found.number found.paths.now)) }
{
    for number in 0..MAX_INDEXES as u32 {
        let (kept_type, paths) = consumer.index_at(number)?;
        if kept_type == type_index && are_named(model, type_index, paths.as_slice(), texts) {
            return Some(NamedIndex { number, paths });
        }
    }
    None
}

// Whether the texts, which are not none, resolve from a type to these paths, each to its own.
fn are_named(model: &Model, type_index: u32, paths: &[Path], texts: &[Value]) -> bool
    requires { type_index < length model.now }
    ensures { IsTrue result → AreNamed model.now type_index (texts_in (items_view texts.now)) paths.now }
{
    if texts.is_empty() || texts.len() != paths.len() {
        return false;
    }
    for (place, text) in texts.iter().enumerate() {
        if !is_named(model, type_index, &paths[place], text) {
            return false;
        }
    }
    true
}

// Whether a text resolves from a type to a path.
fn is_named(model: &Model, type_index: u32, path: &Path, text: &Value) -> bool
    requires { type_index < length model.now }
    ensures { IsTrue result → NamesPath model.now type_index (text_in (view text.now)) path.now }
{
    match text {
        Value::String(text) => {
            path.type_index == type_index && resolves_to(model, text.as_str(), path)
        }
        _ => false,
    }
}
