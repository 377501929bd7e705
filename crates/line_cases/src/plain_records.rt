//! Which records are read as trees straight from their tokens.
use json::{Reader, Scratch};
use json_values::schemas_from;
use model_rules::model_of;
use record_stream::{CycleParts, split_cycle};
use record_tokens::{NextTree, next_tree};
use schema_model::Model;
use serde_json::Value;
use std::alloc::Global;

/// Films with the set of their tags and the map of their parts.
const FILMS: &str =
    r#"[{"kind":"OBJECT","name":"Film","fields":[{"name":"id","type":"INT"},{"name":"title","type":"STRING"},{"name":"tags","type":"REFERENCE","to":"Tags"},{"name":"cast","type":"REFERENCE","to":"Cast"}]},{"kind":"SET","name":"Tags","element":"Tag"},{"kind":"MAP","name":"Cast","key":"Tag","value":"Tag"},{"kind":"OBJECT","name":"Tag","fields":[{"name":"value","type":"STRING"}]}]"#;

/// Cycles whose first film is read from its tokens.
pub const PLAIN: &str =
    r#"{"cycle":{"version":1,"tag":7,"add":{"Film":[{"id":1,"title":"a","tags":[{"value":"\u00e9"},{"value":null}]}]}}}
{"cycle":{"version":1,"tag":7,"add":{"Film":[{"title":"a"}, 3]}}}
{"cycle":{"version":1,"tag":7,"add":{"Tag":[{}],"Film":[{"tags":[]}]}}}
{"cycle":{"version":1,"tag":7,"add":{"Film":[{"tags":null,"title":"a","id":1}]}}}
{"cycle":{"version":1,"tag":7,"add":{"Film":[{"id":1,"id":2}]}}}
{"cycle":{"version":1,"tag":7,"add":{"Film":[{"cast":[[{"value":"a"},{"value":"b"}],[{"value":"b"},{}]],"id":1}]}}}
{"cycle":{"version":1,"tag":7,"add":{"Film":[{"cast":[]}]}}}"#;

/// Cycles whose first film is none, or has a text that is an array of units.
pub const OTHER: &str = r#"{"cycle":{"version":1,"tag":7,"add":{"Film":[{"title":[97,55296]}]}}}
{"cycle":{"version":1,"tag":7,"add":{"Film":[{"cast":[[{},{}],[{},{}]]}]}}}
{"cycle":{"version":1,"tag":7,"add":{"Film":[{"cast":[[{}]]}]}}}
{"cycle":{"version":1,"tag":7,"add":{"Film":[{"id":2147483648}]}}}
{"cycle":{"version":1,"tag":7,"add":{"Film":[{"year":1}]}}}
{"cycle":{"version":1,"tag":7,"add":{"Film":[null]}}}"#;

/// The model of the films.
fn films(alloc: Global) -> Option<Model> {
    let schemas = schemas_from(alloc, &Value::from_str(alloc, FILMS).ok()?).ok()?;
    model_of(alloc, schemas).ok()
}

/// Whether the first film of a cycle is read straight from its tokens; none where no film stands first, or memory is refused.
pub fn is_taken(alloc: Global, line: &str) -> Option<bool> {
    let cycle = split_cycle(alloc, line).ok()??;
    is_first_taken(alloc, &cycle)
}

fn is_first_taken(alloc: Global, cycle: &CycleParts) -> Option<bool> {
    let mut scratch = Scratch::new(alloc);
    let mut reader = cycle.add.records(&mut scratch, "Film").ok()??;
    is_next_taken(alloc, &mut reader)
}

fn is_next_taken(alloc: Global, reader: &mut Reader<'_>) -> Option<bool> {
    let model = films(alloc)?;
    is_film_taken(alloc, &model, reader)
}

fn is_film_taken(alloc: Global, model: &Model, reader: &mut Reader<'_>) -> Option<bool> {
    let film = model.index_of("Film")?;
    if film >= model.len() {
        return None;
    }
    match next_tree(alloc, model, film, reader) {
        Ok(found) => Some(matches!(found, NextTree::Record(_))),
        Err(_) => None,
    }
}
