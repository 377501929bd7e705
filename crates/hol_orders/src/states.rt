//! What `cycle` and `change` ask for, taken from JSON values.
ghost use Rattle.std.specs.Prelude.{◌≡◌};
ghost use Rattle.serde_json.specs.View.{view, members_view};
ghost use Rattle.hol_orders.specs.Parts.{change_data};
ghost use Rattle.hol_orders.specs.Taken.{TellsFour, TellsNext, TellsSaid, TellsState};

use crate::added::Added;
use crate::json_parts::{FromJson, Records, RemovedKeys};
use crate::order::{NextState, OrderFault, StateChange};
use serde_json::{Map, Value};
use std::alloc::Global;

impl FromJson for NextState {
    ghost use Rattle.hol_orders.specs.Kind.{state};
    ghost use Rattle.hol_orders.specs.Parts.{AskedState, asked_state};

    ghost Asked = { AskedState };

    ghost asked = { asked_state };

    ghost spelling = { state };

    fn from_json(alloc: Global, value: Value) -> Result<NextState, OrderFault> {
        let (add, snapshot, tag, version) = state_members(value)?;
        let Records(add) = FromJson::from_json(alloc, add)?;
        let tag = FromJson::from_json(alloc, tag)?;
        let version = FromJson::from_json(alloc, version)?;
        Ok(NextState {
            version,
            tag,
            add: Added::Json(add),
            snapshot,
        })
    }
}

impl FromJson for StateChange {
    ghost use Rattle.hol_orders.specs.Kind.{change};
    ghost use Rattle.hol_orders.specs.Parts.{AskedChange, asked_change};

    ghost Asked = { AskedChange };

    ghost asked = { asked_change };

    ghost spelling = { change };

    fn from_json(alloc: Global, value: Value) -> Result<StateChange, OrderFault> {
        let (put, remove, tag, version) = change_members(value)?;
        let Records(put) = FromJson::from_json(alloc, put)?;
        let RemovedKeys(remove) = FromJson::from_json(alloc, remove)?;
        let tag = FromJson::from_json(alloc, tag)?;
        let version = FromJson::from_json(alloc, version)?;
        Ok(StateChange {
            version,
            tag,
            put: Added::Json(put),
            remove,
        })
    }
}

// The values of `add`, `tag` and `version` of an object that has these members alone, or `snapshot` too, and what that says.
fn state_members(value: Value) -> Result<(Value, Option<bool>, Value, Value), OrderFault>
    ensures { TellsState (view value) result }
{
    let Value::Object(mut members) = value else {
        return Err(OrderFault::BadOrder);
    };
    let add = next_named(&mut members, "add")?;
    let snapshot = next_said(&mut members)?;
    let tag = next_named(&mut members, "tag")?;
    let version = next_named(&mut members, "version")?;
    if members.is_empty() {
        Ok((add, snapshot, tag, version))
    } else {
        Err(OrderFault::BadOrder)
    }
}

// The values of `put`, `remove`, `tag` and `version` of an object that has these members alone.
fn change_members(value: Value) -> Result<(Value, Value, Value, Value), OrderFault>
    ensures { TellsFour change_data (view value) result }
{
    let Value::Object(mut members) = value else {
        return Err(OrderFault::BadOrder);
    };
    let put = next_named(&mut members, "put")?;
    let remove = next_named(&mut members, "remove")?;
    let tag = next_named(&mut members, "tag")?;
    let version = next_named(&mut members, "version")?;
    if members.is_empty() {
        Ok((put, remove, tag, version))
    } else {
        Err(OrderFault::BadOrder)
    }
}

// Takes the member that says whether a snapshot is put, where a third member is left.
fn next_said(members: &mut Map<String, Value>) -> Result<Option<bool>, OrderFault>
    ensures { TellsSaid (members_view members.old.entries) (members_view members.new.entries) result }
{
    if members.len() < 3 {
        return Ok(None);
    }
    let value = next_named(members, "snapshot")?;
    match value.as_bool() {
        Some(snapshot) => Ok(Some(snapshot)),
        None => Err(OrderFault::BadOrder),
    }
}

// Takes the first member that is left, where it has this name.
fn next_named(members: &mut Map<String, Value>, name: &str) -> Result<Value, OrderFault>
    ensures { TellsNext name.now (members_view members.old.entries) (members_view members.new.entries) result }
{
    match members.pop_first() {
        Some((found, value)) if found.as_str() == name => Ok(value),
        _ => Err(OrderFault::BadOrder),
    }
}
