//! The shape of each kind of order: what its one member holds.
#![tactic(auto, using(crate::proofs::OfKind::none_asked))]

ghost use Rattle.serde_json.specs.View.{view};
ghost use Rattle.hol_orders.specs.Order.{FindsOrder};

use crate::json_parts::{Bound, FromJson, KeyValue, KeyValues, Paths, SchemaList, is_true};
use crate::kind::Kind;
use crate::order::{Order, OrderFault};
use serde_json::Value;
use std::alloc::Global;

/// The order of this kind that has this content. `BadOrder` comes exactly where none has it.
pub(crate) fn order_with(alloc: Global, kind: Kind, content: Value) -> Result<Order, OrderFault>
    ensures { FindsOrder kind (view content) result }
{
    match kind {
        Kind::Model => model_order(alloc, content),
        Kind::Cycle => cycle_order(alloc, content),
        Kind::Restore => restore_order(alloc, content),
        Kind::Load => load_order(alloc, content),
        Kind::Step => step_order(alloc, content),
        Kind::Index => index_order(alloc, content),
        Kind::Get => get_order(alloc, content),
        Kind::Find => find_order(alloc, content),
        Kind::Live => live_order(alloc, content),
        Kind::Row => row_order(alloc, content),
        Kind::Has => has_order(alloc, content),
        Kind::At => at_order(alloc, content),
        Kind::Past => past_order(alloc, content),
        Kind::Check => check_order(alloc, content),
        Kind::Stat => stat_order(content),
        Kind::Grow => grow_order(alloc, content),
        Kind::Plan => plan_order(alloc, content),
        Kind::Goto => goto_order(alloc, content),
        Kind::Change => change_order(alloc, content),
        Kind::WalkIndex => walk_index_order(alloc, content),
        Kind::WalkFind => walk_find_order(alloc, content),
        Kind::History => history_order(alloc, content),
        Kind::Was => was_order(alloc, content),
        Kind::WasGet => was_get_order(alloc, content),
    }
}

fn model_order(alloc: Global, content: Value) -> Result<Order, OrderFault>
    ensures { FindsOrder Kind.Model (view content) result }
{
    let SchemaList(schemas) = FromJson::from_json(alloc, content)?;
    Ok(Order::Model(schemas))
}

fn cycle_order(alloc: Global, content: Value) -> Result<Order, OrderFault>
    ensures { FindsOrder Kind.Cycle (view content) result }
{
    Ok(Order::Cycle(FromJson::from_json(alloc, content)?))
}

fn restore_order(alloc: Global, content: Value) -> Result<Order, OrderFault>
    ensures { FindsOrder Kind.Restore (view content) result }
{
    Ok(Order::Restore(FromJson::from_json(alloc, content)?))
}

fn load_order(alloc: Global, content: Value) -> Result<Order, OrderFault>
    ensures { FindsOrder Kind.Load (view content) result }
{
    Ok(Order::Load(FromJson::from_json(alloc, content)?))
}

#[tactic(auto, using(crate::proofs::OfKind::no_step, crate::proofs::OfKind::no_still))]
fn step_order(alloc: Global, content: Value) -> Result<Order, OrderFault>
    ensures { FindsOrder Kind.Step (view content) result }
{
    let (from, to): (u64, u64) = FromJson::from_json(alloc, content)?;
    if from == to {
        Err(OrderFault::BadOrder)
    } else {
        Ok(Order::Step { from, to })
    }
}

fn index_order(alloc: Global, content: Value) -> Result<Order, OrderFault>
    ensures { FindsOrder Kind.Index (view content) result }
{
    let (type_name, Paths(paths)) = FromJson::from_json(alloc, content)?;
    Ok(Order::Index { type_name, paths })
}

fn get_order(alloc: Global, content: Value) -> Result<Order, OrderFault>
    ensures { FindsOrder Kind.Get (view content) result }
{
    let (type_name, KeyValues(values)) = FromJson::from_json(alloc, content)?;
    Ok(Order::Get { type_name, values })
}

fn find_order(alloc: Global, content: Value) -> Result<Order, OrderFault>
    ensures { FindsOrder Kind.Find (view content) result }
{
    let (type_name, Paths(paths), KeyValues(values)) = FromJson::from_json(alloc, content)?;
    Ok(Order::Find {
        type_name,
        paths,
        values,
    })
}

fn live_order(alloc: Global, content: Value) -> Result<Order, OrderFault>
    ensures { FindsOrder Kind.Live (view content) result }
{
    Ok(Order::Live(FromJson::from_json(alloc, content)?))
}

fn row_order(alloc: Global, content: Value) -> Result<Order, OrderFault>
    ensures { FindsOrder Kind.Row (view content) result }
{
    let (type_name, ordinal) = FromJson::from_json(alloc, content)?;
    Ok(Order::Row { type_name, ordinal })
}

fn has_order(alloc: Global, content: Value) -> Result<Order, OrderFault>
    ensures { FindsOrder Kind.Has (view content) result }
{
    let (type_name, ordinal, element) = FromJson::from_json(alloc, content)?;
    Ok(Order::Has {
        type_name,
        ordinal,
        element,
    })
}

fn at_order(alloc: Global, content: Value) -> Result<Order, OrderFault>
    ensures { FindsOrder Kind.At (view content) result }
{
    let (type_name, ordinal, key) = FromJson::from_json(alloc, content)?;
    Ok(Order::At {
        type_name,
        ordinal,
        key,
    })
}

fn past_order(alloc: Global, content: Value) -> Result<Order, OrderFault>
    ensures { FindsOrder Kind.Past (view content) result }
{
    Ok(Order::Past(FromJson::from_json(alloc, content)?))
}

fn check_order(alloc: Global, content: Value) -> Result<Order, OrderFault>
    ensures { FindsOrder Kind.Check (view content) result }
{
    Ok(Order::Check(FromJson::from_json(alloc, content)?))
}

#[tactic(auto, using(crate::proofs::OfKind::stat_found))]
fn stat_order(content: Value) -> Result<Order, OrderFault>
    ensures { FindsOrder Kind.Stat (view content) result }
{
    if !is_true(&content) {
        return Err(OrderFault::BadOrder);
    }
    Ok(Order::Stat)
}

fn grow_order(alloc: Global, content: Value) -> Result<Order, OrderFault>
    ensures { FindsOrder Kind.Grow (view content) result }
{
    let SchemaList(schemas) = FromJson::from_json(alloc, content)?;
    Ok(Order::Grow(schemas))
}

fn plan_order(alloc: Global, content: Value) -> Result<Order, OrderFault>
    ensures { FindsOrder Kind.Plan (view content) result }
{
    Ok(Order::Plan(FromJson::from_json(alloc, content)?))
}

fn goto_order(alloc: Global, content: Value) -> Result<Order, OrderFault>
    ensures { FindsOrder Kind.Goto (view content) result }
{
    Ok(Order::Goto(FromJson::from_json(alloc, content)?))
}

fn change_order(alloc: Global, content: Value) -> Result<Order, OrderFault>
    ensures { FindsOrder Kind.Change (view content) result }
{
    Ok(Order::Change(FromJson::from_json(alloc, content)?))
}

fn walk_index_order(alloc: Global, content: Value) -> Result<Order, OrderFault>
    ensures { FindsOrder Kind.WalkIndex (view content) result }
{
    let (type_name, path) = FromJson::from_json(alloc, content)?;
    Ok(Order::WalkIndex { type_name, path })
}

fn walk_find_order(alloc: Global, content: Value) -> Result<Order, OrderFault>
    ensures { FindsOrder Kind.WalkFind (view content) result }
{
    let (type_name, path, KeyValue(value)) = FromJson::from_json(alloc, content)?;
    Ok(Order::WalkFind {
        type_name,
        path,
        value,
    })
}

fn history_order(alloc: Global, content: Value) -> Result<Order, OrderFault>
    ensures { FindsOrder Kind.History (view content) result }
{
    let Bound(bound) = FromJson::from_json(alloc, content)?;
    Ok(Order::History(bound))
}

fn was_order(alloc: Global, content: Value) -> Result<Order, OrderFault>
    ensures { FindsOrder Kind.Was (view content) result }
{
    let (version, type_name, ordinal) = FromJson::from_json(alloc, content)?;
    Ok(Order::Was {
        version,
        type_name,
        ordinal,
    })
}

fn was_get_order(alloc: Global, content: Value) -> Result<Order, OrderFault>
    ensures { FindsOrder Kind.WasGet (view content) result }
{
    let (version, type_name, KeyValues(values)) = FromJson::from_json(alloc, content)?;
    Ok(Order::WasGet {
        version,
        type_name,
        values,
    })
}
