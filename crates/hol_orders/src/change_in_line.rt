//! The order `change` whose records stay in its line.
ghost use Rattle.std.specs.Prelude.{◌≡◌, FitsSigned, IfOk, IfSome};
ghost use Rattle.std.specs.Int.{w64};
ghost use Rattle.serde_json.specs.Data.{number};
ghost use Rattle.serde_json.specs.Find.{of_integer};
ghost use Rattle.serde_json.specs.View.{view};
ghost use Rattle.hol_io.specs.Name.{IsVersion};
ghost use Rattle.hol_orders.specs.Order.{Orders};
ghost use Rattle.hol_orders.specs.Parts.{whole};
ghost use Rattle.hol_orders.specs.Shapes.{AreKeys};

use crate::added::Added;
use crate::json_parts::{FromJson, RemovedKeys};
use crate::order::{Order, StateChange};
use record_stream::{ChangeParts, split_change};
use simdutf8::basic::from_utf8;
use std::alloc::{AllocError, Global};

/// The order `change` that a line is in its plain form, in which the records that it puts stay. `None` tells nothing of the line.
pub(crate) fn change_in_line(alloc: Global, line: &[u8]) -> Result<Option<Order>, AllocError>
    ensures { IfOk result (λ found. IfSome found (Orders line.now)) }
{
    if !line.starts_with(b"{\"change\"") {
        return Ok(None);
    }
    let Ok(text) = from_utf8(line) else {
        return Ok(None);
    };
    let Some(parts) = split_change(alloc, text)? else {
        return Ok(None);
    };
    match change_of(alloc, parts) {
        Some(next) => Ok(Some(Order::Change(next))),
        None => Ok(None),
    }
}

// What a change of these parts asks for, where its version and its tag are in their ranges, and its keys have their shape.
fn change_of(alloc: Global, parts: ChangeParts) -> Option<StateChange>
    ensures version { IfSome result (λ next. IsVersion next.version × (whole next.version ≡ view parts.version)) }
    ensures tag { IfSome result (λ next. FitsSigned w64 next.tag × (number (of_integer next.tag) ≡ view parts.tag)) }
    ensures put { IfSome result (λ next. next.put ≡ Added.Line parts.put) }
    ensures remove { IfSome result (λ next. AreKeys (view next.remove) × (view next.remove ≡ view parts.remove)) }
{
    let Ok(version) = u64::from_json(alloc, parts.version) else {
        return None;
    };
    let Ok(tag) = i64::from_json(alloc, parts.tag) else {
        return None;
    };
    let Ok(RemovedKeys(remove)) = RemovedKeys::from_json(alloc, parts.remove) else {
        return None;
    };
    Some(StateChange {
        version,
        tag,
        put: Added::Line(parts.put),
        remove,
    })
}
