//! The order `cycle` whose records stay in its line.
ghost use Rattle.std.specs.Prelude.{◌≡◌, FitsSigned, IfOk, IfSome};
ghost use Rattle.std.specs.Int.{w64};
ghost use Rattle.serde_json.specs.Data.{number};
ghost use Rattle.serde_json.specs.Find.{of_integer};
ghost use Rattle.serde_json.specs.View.{view};
ghost use Rattle.hol_io.specs.Name.{IsVersion};
ghost use Rattle.hol_orders.specs.Order.{Orders};
ghost use Rattle.hol_orders.specs.Parts.{whole};

use crate::added::Added;
use crate::json_parts::FromJson;
use crate::order::{NextState, Order};
use record_stream::{CycleParts, split_cycle};
use simdutf8::basic::from_utf8;
use std::alloc::{AllocError, Global};

/// The order `cycle` that a line is in its plain form, in which its records stay. `None` tells nothing of the line.
pub(crate) fn cycle_in_line(alloc: Global, line: &[u8]) -> Result<Option<Order>, AllocError>
    ensures { IfOk result (λ found. IfSome found (Orders line.now)) }
{
    if !line.starts_with(b"{\"cycle\"") {
        return Ok(None);
    }
    let Ok(text) = from_utf8(line) else {
        return Ok(None);
    };
    let Some(parts) = split_cycle(alloc, text)? else {
        return Ok(None);
    };
    match state_of(alloc, parts) {
        Some(next) => Ok(Some(Order::Cycle(next))),
        None => Ok(None),
    }
}

// What a cycle of these parts asks for, where its version and its tag are in their ranges.
fn state_of(alloc: Global, parts: CycleParts) -> Option<NextState>
    ensures version { IfSome result (λ next. IsVersion next.version × (whole next.version ≡ view parts.version)) }
    ensures tag { IfSome result (λ next. FitsSigned w64 next.tag × (number (of_integer next.tag) ≡ view parts.tag)) }
    ensures add { IfSome result (λ next. next.add ≡ Added.Line parts.add) }
    ensures snapshot { IfSome result (λ next. next.snapshot ≡ parts.snapshot) }
{
    let Ok(version) = u64::from_json(alloc, parts.version) else {
        return None;
    };
    let Ok(tag) = i64::from_json(alloc, parts.tag) else {
        return None;
    };
    Some(NextState {
        version,
        tag,
        add: Added::Line(parts.add),
        snapshot: parts.snapshot,
    })
}
