//! The order `find`, straight from its line.
ghost use Rattle.std.specs.Prelude.{◌≡◌, IfOk, IfSome, string_bytes};
ghost use Rattle.serde_json.specs.View.{view};
ghost use Rattle.record_stream.specs.FindLine.{find_data};
ghost use Rattle.hol_orders.specs.Order.{IsOrder, Orders, order_data};

use crate::json_parts::are_paths;
use crate::order::Order;
use json::Scratch;
use record_stream::{FindParts, split_find};
use schema_model::Name;
use simdutf8::basic::from_utf8;
use std::alloc::{AllocError, Global};

/// The order `find` that a line is in its plain form, without a tree of the whole line. `None` tells nothing of the line.
pub(crate) fn find_in_line(
    alloc: Global,
    scratch: &mut Scratch,
    line: &[u8],
) -> Result<Option<Order>, AllocError>
    ensures { IfOk result (λ found. IfSome found (Orders line.now)) }
{
    if !line.starts_with(b"{\"find\"") {
        return Ok(None);
    }
    let Ok(text) = from_utf8(line) else {
        return Ok(None);
    };
    match split_find(alloc, scratch, text)? {
        Some(parts) => Ok(find_of(parts)),
        None => Ok(None),
    }
}

// The order of these parts, where its paths are texts and its values are an array.
fn find_of(parts: FindParts) -> Option<Order>
    ensures { IfSome result (λ order. IsOrder order × (order_data order ≡ find_data (string_bytes parts.type_name) (view parts.paths) (view parts.values))) }
{
    if !are_paths(&parts.paths) || !parts.values.is_array() {
        return None;
    }
    Some(Order::Find {
        type_name: Name::from_string(parts.type_name),
        paths: parts.paths,
        values: parts.values,
    })
}
