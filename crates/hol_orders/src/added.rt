//! The records that a cycle adds, or that a change puts.
use record_stream::RecordLine;
use serde_json::Value;

/// The records that a cycle adds or a change puts, by type, still JSON: an object of arrays.
#[derive(Drop)]
pub enum Added {
    /// As the value that was read with the order.
    Json(Value),
    /// In the line of the order, from which they are read one by one.
    Line(RecordLine),
}
