//! Which lines are changes whose records are read one by one.
use record_stream::split_change;
use std::alloc::{AllocError, Global};

/// Whether the records of a line are read one by one.
pub fn is_taken(alloc: Global, line: &str) -> Result<bool, AllocError> {
    Ok(split_change(alloc, line)?.is_some())
}

/// Changes whose records stay in their line.
pub const PLAIN: &str = r#"{"change":{"version":1,"tag":7,"put":{},"remove":{}}}
{"change":{"remove":{"Film":[[1]]},"put":{"Text":["x",{"a":[-1.5e3,null]}],"Film":[]},"tag":7,"version":1}}
{"change":{"remove":1,"put":{"Text":[],"Film":[],"Text":[1]},"tag":6,"version":1,"tag":7,"remove":{}}}
 { "change" : { "version" : 1 , "tag" : 7 , "put" : { "\u0054ext" : [ ] } , "remove" : { } } } "#;

/// Lines that are no changes, or changes whose `put` is given twice.
pub const OTHER: &str = r#"{"change":{"version":1,"tag":7,"put":{}}}
{"change":{"version":1,"tag":7,"add":{},"remove":{}}}
{"change":{"version":1,"tag":7,"put":{},"remove":{},"snapshot":true}}
{"change":{"version":1,"tag":7,"put":{"Text":[]},"put":{},"remove":{}}}
{"change":{"version":1,"tag":7,"put":{"Text":[1e400]},"remove":{}}}
{"cycle":{"version":1,"tag":7,"put":{},"remove":{}}}"#;
