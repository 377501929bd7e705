//! Which lines are cycles whose records are read one by one.
use record_stream::split_cycle;
use std::alloc::{AllocError, Global};

/// Whether the records of a line are read one by one.
pub fn is_taken(alloc: Global, line: &str) -> Result<bool, AllocError> {
    Ok(split_cycle(alloc, line)?.is_some())
}

/// Cycles whose records stay in their line.
pub const PLAIN: &str = r#"{"cycle":{"version":1,"tag":7,"add":{}}}
{"cycle":{"version":1,"tag":7,"add":{"Text":["x",{"a":[-1.5e3,null]}],"Film":[]}}}
{"cycle":{"tag":7,"version":1,"add":{}}}
{"cycle":{"snapshot":true,"add":{"Text":[],"Film":[],"Text":[1]},"tag":6,"version":1,"tag":7}}
{"cycle":{"version":1,"tag":7,"add":{"A":[],"B":[],"C":[],"D":[],"E":[],"F":[],"G":[],"H":[],"I":[]}}}
 { "cycle" : { "version" : 1 , "tag" : 7 , "add" : { "\u0054ext" : [ ] } } } "#;

/// Lines that are no cycles, or cycles whose `add` is given twice.
pub const OTHER: &str = r#"{"cycle":{"tag":7,"add":{}}}
{"cycle":{"version":1,"tag":7,"add":{},"plan":1}}
{"cycle":{"version":1,"tag":7,"add":{"Text":[]},"add":{}}}
{"cycle":{"version":1,"tag":7,"add":{"Text":{}}}}
{"cycle":{"version":1,"tag":7,"add":{"Text":[1e400]}}}
{"cycle":{"version":1,"tag":7,"add":{"Text":[1}}}
{"cycle":{"version":1,"tag":7,"add":{}}} 1"#;
