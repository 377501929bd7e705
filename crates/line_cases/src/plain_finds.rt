//! Which lines are look-ups whose parts are taken from the tokens of the line.
use json::Scratch;
use record_stream::split_find;
use std::alloc::{AllocError, Global};

/// Whether the parts of a line are taken from its tokens.
pub fn is_taken(alloc: Global, line: &str) -> Result<bool, AllocError> {
    let mut scratch = Scratch::new(alloc);
    Ok(split_find(alloc, &mut scratch, line)?.is_some())
}

/// Look-ups in their plain form; their paths and values may be any JSON here.
pub const PLAIN: &str = r#"{"find":["K",["id"],[1]]}
{"find":["",{"a":[]},7]}
 { "f\u0069nd" : [ "K" , [ ] , [ "a" , null , -1.5e3 ] ] } "#;

/// Lines that are look-ups in another form, or none.
pub const OTHER: &str = r#"{"find":["K",["id"],[1]]} 1
{"find":["K",["id"],[1]],"find":["K",["id"],[1]]}
{"find":["K",["id"]]}
{"find":["K",["id"],[1],2]}
{"find":[1,["id"],[1]]}
{"find":["K",["id"],[1e400]]}
{"get":["K",["id"],[1]]}
{"find":["K",["id"],[1]"#;
