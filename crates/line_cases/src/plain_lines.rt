//! Which lines are cut into a word and parts.
use record_stream::split_plain;
use std::alloc::{AllocError, Global};

/// Whether a line is cut.
pub fn is_taken(alloc: Global, line: &str) -> Result<bool, AllocError> {
    Ok(split_plain(alloc, line)?.is_some())
}

/// Orders of two or three parts, each a number, a text or an array of one of these.
pub const PLAIN: &str = r#"{"step":[1,2]}
{"get":["K",[1]]}
{"row":["K",0]}
{"was":[3,"K",0]}
{"walkfind":["K","list.element.id","a"]}
{"wasget":[3,"K",["a"]]}"#;

/// Lines that are orders in another form, or none.
pub const OTHER: &str = r#"{"live":"K"}
{"check":[1]}
{"check":[1,2,3,4]}
{"get":["K",[1,2]]}
{"row":["K", 0]}
{"row":["\u004b",0]}
{"row":["K",0]} 
{"row":["K",0],"row":["K",0]}
{"row":["K",00]}
{"walkfind":["K","id",null]}
{"walkfind":["K","id",1e400]}
{"row":["K",0"#;
