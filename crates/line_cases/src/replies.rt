//! Lines: of a refusal that names a row, and of several answers, one behind the other.
use hol_answers::{Blobs, ItemFault, Progress, Refusal, Reply, RowPlace, put_line, put_reply};
use hol_io::BlobName;
use schema_model::{Name, Reason};
use serde_json::Value;
use std::alloc::{AllocError, Global};

/// A blob with a row that no place spells.
fn bad_row(alloc: Global) -> Result<Refusal, AllocError> {
    let row = RowPlace {
        type_name: Name::from_text(alloc, "A")?,
        ordinal: 7,
    };
    Ok(Refusal::BadBlob(ItemFault {
        blob: BlobName::Snapshot(1),
        at: 31,
        reason: Reason::FloatField,
        row: Some(row),
    }))
}

/// How far a consumer went that met this blob behind one other.
fn progress(alloc: Global) -> Result<Reply, AllocError> {
    Ok(Reply::Goto(Progress {
        applied: 1,
        of: 3,
        refused: Some(bad_row(alloc)?),
        tag: Some(-71),
    }))
}

/// Puts the lines of null, and of several answers and refusals, one behind the other.
fn put_lines(alloc: Global, out: &mut Vec<u8>) -> Result<(), AllocError> {
    put_line(alloc, out, &Value::Null)?;
    put_reply(alloc, out, Reply::Model(1))?;
    put_reply(alloc, out, Reply::Refused(bad_row(alloc)?))?;
    put_reply(alloc, out, progress(alloc)?)?;
    put_reply(alloc, out, Reply::Plan(Blobs::new(alloc)))?;
    put_reply(alloc, out, Reply::History(2))?;
    put_reply(
        alloc,
        out,
        Reply::Refused(Refusal::NoPlan { from: None, to: 9 }),
    )
}

/// The lines of these answers, in their order.
const LINES: &str = r#"null
{"ok":"model","types":1}
{"at":31,"blob":"snapshot-1","error":19,"name":"BadBlob","ordinal":7,"reason":45,"type":"A"}
{"applied":1,"of":3,"ok":"goto","refused":{"at":31,"blob":"snapshot-1","error":19,"name":"BadBlob","ordinal":7,"reason":45,"type":"A"},"tag":-71}
{"blobs":[],"ok":"plan"}
{"kept":2,"ok":"history"}
{"error":36,"from":null,"name":"NoPlan","to":9}
"#;

#[test]
fn lines_in_a_row(rt: HostRuntime) -> Result<(), AllocError> {
    let mut out = Vec::new(rt.alloc());
    put_lines(rt.alloc(), &mut out)?;
    assert!(rt; out.as_slice() == LINES.as_bytes());
    Ok(())
}
