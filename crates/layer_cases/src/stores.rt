//! Steps over a store of blobs, each by its letter.
use hol_io::{BlobName, BlobStore};
use std::alloc::{AllocError, Global};

/// The name whose content is read.
const SNAPSHOT: BlobName = BlobName::Snapshot(1);

/// Tells of a step. It puts a snapshot (`o`), another one under its name (`s`) or a delta (`d`), asks for the size
/// of the snapshot (`n`), of a name that is not there (`a`) or of a second snapshot (`m`), reads the snapshot from a byte on
/// (its digit) into three bytes, or else lists the names.
pub fn tell_step<S: BlobStore>(
    out: &mut String,
    alloc: Global,
    store: &mut S,
    step: u8,
) -> Result<(), AllocError> {
    match step {
        b'o' => write!(out, "{:?};", store.put(&SNAPSHOT, b"old")),
        b's' => write!(out, "{:?};", store.put(&SNAPSHOT, b"abcde")),
        b'd' => write!(out, "{:?};", store.put(&BlobName::Delta(1, 2), b"xy")),
        b'n' => write!(out, "{:?};", store.size(&SNAPSHOT)),
        b'a' => write!(out, "{:?};", store.size(&BlobName::Announced)),
        b'm' => write!(out, "{:?};", store.size(&BlobName::Snapshot(2))),
        b'0'..=b'9' => tell_part(out, store, u64::from(step - b'0')),
        _ => tell_list(out, alloc, store),
    }
}

fn tell_part<S: BlobStore>(out: &mut String, store: &mut S, at: u64) -> Result<(), AllocError> {
    let mut buf = [0; 3];
    let count = store.read_at(&SNAPSHOT, at, &mut buf);
    write!(out, "{count:?} {buf:?};")
}

fn tell_list<S: BlobStore>(
    out: &mut String,
    alloc: Global,
    store: &mut S,
) -> Result<(), AllocError> {
    let mut names = Vec::new(alloc);
    let listed = store.list(&mut names);
    write!(out, "{listed:?} {:?};", names.as_slice())
}
