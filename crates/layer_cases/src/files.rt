//! What a folder, standard input and standard output do, of which the traits tell nothing.
use crate::stores::tell_step;
use hol_files::{FolderStore, StdIn, StdOut};
use hol_io::{Sink, Source};
use std::alloc::AllocError;
use std::fs;

/// Tells of a step over the store of a folder, each by its letter. It makes the folder, with a file of no blob's name (`f`), in it a new
/// file as a put that was ended leaves one (`w`) and a folder of a blob's name (`x`), and removes it (`q`), tells what failed last (`e`)
/// or what another store tells meanwhile (`t`), or else takes a step over the store.
fn tell_folder(
    out: &mut String,
    rt: HostRuntime,
    store: &mut FolderStore,
    step: u8,
) -> Result<(), AllocError> {
    match step {
        b'f' => write!(out, "{};", makes_folder(rt)),
        b'w' => write!(out, "{};", fs::write(&rt, "blobs/hollow.new", "ab").is_ok()),
        b'x' => write!(out, "{};", fs::create_dir(&rt, "blobs/snapshot-2").is_ok()),
        b'q' => write!(out, "{};", fs::remove_dir_all(&rt, "blobs").is_ok()),
        b'e' => tell_failure(out, store),
        b't' => tell_other(out, rt),
        _ => tell_step(out, rt.alloc(), store, step),
    }
}

fn makes_folder(rt: HostRuntime) -> bool {
    fs::create_dir(&rt, "blobs").is_ok() && fs::write(&rt, "blobs/notes.txt", "none").is_ok()
}

fn tell_failure(out: &mut String, store: &FolderStore) -> Result<(), AllocError> {
    match store.last_failure()? {
        Some(failure) => write!(out, "{failure};"),
        None => out.push_str("none;"),
    }
}

fn tell_other(out: &mut String, rt: HostRuntime) -> Result<(), AllocError> {
    let mut other = FolderStore::new(rt, rt.alloc(), "blobs")?;
    tell_step(out, rt.alloc(), &mut other, b'l')?;
    tell_step(out, rt.alloc(), &mut other, b's')?;
    tell_failure(out, &other)
}

/// Tells of steps over the store of a folder that is not there at first.
fn tell_steps(out: &mut String, rt: HostRuntime, steps: &[u8]) -> Result<(), AllocError> {
    let mut store = FolderStore::new(rt, rt.alloc(), "blobs")?;
    for step in steps {
        tell_folder(out, rt, &mut store, *step)?;
    }
    Ok(())
}

/// Steps over three stores, one behind the other: where there is no folder, where another store publishes too, and where a folder has a
/// blob's name.
#[test]
fn a_folder(rt: HostRuntime) -> Result<(), AllocError> {
    let mut told = String::new(rt.alloc());
    tell_steps(&mut told, rt, b"nlse0")?;
    tell_steps(&mut told, rt, b"fewosdltna039")?;
    tell_steps(&mut told, rt, b"lxmeq")?;
    assert!(rt;
        told.as_str()
            == "Ok(None);Err(Failed) [];Err(Failed);blobs: No such file or directory (os error 2);Ok(0) [0, 0, 0];\
                true;none;true;Ok(());Ok(());Ok(());Ok(()) [Snapshot(1), Delta(1, 2)];\
                Ok(()) [Snapshot(1), Delta(1, 2)];Err(Failed);blobs: another run publishes there;Ok(Some(5));Ok(None);\
                Ok(3) [97, 98, 99];Ok(2) [100, 101, 0];Ok(0) [0, 0, 0];\
                Ok(()) [Snapshot(1), Delta(1, 2)];true;Err(StoreFailed);blobs/snapshot-2: not a file;true;"
    );
    Ok(())
}

#[test]
fn standard_streams(rt: HostRuntime) {
    let mut source = StdIn::new(rt.stdin());
    let mut buf = *b"..";
    assert!(rt; source.read(&mut buf) == Ok(0));
    let mut sink = StdOut::new(rt.stdout());
    assert!(rt; sink.write(b"\n") == Ok(1));
}
