//! The program: `hollow FOLDER WORDS..` over the files of a folder, standard input and standard output.
#![tactic(auto)]

mod ending;
mod progress;
mod usage;

use ending::{NO_MEMORY, NOT_KEPT, NOT_READ, NOT_WRITTEN, TOO_LONG, USAGE, say};
use hol_files::{FolderStore, StdIn, StdOut};
use hollow_top::{Keep, run};
use progress::Shown;
use std::alloc::Global;
use std::process::ExitCode;
use std::rt::{Env, Files};
use std::{env, io, mem};
use usage::{HELP, UsageFault, VERSION};

fn main(rt: HostRuntime) -> ExitCode {
    let status = match arguments(&rt) {
        Ok(arguments) => status_of(&rt, arguments.as_slice()),
        Err(error) if error.kind() == io::ErrorKind::InvalidData => USAGE,
        Err(_) => NO_MEMORY,
    };
    match status {
        USAGE => {
            let _shown = eprintln!(rt; "{}", UsageFault);
        }
        NO_MEMORY => say(&rt, "out of memory", None::<&str>),
        TOO_LONG => say(&rt, "more than 2^32 bytes of input", None::<&str>),
        _ => {}
    }
    ExitCode::from(status)
}

// The words behind the program's name.
fn arguments<R: Env + AllocGlobal>(rt: &R) -> io::Result<Vec<String>> {
    let mut words = Vec::new(rt.alloc());
    for word in env::args(rt)?.skip(1) {
        words.push(word)?;
    }
    Ok(words)
}

// The status of these arguments: a folder, and the words of a command.
fn status_of(rt: &HostRuntime, arguments: &[String]) -> u8 {
    match arguments {
        [word] if word.as_str() == "--help" => shown(rt, HELP),
        [word] if word.as_str() == "--version" => shown(rt, VERSION),
        [folder, words @ ..] => served(rt, folder.as_str(), words),
        [] => served(rt, ".", arguments),
    }
}

// Shows a text on standard output.
fn shown(rt: &HostRuntime, text: &str) -> u8 {
    match println!(rt; "{text}") {
        Ok(()) => 0,
        Err(error) => {
            say(rt, "standard output failed", Some(error));
            NOT_WRITTEN
        }
    }
}

// Does what the words ask for over a folder, and says what failed where it did.
fn served(rt: &HostRuntime, folder: &str, words: &[String]) -> u8 {
    let alloc = rt.alloc();
    let Ok(mut store) = FolderStore::new(*rt, alloc, folder) else {
        return NO_MEMORY;
    };
    let mut input = StdIn::new(rt.stdin());
    let mut out = StdOut::new(rt.stdout());
    let mut keep = Keep::new(alloc);
    let mut progress = Shown::new(*rt);
    let status = run(
        alloc,
        words,
        &mut input,
        &mut out,
        &mut store,
        &mut keep,
        &mut progress,
    );
    match status {
        NOT_READ => say(rt, "standard input failed", input.last_failure()),
        NOT_WRITTEN => say(rt, "standard output failed", out.last_failure()),
        NOT_KEPT => say(
            rt,
            "the folder failed",
            store.last_failure().unwrap_or(None),
        ),
        _ => {}
    }

    // The process ends here, and the system takes its memory back at once: no row is given back by itself.
    mem::forget(keep);
    status
}
