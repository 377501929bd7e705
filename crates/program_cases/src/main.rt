//! Worked cases of the program, as files: runs those of the files that it is given over memory, and prints how many were judged.
#![tactic(auto)]

mod bench;
mod cases;
mod changed;
mod pieces;
mod scene;
mod setting;
mod zeros;

use anyhow::Context;
use cases::Cases;
use std::process::ExitCode;
use std::{env, fs};

fn main(rt: HostRuntime) -> ExitCode {
    match judged(&rt) {
        Ok(Some(count)) => shown(&rt, count),
        Ok(None) => ExitCode::from(1),
        Err(error) => {
            let _told = eprintln!(rt; "program_cases: {error:#}");
            ExitCode::from(2)
        }
    }
}

// Prints how many commands were judged.
fn shown(rt: &HostRuntime, count: u64) -> ExitCode {
    match println!(rt; "{count} commands") {
        Ok(()) => ExitCode::from(0),
        Err(_) => ExitCode::from(2),
    }
}

// How many commands of the files were judged, or none where one of them came to something else, which is told on standard error.
fn judged(rt: &HostRuntime) -> anyhow::Result<Option<u64>> {
    let mut cases = Cases::new(rt.alloc());
    for name in env::args(rt)?.skip(1) {
        let text = fs::read_to_string(rt, name.as_str()).context("a file of cases")?;
        if let Some(place) = cases.first_odd(text.as_str())? {
            let title = cases.title();
            eprintln!(rt; "{name}:{place}: {title}: another answer came")?;
            return Ok(None);
        }
    }
    Ok(Some(cases.count()))
}
