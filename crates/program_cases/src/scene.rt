//! The lines of a case over a store that stays from one command to the next. Beside the lines of `bench` and `changed` there are these.
//!
//! | line | what it says |
//! |---|---|
//! | `empty N..` | the store is empty, and these calls of its puts fail |
//! | `holds NAME` | a name of it holds the blob |
//! | `says NAME TEXT` | a name of it holds this text |
//! | `go STATUS WORDS` | the words of a command line, over the store, end with this status |
//! | `has NAME` | a name of it holds just the blob |
//! | `told TEXT` | it announces this text |
//! | `names NAME..` | it has these names alone, in their order |
//! | `moves TEXT` | behind a load of snapshot-1, a step along the blob as delta-1-2 is taken, and one along its faulty twin answers this line |
use crate::bench::Bench;
use crate::pieces::put_numbers;
use hol_io::{BlobName, BlobStore, name_text, parse_name};
use hol_memory::MemStore;
use std::alloc::Global;

/// A load, and a step from it.
const MOVE: [&str; 2] = [r#"input {"load":1}"#, r#"input {"step":[1,2]}"#];

/// What the load answers.
const LOADED: &str = r#"out {"ok":"load","tag":71}"#;

/// What the step answers where it is taken.
const TAKEN: &str = r#"{"ok":"step","tag":72}"#;

/// A bench, and a store that stays.
#[derive(Drop)]
pub struct Scene {
    pub alloc: Global,
    /// What the commands are run on.
    pub bench: Bench,
    /// The store that stays from command to command.
    pub store: MemStore,
}

impl Scene {
    /// A bench with nothing on it, and an empty store.
    pub fn new(alloc: Global) -> Scene {
        Scene {
            alloc,
            bench: Bench::new(alloc),
            store: MemStore::new(alloc, Vec::new(alloc), Vec::new(alloc)),
        }
    }

    /// Whether a line of a case holds.
    pub fn step(&mut self, line: &str) -> anyhow::Result<bool> {
        let (word, rest) = line.split_once(' ').unwrap_or((line, ""));
        match word.as_bytes() {
            b"empty" => self.clear(rest),
            b"holds" => self.hold(rest),
            b"says" => self.say(rest),
            b"go" => self.go(rest),
            b"has" => self.has(rest),
            b"told" => self.is_told(rest),
            b"names" => self.has_names(rest),
            b"moves" => self.moves(rest),
            _ => self.step_changed(word, rest, line),
        }
    }

    // The store is empty.
    fn clear(&mut self, rest: &str) -> anyhow::Result<bool> {
        let mut puts = Vec::new(self.alloc);
        put_numbers(rest, &mut puts)?;
        self.store = MemStore::new(self.alloc, Vec::new(self.alloc), puts);
        Ok(true)
    }

    // A name holds the blob.
    fn hold(&mut self, name: &str) -> anyhow::Result<bool> {
        let blob = self.bench.blob()?;
        self.put(name, blob.as_slice())
    }

    // A name holds a text.
    fn say(&mut self, rest: &str) -> anyhow::Result<bool> {
        let (name, text) = rest.split_once(' ').unwrap_or((rest, ""));
        self.put(name, text.as_bytes())
    }

    /// A name holds these bytes.
    pub fn put(&mut self, name: &str, bytes: &[u8]) -> anyhow::Result<bool> {
        match parse_name(name) {
            Some(name) => Ok(self.store.put(&name, bytes).is_ok()),
            None => Ok(false),
        }
    }

    // A command line is run over the store.
    fn go(&mut self, rest: &str) -> anyhow::Result<bool> {
        let (status, words) = rest.split_once(' ').unwrap_or((rest, ""));
        let settled = self.bench.is_settled();
        let ended = self.bench.answer_over(words, &mut self.store)?;
        Ok(settled && ended == status.parse::<u8>()?)
    }

    // A step along the blob is taken, and one along its faulty twin is refused with this line.
    fn moves(&mut self, line: &str) -> anyhow::Result<bool> {
        let settled = self.bench.is_settled();
        let sound = self.bench.blob()?;
        let faulty = self.bench.faulty_blob()?;
        let taken = self.comes_to(sound.as_slice(), TAKEN)?;
        let refused = self.comes_to(faulty.as_slice(), line)?;
        Ok(settled && taken && refused)
    }

    // Whether a step along this delta, behind a load, answers this line.
    fn comes_to(&mut self, delta: &[u8], line: &str) -> anyhow::Result<bool> {
        self.put("delta-1-2", delta)?;
        for order in MOVE {
            self.bench.step(order)?;
        }
        self.bench.answer_over("run", &mut self.store)?;
        self.bench.step(LOADED)?;
        self.bench.want(line, "\n")?;
        Ok(self.bench.is_settled())
    }

    // A name holds just the blob.
    fn has(&mut self, name: &str) -> anyhow::Result<bool> {
        let blob = self.bench.blob()?;
        match parse_name(name) {
            Some(name) => self.holds(&name, blob.as_slice()),
            None => Ok(false),
        }
    }

    // The store announces this text.
    fn is_told(&mut self, text: &str) -> anyhow::Result<bool> {
        self.holds(&BlobName::Announced, text.as_bytes())
    }

    // A name holds just these bytes.
    fn holds(&mut self, name: &BlobName, bytes: &[u8]) -> anyhow::Result<bool> {
        let mut found = vec![in self.alloc; 0; bytes.len() + 1]?;
        let Ok(count) = self.store.read_at(name, 0, found.as_mut_slice()) else {
            return Ok(false);
        };
        Ok(&found[..count] == bytes)
    }

    // The store has these names alone.
    fn has_names(&mut self, rest: &str) -> anyhow::Result<bool> {
        let mut listed = Vec::new(self.alloc);
        if self.store.list(&mut listed).is_err() {
            return Ok(false);
        }
        let mut text = String::new(self.alloc);
        for name in &listed {
            if !text.is_empty() {
                text.push(' ')?;
            }
            text.push_str(name_text(self.alloc, name)?.as_str())?;
        }
        Ok(text.as_str() == rest)
    }
}
