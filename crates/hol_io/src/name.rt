//! The names of blobs.
ghost use Rattle.std.specs.Prelude.{◌≡◌, ◌≢◌, ◌↔◌, ℕ, List, ◌++◌, IfOk, MatchOption, slice_index, string_bytes};
ghost use Rattle.hol_io.specs.declared.name.BlobName.{BlobName};
ghost use Rattle.hol_io.specs.Name.{text_of_name, Names, TellsName, TellsVersion, TellsStep};

use std::alloc::{AllocError, Global};

/// The name of a blob. Its order is that in which a store lists names.
#[derive(Clone, Copy, Debug, PartialEq, Eq, PartialOrd, Ord)]
pub enum BlobName {
    /// The whole state of a version.
    Snapshot(u64),
    /// What leads from the first version to the second, which is later.
    Delta(u64, u64),
    /// What leads from the first version to the second, which is earlier.
    Reverse(u64, u64),
    /// The number of the last published version.
    Announced,
}

impl BlobName {
    ghost use Rattle.std.specs.Prelude.{◌≡◌};
    ghost use Rattle.hol_io.specs.Name.{IsStepName, step_name};

    /// What leads from one version to another: the delta to a later one, and the reverse delta to another one.
    pub fn between(from: u64, to: u64) -> BlobName
        ensures name { result ≡ step_name from to }
        ensures step { IsStepName result }
    {
        if from < to {
            BlobName::Delta(from, to)
        } else {
            BlobName::Reverse(from, to)
        }
    }
}

/// The text of a name, its numbers in decimal: `snapshot-7`, `delta-6-7`, `reversedelta-7-6` or
/// `announced.version`.
pub fn name_text(alloc: Global, name: &BlobName) -> Result<String, AllocError>
    ensures text { IfOk result (λ text. string_bytes text ≡ text_of_name name.now) }
{
    match *name {
        BlobName::Snapshot(version) => format!(in alloc; "snapshot-{version}"),
        BlobName::Delta(from, to) => format!(in alloc; "delta-{from}-{to}"),
        BlobName::Reverse(from, to) => format!(in alloc; "reversedelta-{from}-{to}"),
        BlobName::Announced => String::from_str(alloc, "announced.version"),
    }
}

/// The name that a text is of, or `None` exactly where it is of none.
#[tactic(auto, using(crate::proofs::NameKinds::named, crate::proofs::NameKinds::unnamed))]
pub fn parse_name(text: &str) -> Option<BlobName>
    ensures named { (name : BlobName) → (result ≡ Some name) ↔ Names text.now name }
    ensures unnamed { (result ≡ None) ↔ ((name : BlobName) → ¬ Names text.now name) }
    ensures tells { TellsName text.now result }
{
    read_name(text)
}

// The name that a text is of, tried kind by kind; `None` exactly where it is of none.
#[tactic(auto, using(crate::proofs::NameKinds::kinds))]
fn read_name(text: &str) -> Option<BlobName>
    ensures { TellsName text.now result }
{
    if text == "announced.version" {
        return Some(BlobName::Announced);
    }
    if let Some(rest) = text_after(text, "snapshot-") {
        return Some(BlobName::Snapshot(parse_version(rest)?));
    }
    if let Some(rest) = text_after(text, "delta-") {
        let (from, to) = step(rest)?;
        return if from < to {
            Some(BlobName::Delta(from, to))
        } else {
            None
        };
    }
    if let Some(rest) = text_after(text, "reversedelta-") {
        let (from, to) = step(rest)?;
        return if to < from {
            Some(BlobName::Reverse(from, to))
        } else {
            None
        };
    }
    None
}

// What follows a text's front.
fn text_after<'a>(text: &'a str, front: &'a str) -> Option<&'a str>
    ensures { MatchOption result ((rest : List ℕ) → text.now ≢ front.now ++ rest)
        (λ rest. text.now ≡ front.now ++ rest.now) }
{
    text.strip_prefix(front)
}

// The first byte of a text, or 0.
fn first_byte(text: &str) -> u8
    ensures { result ≡ slice_index text.now 0 }
{
    match text.as_bytes() {
        [first, ..] => *first,
        [] => 0,
    }
}

/// The version that a text is, in decimal without leading zeros, or `None` exactly where it is that of no version: a
/// version is a number from 1 to 2^63 - 1.
#[tactic(auto, using(crate::proofs::Texts::version_first))]
pub fn parse_version(text: &str) -> Option<u64>
    ensures { TellsVersion text.now result }
{
    if first_byte(text) < b'1' {
        return None;
    }
    let version = text.parse::<u64>().ok()?;
    if version < 1 << 63 {
        Some(version)
    } else {
        None
    }
}

// Two versions with a dash between them.
fn step(text: &str) -> Option<(u64, u64)>
    ensures { TellsStep text.now result }
{
    let (from, to) = text.split_once('-')?;
    let from = parse_version(from)?;
    let to = parse_version(to)?;
    Some((from, to))
}
