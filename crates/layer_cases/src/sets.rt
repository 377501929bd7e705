//! Sets of ordinals: their members, runs of gaps that are written and populations.
use hol_varint::Ordinals;
use ordinal_set::{OrdinalSet, put_gaps};
use std::alloc::{AllocError, Global};

/// Tells of four members (`four`), which are looked up (`among`), of a population (`words`), of two sets (`two`), of a
/// run of gaps behind a byte (`gaps`), or of the population of no rows (`none`) or of one.
pub fn tell(out: &mut String, alloc: Global, word: &str) -> Result<(), AllocError> {
    match word {
        "four" | "among" => tell_four(out, alloc, word),
        "words" => tell_words(out, alloc),
        "two" => tell_two(out, alloc),
        "gaps" => tell_gaps(out, alloc),
        _ => tell_population(out, alloc, word),
    }
}

fn tell_four(out: &mut String, alloc: Global, word: &str) -> Result<(), AllocError> {
    let mut set = OrdinalSet::new(alloc);
    fill(&mut set)?;
    match word {
        "four" => tell_set(out, alloc, &set),
        _ => tell_among(out, alloc, &set),
    }
}

/// Puts in 3, 63, 64 and 200, of which one is put in twice.
fn fill(set: &mut OrdinalSet) -> Result<(), AllocError> {
    for member in [200, 3, 64, 3, 63] {
        set.insert(member)?;
    }
    Ok(())
}

/// The bound of a set, the members from 4, 65 and 201 on, and all members.
fn tell_set(out: &mut String, alloc: Global, set: &OrdinalSet) -> Result<(), AllocError> {
    let next = [set.next_from(4), set.next_from(65), set.next_from(201)];
    write!(out, "{} {next:?} ", set.bound())?;
    tell_members(out, alloc, set)
}

fn tell_members(out: &mut String, alloc: Global, set: &OrdinalSet) -> Result<(), AllocError> {
    write!(out, "{:?}", set.ordinals(alloc)?.as_slice())
}

/// Whether 63, 62 and the greatest number are in a set, and the bound of no members.
fn tell_among(out: &mut String, alloc: Global, set: &OrdinalSet) -> Result<(), AllocError> {
    let found = [set.contains(63), set.contains(62), set.contains(u32::MAX)];
    write!(out, "{found:?} {}", OrdinalSet::new(alloc).bound())
}

/// The members in three words.
fn tell_words(out: &mut String, alloc: Global) -> Result<(), AllocError> {
    let words = vec![in alloc; 3, 0, 1 << 63]?;
    tell_members(out, alloc, &OrdinalSet::from_words(words))
}

/// What is told of a first set and of a second one that has 65 and 66.
fn tell_two(out: &mut String, alloc: Global) -> Result<(), AllocError> {
    let mut set = OrdinalSet::from_words(vec![in alloc; u64::MAX, 0b1011]?);
    let other = OrdinalSet::from_words(vec![in alloc; 0, 0b0110]?);
    tell_least(out, &mut set, &other)?;
    tell_lacking(out, alloc, &mut set, &other)
}

/// The least number in neither of two sets, before and after 3 was removed from the first.
fn tell_least(
    out: &mut String,
    set: &mut OrdinalSet,
    other: &OrdinalSet,
) -> Result<(), AllocError> {
    let before = set.least_free(other);
    set.remove(3);
    set.remove(500);
    write!(out, "{before} {}", set.least_free(other))
}

/// The members of a set without another's, once it was cleared and has 66 and 70.
fn tell_lacking(
    out: &mut String,
    alloc: Global,
    set: &mut OrdinalSet,
    other: &OrdinalSet,
) -> Result<(), AllocError> {
    set.clear();
    set.insert(66)?;
    set.insert(70)?;
    write!(out, " {:?}", set.without(alloc, other)?.as_slice())
}

/// The run of 3, 4 and 300 behind a byte.
fn tell_gaps(out: &mut String, alloc: Global) -> Result<(), AllocError> {
    let mut bytes = vec![in alloc; 9]?;
    let list = Ordinals::from_vec(vec![in alloc; 3, 4, 300]?);
    put_gaps(&mut bytes, &list)?;
    write!(out, "{:?}", bytes.as_slice())
}

/// How many bytes a population has, and whether they begin with 512 words, of which the first has bit 1.
fn tell_population(out: &mut String, alloc: Global, word: &str) -> Result<(), AllocError> {
    let mut bytes = Vec::new(alloc);
    put_population(&mut bytes, alloc, word)?;
    let begins = bytes
        .as_slice()
        .starts_with(&[0, 0, 2, 0, 0, 0, 0, 0, 0, 0, 0, 2]);
    write!(out, "{} {begins}", bytes.len())
}

fn put_population(bytes: &mut Vec<u8>, alloc: Global, word: &str) -> Result<(), AllocError> {
    match word {
        "none" => OrdinalSet::new(alloc).put_population(bytes, None),
        _ => put_one(bytes, alloc),
    }
}

/// The population of a row under ordinal 1, the greatest having been 16384.
fn put_one(bytes: &mut Vec<u8>, alloc: Global) -> Result<(), AllocError> {
    let mut set = OrdinalSet::new(alloc);
    set.insert(1)?;
    set.put_population(bytes, Some(16384))
}

/// Sets, and what is told of them.
pub const SETS: &str = "four = 201 [Some(63), Some(200), None] [3, 63, 64, 200]
among = [true, false, false] 0
words = [0, 1, 191]
two = 68 3 [70]
gaps = [9, 3, 1, 130, 40]
none = 2052 false
one = 4100 true";
