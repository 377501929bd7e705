//! Copies of lists, alone and as parts of others.
use hol_varint::{Duplicate, GapList, Octets, Ordinals};
use row_model::{Areas, Words};
use schema_model::{Name, NamePairs};
use std::alloc::{AllocError, Global};
use std::fmt::Debug;

/// Tells the copy of a list that was made with room, of an optional pair of lists, of areas, of words, or else of tags.
pub fn tell(out: &mut String, alloc: Global, word: &str) -> Result<(), AllocError> {
    match word {
        "list" => tell_list(out, alloc),
        "pair" => tell_pair(out, alloc),
        "areas" => tell_areas(out, alloc),
        "words" => tell_copy(out, alloc, &Words::from_vec(vec![in alloc; 9]?)),
        _ => tell_tags(out, alloc),
    }
}

/// Tells the copy of a value.
fn tell_copy<T: Duplicate + Debug>(
    out: &mut String,
    alloc: Global,
    value: &T,
) -> Result<(), AllocError> {
    write!(out, "{:?}", value.copy(alloc)?)
}

fn tell_list(out: &mut String, alloc: Global) -> Result<(), AllocError> {
    let mut list = Ordinals::with_capacity(alloc, 1)?;
    list.push(7)?;
    tell_copy(out, alloc, &list)
}

fn tell_pair(out: &mut String, alloc: Global) -> Result<(), AllocError> {
    let gaps = GapList::from_vec(vec![in alloc; 8]?);
    let bytes = Octets::from_vec(vec![in alloc; 9]?);
    tell_copy(out, alloc, &Some((gaps, bytes)))
}

fn tell_areas(out: &mut String, alloc: Global) -> Result<(), AllocError> {
    let mut areas = Areas::new(alloc);
    areas.push(Octets::from_vec(vec![in alloc; 7, 8]?))?;
    tell_copy(out, alloc, &areas)
}

fn tell_tags(out: &mut String, alloc: Global) -> Result<(), AllocError> {
    let mut tags = NamePairs::new(alloc);
    tags.push((Name::from_text(alloc, "k")?, Name::from_text(alloc, "k")?))?;
    tell_copy(out, alloc, &tags)
}

/// Values, and their copies.
pub const COPIES: &str = "list = List { items: [7] }
pair = Some((List { items: [8] }, List { items: [9] }))
areas = List { items: [List { items: [7, 8] }] }
words = List { items: [9] }
tags = List { items: [(Name { text: \"k\" }, Name { text: \"k\" })] }";
