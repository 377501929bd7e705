//! Films are added to a producer row by row.
ghost use Rattle.std.specs.Prelude.{◌≡◌, ◌≤◌, ◌<◌, ◌*◌, ◌%◌, IfOk, None, codes, replicate};
ghost use Rattle.film_script.specs.Films.{film as film_of, film_tags, film_type};
ghost use Rattle.film_rows.specs.Known.{AreReady, AreTags, HasGrown, IsFilming, IsUnknown, TellsAdded};
ghost use Rattle.film_rows.specs.Rows.{tags_type, text_row as row_of_text, text_type};
ghost use Rattle.row_model.specs.Table.{IsLive};
ghost use Rattle.write_engine.specs.RowPuts.{TellsRowPut};

use crate::rows::{film_row, text_row};
use film_script::{FILM_TYPE, TAGS_TYPE, TEXT_TYPE};
use ordinal_map::PutRowFault;
use row_model::Row;
use std::alloc::{AllocError, Global};
use write_engine::{Producer, set_of};

/// Where the rows stand that the films of a cycle share, as far as they were put: the titles by their numbers, and the tags of a film by theirs.
#[derive(Drop)]
pub struct FilmRows {
    titles: Vec<Option<u32>>,
    tags: Vec<Option<u32>>,
}

impl FilmRows {
    /// No row was put so far.
    pub fn new(alloc: Global) -> Result<FilmRows, AllocError>
        ensures { IfOk result IsUnknown }
    {
        Ok(FilmRows {
            titles: unknown(alloc, 1000)?,
            tags: unknown(alloc, 15)?,
        })
    }

    /// Adds a film to a producer, with its title and its tags, and gives the ordinal of its row. A row that was put before is not made again.
    ///
    /// `TooMany` comes where a row of the film would get the ordinal 2^22.
    pub fn add(
        &mut self,
        alloc: Global,
        producer: &mut Producer,
        seed: u32,
        cycle: u32,
        place: u32,
    ) -> Result<u32, PutRowFault>
        requires ready { AreReady self.old producer.old }
        requires seed { seed ≤ 1000000 }
        requires cycle { cycle ≤ 1000000 }
        requires place { place ≤ 1000000 }
        ensures tells { TellsAdded producer.old.previous film_type (film_of seed cycle place) producer.old.current result producer.new.current }
        ensures kept { producer.new ≡ record producer.old { current = producer.new.current } }
        ensures ready { IfOk result (λ _. AreReady self.new producer.new) }
    {
        let number = (u64::from(place) * u64::from(seed) % 1000) as u32;
        let title = self.put_title(alloc, producer, number)?;
        let tags = self.put_tags(alloc, producer, place)?;
        let row = film_row(alloc, seed, cycle, place, title, tags)?;
        producer.put_row(FILM_TYPE, row)
    }

    // Puts the title of a number, unless it was put before.
    fn put_title(
        &mut self,
        alloc: Global,
        producer: &mut Producer,
        number: u32,
    ) -> Result<u32, PutRowFault>
        requires ready { AreReady self.old producer.old }
        requires number { number < 1000 }
        ensures tells { TellsRowPut producer.old.previous text_type (row_of_text (codes "t") number) producer.old.current result producer.new.current }
        ensures kept { producer.new ≡ record producer.old { current = producer.new.current } }
        ensures ready { IfOk result (λ _. AreReady self.new producer.new) }
    {
        if let Some(ordinal) = self.titles[number as usize] {
            return Ok(ordinal);
        }
        let ordinal = put_text(alloc, producer, "t", number)?;
        self.titles[number as usize] = Some(ordinal);
        Ok(ordinal)
    }

    // Puts the tags of a film, unless they were put before.
    fn put_tags(
        &mut self,
        alloc: Global,
        producer: &mut Producer,
        place: u32,
    ) -> Result<u32, PutRowFault>
        requires ready { AreReady self.old producer.old }
        ensures tells { TellsAdded producer.old.previous tags_type (film_tags place) producer.old.current result producer.new.current }
        ensures kept { producer.new ≡ record producer.old { current = producer.new.current } }
        ensures ready { IfOk result (λ _. AreReady self.new producer.new) }
        ensures grown { IfOk result (λ _. HasGrown producer.old producer.new) }
        ensures live { IfOk result (IsLive producer.new.current tags_type) }
    {
        let number = (place % 3 * 5 + place % 5) as usize;
        if let Some(ordinal) = self.tags[number] {
            return Ok(ordinal);
        }
        let ordinal = put_tag_set(alloc, producer, place)?;
        self.tags[number] = Some(ordinal);
        Ok(ordinal)
    }
}

// So many rows of which none was put.
fn unknown(alloc: Global, count: usize) -> Result<Vec<Option<u32>>, AllocError>
    ensures { IfOk result (λ rows. rows.items ≡ replicate count None) }
{
    vec![in alloc; None; count]
}

// Puts the Text of a letter and a number.
fn put_text(
    alloc: Global,
    producer: &mut Producer,
    letter: &str,
    number: u32,
) -> Result<u32, PutRowFault>
    requires filming { IsFilming producer.old }
    ensures tells { TellsRowPut producer.old.previous text_type (row_of_text letter.now number) producer.old.current result producer.new.current }
    ensures kept { producer.new ≡ record producer.old { current = producer.new.current } }
{
    let row = text_row(alloc, letter, number)?;
    producer.put_row(TEXT_TYPE, row)
}

// Puts the tags of a film: their Texts, and the set of them.
fn put_tag_set(alloc: Global, producer: &mut Producer, place: u32) -> Result<u32, PutRowFault>
    requires filming { IsFilming producer.old }
    ensures tells { TellsAdded producer.old.previous tags_type (film_tags place) producer.old.current result producer.new.current }
    ensures kept { producer.new ≡ record producer.old { current = producer.new.current } }
    ensures grown { IfOk result (λ _. HasGrown producer.old producer.new) }
    ensures tags { IfOk result (AreTags producer.new.current place) }
{
    let first = put_text(alloc, producer, "g", place % 3)?;
    let second = put_text(alloc, producer, "g", place % 5)?;
    let members = set_of(alloc, &[first, second])?;
    producer.put_row(TAGS_TYPE, Row::Set(members))
}
