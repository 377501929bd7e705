//! The films of a cycle are added to the producer one by one, row by row.
ghost use Rattle.std.specs.Prelude.{◌≡◌, ◌≤◌, IfOk, false};
ghost use Rattle.film_rows.specs.Known.{AreReady};
ghost use Rattle.film_script.specs.Films.{film_schemas, films};
ghost use Rattle.row_model.specs.Table.{Table};
ghost use Rattle.write_engine.specs.Cycle.{AddsRecords};
ghost use Rattle.hol_answers.specs.declared.refusal.Refusal.TheVariants as refusal;
ghost use Rattle.schema_model.specs.declared.limit.Limit.TheVariants as limit;
ghost use Rattle.hollow_machine.specs.Kept.{IsResting};
ghost use Rattle.hollow_machine.specs.Records.{given};
ghost use Rattle.state_blobs.specs.Published.{published_of};
ghost use Rattle.producer_orders.specs.Asked.{IsFilmCycle, film_at};
ghost use Rattle.producer_orders.specs.Ends.{IsMemory, TellsEnd};
ghost use Rattle.producer_orders.specs.Making.{AreRefused, AreTaken};

use crate::asked::FilmCycle;
use crate::cycle_end::CycleEnd;
use film_rows::FilmRows;
use film_script::{FILM_TYPE, is_shown};
use hol_answers::Refusal;
use hol_orders::OrderStop;
use ordinal_map::PutRowFault;
use schema_model::Limit;
use std::alloc::{AllocError, Global};
use write_engine::Producer;

// So many films have room made for their links before they come: 6 MB at most. That of more is made as they come.
const MOST_RESERVED: u32 = 0x4_0000;

/// Adds the films that a cycle shows, one by one, behind room for them. It is refused where they are too many.
pub(crate) fn take_films(
    alloc: Global,
    producer: &mut Producer,
    script: FilmCycle,
) -> Result<(), CycleEnd>
    requires resting { IsResting producer.old }
    requires model { producer.old.schemas ≡ film_schemas }
    requires script { IsFilmCycle script }
    ensures tells { TellsEnd (λ _. AreTaken (published_of producer.old) (given (films script.seed script.rows script.cycle)) producer.new.current)
        (AreRefused (published_of producer.old) (given (films script.seed script.rows script.cycle))) IsMemory result }
    ensures kept { producer.new ≡ record producer.old { current = producer.new.current } }
{
    make_room(producer, script.rows)?;
    add_films(alloc, producer, script)
}

// Makes room for the links of so many films. The producer stays as it is.
fn make_room(producer: &mut Producer, count: u32) -> Result<(), AllocError>
    requires { producer.old.schemas ≡ film_schemas }
    ensures { producer.new ≡ producer.old }
{
    producer.reserve(FILM_TYPE, count.min(MOST_RESERVED).saturating_sub(1))
}

// Adds the films that a cycle shows, one by one.
fn add_films(alloc: Global, producer: &mut Producer, script: FilmCycle) -> Result<(), CycleEnd>
    requires resting { IsResting producer.old }
    requires model { producer.old.schemas ≡ film_schemas }
    requires script { IsFilmCycle script }
    ensures tells { TellsEnd (λ _. AreTaken (published_of producer.old) (given (films script.seed script.rows script.cycle)) producer.new.current)
        (AreRefused (published_of producer.old) (given (films script.seed script.rows script.cycle))) IsMemory result }
    ensures kept { producer.new ≡ record producer.old { current = producer.new.current } }
{
    let _agreeing = producer.current();
    let mut rows = FilmRows::new(alloc)?;
    for place in 0..script.rows {
        add_film(alloc, producer, &mut rows, script, place)?;
    }
    Ok(())
}

// Adds a film behind others, where the cycle shows it. It is refused where no row can be made for it.
fn add_film(
    alloc: Global,
    producer: &mut Producer,
    rows: &mut FilmRows,
    script: FilmCycle,
    place: u32,
) -> Result<(), CycleEnd>
    requires model { producer.old.schemas ≡ film_schemas }
    requires open { producer.old.closed ≡ false }
    requires ready { AreReady rows.old producer.old }
    requires script { IsFilmCycle script }
    requires place { place ≤ 1000000 }
    ensures tells { TellsEnd (λ _. AddsRecords producer.old.schemas producer.old.previous (film_at script place) producer.old.current producer.new.current)
        (λ why. (why ≡ refusal.TooLarge limit.Ordinals)
        × ((after : Table) → ¬ AddsRecords producer.old.schemas producer.old.previous (film_at script place) producer.old.current after)) IsMemory result }
    ensures kept { producer.new ≡ record producer.old { current = producer.new.current } }
    ensures ready { IfOk result (λ _. AreReady rows.new producer.new) }
{
    if !is_shown(script.cycle, place) {
        return Ok(());
    }
    match rows.add(alloc, producer, script.seed, script.cycle, place) {
        Ok(_) => Ok(()),
        Err(PutRowFault::TooMany) => Err(CycleEnd::Refused(Refusal::TooLarge(Limit::Ordinals))),
        Err(PutRowFault::Memory) => Err(CycleEnd::Stopped(OrderStop::Memory)),
    }
}
