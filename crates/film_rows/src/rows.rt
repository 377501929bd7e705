//! The rows of a film.
ghost use Rattle.std.specs.Prelude.{◌≡◌, ◌≤◌, IfOk, pos};
ghost use Rattle.film_script.specs.Films.{film_year};
ghost use Rattle.film_rows.specs.Rows.{film_row as row_of_film, text_row as row_of_text};
ghost use Rattle.row_model.specs.Row.{IsRowInRange};

use hol_varint::units_of;
use row_model::{Row, Value, Values};
use std::alloc::{AllocError, Global};

/// The Text of a letter and a number.
pub(crate) fn text_row(alloc: Global, letter: &str, number: u32) -> Result<Row, AllocError>
    ensures row { IfOk result (λ row. row ≡ row_of_text letter.now number) }
    ensures range { IfOk result IsRowInRange }
{
    let text = format!(in alloc; "{letter}{number}")?;
    let mut values = Values::with_capacity(alloc, 1)?;
    values.push(Value::Text(units_of(alloc, text.as_str())?))?;
    Ok(Row::Object(values))
}

/// The Film at a place in a cycle, whose title and tags stand under these ordinals.
pub(crate) fn film_row(
    alloc: Global,
    seed: u32,
    cycle: u32,
    place: u32,
    title: u32,
    tags: u32,
) -> Result<Row, AllocError>
    requires seed { seed ≤ 1000000 }
    requires cycle { cycle ≤ 1000000 }
    requires place { place ≤ 1000000 }
    ensures row { IfOk result (λ row. row ≡ row_of_film seed cycle place title tags) }
    ensures range { IfOk result IsRowInRange }
{
    let mut values = Values::with_capacity(alloc, 4)?;
    values.push(Value::Int(place as i32))?;
    values.push(Value::Ref(title))?;
    values.push(Value::Int(year(seed, cycle, place)))?;
    values.push(Value::Ref(tags))?;
    Ok(Row::Object(values))
}

fn year(seed: u32, cycle: u32, place: u32) -> i32
    requires seed { seed ≤ 1000000 }
    requires cycle { cycle ≤ 1000000 }
    requires place { place ≤ 1000000 }
    ensures { result ≡ pos (film_year seed cycle place) }
{
    1900 + ((seed + place + (cycle + place) / 5) % 100) as i32
}
