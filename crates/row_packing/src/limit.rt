//! The limits on a type, as a cycle tries them.
ghost use Rattle.std.specs.Prelude.{◌≡◌, ◌<◌, ℕ, List};
ghost use Rattle.schema_model.specs.declared.limit.Limit.TheVariants.{Ordinals};
ghost use Rattle.schema_model.specs.Limit.{number_of_limit};
ghost use Rattle.row_model.specs.declared.row.Row.{Row};
ghost use Rattle.row_model.specs.Table.{Table};
ghost use Rattle.type_rows.specs.Layout.{item_count, fixed_words};
ghost use Rattle.row_packing.specs.Chosen.{IsLiveInEither};
ghost use Rattle.row_packing.specs.Measured.{IsMeasured};
ghost use Rattle.row_packing.specs.Places.{Agree};
ghost use Rattle.row_packing.specs.TypeLimit.{TellsLimit};

use crate::chosen::Chosen;
use crate::measured::{Held, Measured};
use schema_model::{Limit, MAX_BYTES, MAX_ITEMS, MAX_WORDS, Shape};
use type_rows::fixed_words;

/// The first of the limits on items, bytes and words that a type passes in an old and a new state, none where it keeps them, by what was measured of it.
///
/// `Items` are the elements or buckets of the rows of both states, a row that both have counted once. `Bytes` are the variable bytes of each
/// state, and `Words` the fixed words of each, laid out by what `choose` answers. The states have one model and agree on the ordinals that both
/// have live, and these keep their limit.
pub fn limit_of(shape: &Shape, measured: &Measured) -> Option<Limit>
    ensures { (old new : Table) (type_index : ℕ) → Agree old new type_index → ((ordinal : ℕ) → IsLiveInEither old new type_index ordinal → ordinal < number_of_limit Ordinals)
        → IsMeasured shape.now old new type_index measured.now → TellsLimit shape.now old new type_index result }
{
    if measured.chosen.total > MAX_ITEMS {
        return Some(Limit::Items);
    }
    if measured.old.bytes.max(measured.new.bytes) > MAX_BYTES {
        return Some(Limit::Bytes);
    }
    let old_words = words(shape, &measured.chosen, measured.old);
    let new_words = words(shape, &measured.chosen, measured.new);
    if old_words.max(new_words) > u128::from(MAX_WORDS) {
        return Some(Limit::Words);
    }
    None
}

// How many fixed words the rows of a state have that hold this, laid out as it was chosen.
fn words(shape: &Shape, chosen: &Chosen, held: Held) -> u128
    ensures { (rows : List Row) → held.items ≡ item_count rows → result ≡ fixed_words shape.now (record { max = chosen.now.max; widths = chosen.now.widths }) rows }
{
    fixed_words(shape, chosen.max, chosen.widths.as_slice(), held.items)
}
