//! The records of a change are put.
ghost use Rattle.std.specs.Prelude.{◌≡◌, ◌++◌, ◌∷◌, ℕ, [], List, Err, OnOk, false, length};
ghost use Rattle.record_trees.specs.FitsTree.{FitsTree};
ghost use Rattle.record_trees.specs.Tree.{plain};
ghost use Rattle.row_model.specs.Table.{Table};
ghost use Rattle.write_engine.specs.Agreement.{TablesAgree};
ghost use Rattle.write_engine.specs.Cycle.{Adds};
ghost use Rattle.write_engine.specs.Soundness.{IsClosedTableOf};
ghost use Rattle.write_engine.specs.StoredRows.{AreStored};
ghost use Rattle.hol_incremental.specs.Changes.{AreFitting, records};
ghost use Rattle.hol_incremental.specs.Edited.{of_first, of_type};
ghost use Rattle.hol_incremental.specs.Tops.{AddsMore, AddsTops};

use crate::fault::ChangeFault;
use crate::row_set::RowSet;
use record_trees::Tree;
use row_model::Rows;
use write_engine::Producer;

/// Adds the records to the cycle, types in model order, and gathers their top rows. `TooMany` comes where a row of one would get the ordinal 2^22.
pub(crate) fn put_all(
    producer: &mut Producer,
    puts: &[(u32, Tree)],
    tops: &mut RowSet,
) -> Result<(), ChangeFault>
    requires fits { AreFitting producer.old.schemas (records puts.now) }
    requires open { producer.old.closed ≡ false }
    ensures added { OnOk result (AddsMore producer.old.schemas producer.old.previous (of_first (length producer.old.schemas) (records puts.now)) producer.old.current tops.old producer.new.current tops.new) }
    ensures too_many { result ≡ Err ChangeFault.TooMany → (rows : List (ℕ × ℕ)) (after : Table) → ¬ AddsTops producer.old.schemas producer.old.previous (of_first (length producer.old.schemas) (records puts.now)) producer.old.current rows after }
    ensures kept { producer.new ≡ record producer.old { current = producer.new.current } }
    ensures agree { TablesAgree producer.old.previous producer.old.current }
    ensures closed { IsClosedTableOf producer.old.schemas producer.old.current }
    ensures stored { AreStored producer.old.current }
{
    for type_index in 0..producer.current().model().len() {
        put_type(producer, type_index, puts, tops)?;
    }
    Ok(())
}

// Adds the records of a type to the cycle, in their order, and gathers their top rows. `TooMany` comes where a row of one would get the ordinal 2^22.
fn put_type(
    producer: &mut Producer,
    type_index: u32,
    puts: &[(u32, Tree)],
    tops: &mut RowSet,
) -> Result<(), ChangeFault>
    requires fits { AreFitting producer.old.schemas (records puts.now) }
    requires agree { TablesAgree producer.old.previous producer.old.current }
    requires open { producer.old.closed ≡ false }
    ensures added { OnOk result (AddsMore producer.old.schemas producer.old.previous (of_type type_index (records puts.now)) producer.old.current tops.old producer.new.current tops.new) }
    ensures too_many { result ≡ Err ChangeFault.TooMany → (rows : List (ℕ × ℕ)) (after : Table) → ¬ AddsTops producer.old.schemas producer.old.previous (of_type type_index (records puts.now)) producer.old.current rows after }
    ensures kept { producer.new ≡ record producer.old { current = producer.new.current } }
{
    for entry in puts {
        if entry.0 == type_index {
            put_one(producer, entry.0, &entry.1, tops)?;
        }
    }
    Ok(())
}

// Adds a record to the cycle, and gathers its top row. `TooMany` comes where a row of it would get the ordinal 2^22.
fn put_one(
    producer: &mut Producer,
    type_index: u32,
    tree: &Tree,
    tops: &mut RowSet,
) -> Result<(), ChangeFault>
    requires fits { FitsTree producer.old.schemas type_index (plain tree.now) }
    requires open { producer.old.closed ≡ false }
    ensures added { OnOk result ((ordinal : ℕ) × Adds producer.old.schemas producer.old.previous type_index (plain tree.now) producer.old.current ordinal producer.new.current × (tops.new ≡ tops.old ++ (type_index, ordinal) ∷ [])) }
    ensures too_many { result ≡ Err ChangeFault.TooMany → (ordinal : ℕ) (after : Table) → ¬ Adds producer.old.schemas producer.old.previous type_index (plain tree.now) producer.old.current ordinal after }
    ensures kept { producer.new ≡ record producer.old { current = producer.new.current } }
{
    let ordinal = producer.add(type_index, tree)?;
    tops.insert((type_index, ordinal))?;
    Ok(())
}
