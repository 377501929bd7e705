//! Laws of answers.
ghost use Rattle.std.specs.Prelude.{◌≡◌, ℕ, List, Bool, IfSome};
ghost use Rattle.hol_io.specs.Store.{HoldsBytes, Store};
ghost use Rattle.serde_json.specs.Data.{Data};
ghost use Rattle.serde_json.specs.View.{view};
ghost use Rattle.serde_json.specs.declared.value.Value.{Value};
ghost use Rattle.schema_model.specs.declared.schema.Schema.{Schema};
ghost use Rattle.schema_model.specs.Model.{IsModel};
ghost use Rattle.row_model.specs.Table.{IsClosed, IsLive, IsTableOf, Table};
ghost use Rattle.row_model.specs.Unfold.{unfold_row};
ghost use Rattle.record_json.specs.PrintTree.{PrintsTree};
ghost use Rattle.read_engine.specs.Position.{rows_now};
ghost use Rattle.hol_orders.specs.declared.order.Order.{Order};
ghost use Rattle.hol_orders.specs.Order.{IsOrder, kind_of};
ghost use Rattle.hol_answers.specs.declared.reply.Reply.{Reply};
ghost use Rattle.hollow_machine.specs.MakeCommand.{Makes};
ghost use Rattle.hollow_machine.specs.Script.{LineStep, Script};
ghost use Rattle.hollow_machine.specs.State.{Machine};
ghost use Rattle.answer_laws.specs.Answered.{IsAnswered, IsSettled, IsShowing, IsSound};
ghost use Rattle.answer_laws.specs.Limits.{HasLimitedRows};
ghost use Rattle.answer_laws.specs.Ranges.{HasByteRows, HasRanges, ReadsBack};
ghost use Rattle.answer_laws.specs.Scripts.{PutsBytes};
ghost use Rattle.answer_laws.specs.Shown.{HasJson, HasWhole, IsShown};
ghost use Rattle.answer_laws.specs.Storable.{HasStorableRows, IsStorable, PrintsStorable};

/// That an order has no answer of a sound machine cannot be, whatever it asks for; and if it shows records, where these can be shown.
pub fn some_answer()
    ensures told { (machine : Machine) (order : Order) → IsSound machine → IsOrder order → IsSettled (kind_of order) → IsAnswered machine order }
    ensures shown { (machine : Machine) (order : Order) → IsShown machine → IsShowing (kind_of order) → IsAnswered machine order }
{}

/// That a line has no answer of a sound machine, of which the records can be shown, cannot be.
pub fn some_line()
    ensures { (machine : Machine) (line : List ℕ) → IsSound machine → IsShown machine
        → ((reply : Reply) (next : Machine) → LineStep machine line reply next → ⊥) → ⊥ }
{}

/// What a line puts of a sound machine are bytes, and the machine behind the line is sound.
pub fn line_keeps_sound()
    ensures puts { (machine : Machine) (line : List ℕ) → IsSound machine → PutsBytes line machine }
    ensures sound { (machine next : Machine) (line : List ℕ) (reply : Reply) → IsSound machine → LineStep machine line reply next → IsSound next }
{}

/// Where the tables of a machine are closed ones of the consumer's model, those behind a line are; and its records can be shown, where what they print as can be
/// held by a value.
pub fn line_keeps_whole()
    ensures keeps { (machine next : Machine) (line : List ℕ) (reply : Reply) → HasWhole machine → LineStep machine line reply next → HasWhole next }
    ensures shown { (machine : Machine) → HasWhole machine → HasStorableRows machine → IsShown machine }
{}

/// What the rows of a consumer hold in BYTES are bytes behind a line of a sound machine, where so it was. Where the tables of a machine are closed ones too, all
/// values of their rows are in range, so that what the record of a row of the consumer's state prints as is read back as that record.
pub fn line_keeps_bytes()
    ensures keeps { (machine next : Machine) (line : List ℕ) (reply : Reply) → IsSound machine → HasByteRows machine → LineStep machine line reply next → HasByteRows next }
    ensures ranges { (machine : Machine) → HasWhole machine → HasByteRows machine → HasRanges machine }
    ensures reads { (machine : Machine) → HasWhole machine → HasByteRows machine → IfSome machine.consumer (λ now. ReadsBack now.schemas (rows_now now)) }
{}

/// The rows of a consumer are within the limits of a state behind a line of a sound machine, and the names of its model are texts, where so it was. Where the
/// tables of a machine are closed ones too, what its records print as can be held by a value.
pub fn line_keeps_limits()
    ensures keeps { (machine next : Machine) (line : List ℕ) (reply : Reply) → IsSound machine → HasLimitedRows machine → LineStep machine line reply next → HasLimitedRows next }
    ensures storable { (machine : Machine) → HasWhole machine → HasLimitedRows machine → HasStorableRows machine }
{}

/// Data whose strings and names are texts, whose numbers have no fractions, and of which no array and no string is longer than a `Vec` can be, are those of a
/// value of serde_json.
pub fn some_value()
    ensures { (datum : Data) → IsStorable datum → (json : Value) × (view json ≡ datum) }
{}

/// That a script has no text and verdict and leaves no machine cannot be, where the machine is sound, its tables are closed, and its rows are within
/// the limits at the begin, as a machine without a consumer is.
pub fn some_script()
    ensures { (machine : Machine) (lines : List (List ℕ)) → IsSound machine → HasWhole machine → HasLimitedRows machine
        → ((text : List ℕ) (refused : Bool) (next : Machine) → Script machine lines text refused next → ⊥) → ⊥ }
{}

/// That the command `make` has no answer over a store of bytes cannot be.
pub fn some_make()
    ensures { (store : Store) (seed rows cycles : ℕ) → HoldsBytes store → ((reply : Reply) (next : Machine) → Makes store seed rows cycles reply next → ⊥) → ⊥ }
{}

/// That the record of a live row of a closed table prints as no JSON cannot be; so that it has JSON where what it prints as can be held by a value.
pub fn some_print()
    ensures prints { (schemas : List Schema) (table : Table) → IsModel schemas → IsTableOf schemas table → IsClosed schemas table → (type_index ordinal : ℕ) → IsLive table type_index ordinal
        → ((printed : Data) → PrintsTree schemas type_index (unfold_row schemas table type_index ordinal) printed → ⊥) → ⊥ }
    ensures json { (schemas : List Schema) (table : Table) → IsModel schemas → IsTableOf schemas table → IsClosed schemas table → PrintsStorable schemas table
        → HasJson schemas table }
{}
