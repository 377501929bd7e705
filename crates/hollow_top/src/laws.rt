//! Laws of the commands: words ask for one command, and a command writes one text and leaves one machine, and some text.
ghost use Rattle.std.specs.Prelude.{◌≡◌, ℕ, List, Bool, Option, map, string_bytes};
ghost use Rattle.hol_io.specs.declared.name.BlobName.{BlobName};
ghost use Rattle.hol_io.specs.Store.{Store};
ghost use Rattle.hollow_machine.specs.State.{Machine};
ghost use Rattle.hollow_top.specs.declared.words.Command.{Command};
ghost use Rattle.hollow_top.specs.Command.{HoldsBytes, Writes, WritesSome};
ghost use Rattle.hollow_top.specs.Words.{Asks};

use crate::words::command_of;

/// The words ask for one command at most.
pub fn one_command(words: &[String])
    ensures { (one other : Command) → Asks (map string_bytes words.now) one
        → Asks (map string_bytes words.now) other → one ≡ other }
{
    let _command = command_of(words);
}

/// Over an input and a store a command writes one text at most, with one verdict, and leaves one machine.
pub fn one_answer()
    ensures { (input : Option (List ℕ)) (store : Store) (command : Command) (one other : List ℕ) (refused also : Bool) (next after : Machine)
        → Writes input store command one refused next → Writes input store command other also after
        → (one ≡ other) × (refused ≡ also) × (next ≡ after) }
{
    snapshot_blob::laws::one_snapshot();
    snapshot_blob::laws::one_fault();
    json_rows::laws::one_row_value();
    chain_laws::laws::one_make();
    chain_laws::laws::one_script();
}

/// Over a store of bytes `head` writes some text; that `show` writes none cannot be.
pub fn some_answer()
    ensures head { (input : Option (List ℕ)) (store : Store) (blob : BlobName) → HoldsBytes store
        → WritesSome input store (Command.Head blob) }
    ensures show { (input : Option (List ℕ)) (store : Store) (version : ℕ) → HoldsBytes store
        → (WritesSome input store (Command.Show version) → ⊥) → ⊥ }
{
    blob_frame::laws::one_header();
    snapshot_blob::laws::some_fault();
    type_rows::laws::rows_fit();
}
