//! Laws of the syntax of a blob: at each place of a blob each part stands in one way or is stuck at one item, so what the
//! readers answer is the only answer that the bytes allow; and what is written is read as what it was.
ghost use Rattle.std.specs.Prelude.{◌≤◌, ◌^◌, ◌+◌, ◌++◌, ℕ, ℤ, List, [], All, FitsSigned, length};
ghost use Rattle.std.specs.Int.{Width, w64};
ghost use Rattle.std.specs.Str.{IsUtf8};
ghost use Rattle.schema_model.specs.declared.schema.Schema.{Schema};
ghost use Rattle.schema_model.specs.Schema.{schema_bytes, EachName, IsSpellable};
ghost use Rattle.blob_grammar.specs.Decided.{EachPlace, IsDecided};
ghost use Rattle.blob_frame.specs.Item.{fixed, signed, varint, name, run, skipped, end};
ghost use Rattle.blob_frame.specs.SchemaForm.{schema, schemas};
ghost use Rattle.blob_frame.specs.Header.{header};
ghost use Rattle.blob_frame.specs.Written.{schema_list_bytes, header_bytes};

/// At each place of a blob at most one item of a kind stands, reading it is stuck for one reason, and never both.
pub fn one_item()
    ensures number { (width : Width) → IsDecided (fixed width).Stands (fixed width).Stuck }
    ensures signed { IsDecided signed.Stands signed.Stuck }
    ensures varint { (limit : ℕ) → IsDecided (varint limit).Stands (varint limit).Stuck }
    ensures name { IsDecided name.Stands name.Stuck }
    ensures run { (count : ℕ) → IsDecided (run count).Stands (run count).Stuck }
    ensures skipped { (count : ℕ) → IsDecided (skipped count).Stands (skipped count).Stuck }
    ensures end { IsDecided end.Stands end.Stuck }
{}

/// At each place of a blob at most one schema stands, reading it is stuck at one place at most and for one
/// reason, and never both; so it is with a list of schemas.
pub fn one_schema()
    ensures schema { IsDecided schema.Stands schema.Stuck }
    ensures schemas { IsDecided schemas.Stands schemas.Stuck }
{}

/// A blob has one header at most, reading it is stuck at one place at most and for one reason, and never both.
pub fn one_header()
    ensures { IsDecided header.Stands header.Stuck }
{}

/// At each place of each blob an item of each kind, a schema and a header stand, or reading them is stuck.
pub fn each_place()
    ensures number { (width : Width) → EachPlace (fixed width).Stands (fixed width).Stuck }
    ensures signed { EachPlace signed.Stands signed.Stuck }
    ensures varint { (limit : ℕ) → EachPlace (varint limit).Stands (varint limit).Stuck }
    ensures name { EachPlace name.Stands name.Stuck }
    ensures run { (count : ℕ) → EachPlace (run count).Stands (run count).Stuck }
    ensures skipped { (count : ℕ) → EachPlace (skipped count).Stands (skipped count).Stuck }
    ensures end { EachPlace end.Stands end.Stuck }
    ensures schema { EachPlace schema.Stands schema.Stuck }
    ensures schemas { EachPlace schemas.Stands schemas.Stuck }
    ensures header { EachPlace header.Stands header.Stuck }
{}

/// The bytes that are written of a schema are read as it, wherever they stand.
pub fn written_schema()
    ensures { (written : Schema) (before behind : List ℕ) → IsSpellable written → EachName IsUtf8 written
        → schema.Stands (before ++ schema_bytes written ++ behind) (length before) written (length before + length (schema_bytes written)) }
{}

/// The bytes that are written of a header are read as one with its tags and its schemas and no pairs of texts, wherever
/// they stand.
pub fn written_header()
    ensures { (origin destination : ℤ) (listed : List Schema) (before behind : List ℕ) → FitsSigned w64 origin → FitsSigned w64 destination
        → length listed ≤ 512 → All IsSpellable listed → All (EachName IsUtf8) listed → length (schema_list_bytes listed) ≤ 2 ^ 28
        → header.Stands (before ++ header_bytes origin destination listed ++ behind) (length before)
        (record { origin = origin; destination = destination; schemas = listed; tags = [] })
        (length before + length (header_bytes origin destination listed)) }
{}
