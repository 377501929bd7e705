//! What a test of a place tells.
use schema_model::Reason;

/// What a test of a place tells that goes a limited way.
#[derive(Clone, Copy)]
pub enum Tested {
    /// The place spells a row.
    Spells,
    /// It spells none, for this reason.
    Fails(Reason),
    /// Its keys stand too far from where they are looked for, and the test ended before it knew.
    Far,
}
