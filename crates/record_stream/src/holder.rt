//! The orders whose records can be read from their line one by one.
ghost use Rattle.std.specs.Prelude.{◌≡◌};
ghost use Rattle.record_stream.specs.Holder.{other_name, records_name, word};

/// An order whose records can be read from its line one by one.
#[derive(Clone, Copy, Debug, PartialEq, Eq)]
pub(crate) enum Holder {
    /// A cycle, with the records that it adds.
    Cycle,
    /// A change, with the records that it puts.
    Change,
}

impl Holder {
    /// The word of the order.
    pub(crate) fn word(self) -> &'static str
        ensures { result.now ≡ word self }
    {
        match self {
            Holder::Cycle => "cycle",
            Holder::Change => "change",
        }
    }

    /// The name of the member under which its records are.
    pub(crate) fn records_name(self) -> &'static str
        ensures { result.now ≡ records_name self }
    {
        match self {
            Holder::Cycle => "add",
            Holder::Change => "put",
        }
    }

    /// The name of its member beside the records, the tag and the version.
    pub(crate) fn other_name(self) -> &'static str
        ensures { result.now ≡ other_name self }
    {
        match self {
            Holder::Cycle => "snapshot",
            Holder::Change => "remove",
        }
    }
}
