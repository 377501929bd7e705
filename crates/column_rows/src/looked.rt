//! Which rows of a type are looked at.

/// Which rows of a type are looked at: all, or those under some ordinals.
#[derive(Clone, Copy)]
pub(crate) enum Looked<'a> {
    /// All: each ordinal below the bound of the type is gone through.
    All,
    /// Those under these ordinals, where there are such.
    At(&'a [u32]),
}

impl Looked<'_> {
    ghost use Rattle.std.specs.Prelude.{ℕ, ◌≡◌, ◌<◌};
    ghost use Rattle.column_rows.specs.Looked.{count_of, ordinal_of, IsIndex};

    /// How many ordinals are gone through, in a type of this bound.
    #[inline(always)]
    pub(crate) fn count(self, bound: u32) -> usize
        ensures count { result ≡ count_of self.entry bound }
        ensures each { (index : ℕ) → index < result → IsIndex self.entry index }
    {
        match self {
            Looked::All => bound as usize,
            Looked::At(ordinals) => ordinals.len(),
        }
    }

    /// The ordinal at an index, which is below `count`.
    #[inline(always)]
    pub(crate) fn ordinal(self, index: usize) -> u32
        requires { IsIndex self index }
        ensures { result ≡ ordinal_of self.entry index }
    {
        match self {
            Looked::All => index as u32,
            Looked::At(ordinals) => ordinals[index],
        }
    }
}
