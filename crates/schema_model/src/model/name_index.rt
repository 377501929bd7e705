//! Names by the first index at which they stand.
ghost use Rattle.std.specs.Prelude.{◌≡◌};
ghost use Rattle.std.specs.BTreeMap.{get_by_text};

use std::collections::BTreeMap;

/// For each name the first index at which it stands.
pub type NameIndex = BTreeMap<String, u32>;

/// The index of a name. It takes no memory.
pub fn find_name(index: &NameIndex, name: &str) -> Option<u32>
    ensures { result ≡ get_by_text index.now name.now }
{
    index.get(name).copied()
}
