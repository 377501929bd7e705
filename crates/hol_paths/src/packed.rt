//! The elements of a list that a walk goes through, read where they stand packed.
ghost use Rattle.std.specs.Prelude.{◌≡◌, ◌++◌, ◌<◌, ◌^◌, All, IfSome, OnOk};
ghost use Rattle.list_codec.specs.Elements.{elements_of};
ghost use Rattle.row_model.specs.Table.{IsLive, IsTableOf};
ghost use Rattle.hol_paths.specs.Packed.{IsPackedList};

use column_rows::ColumnRows;
use list_codec::Elements;
use row_model::Rows;
use std::alloc::AllocError;

/// The elements of the list under a live ordinal, if the lists of its type stand packed.
pub(crate) fn packed_list<R: ColumnRows>(
    rows: &R,
    type_index: u32,
    ordinal: u32,
) -> Option<Elements<'_>>
    requires fits { IsTableOf (R.schemas rows.now) (R.table rows.now) }
    requires live { IsLive (R.table rows.now) type_index ordinal }
    ensures { IfSome result (IsPackedList (R.table rows.now) type_index ordinal) }
{
    let lists = rows.lists(type_index)?;
    lists.elements(ordinal)
}

/// Adds elements that are ordinals.
pub(crate) fn push_elements(elements: &Elements<'_>, named: &mut Vec<u32>) -> Result<(), AllocError>
    requires { All (λ number. number < 2 ^ 32) (elements_of elements.now) }
    ensures { OnOk result (named.new.items ≡ named.old.items ++ elements_of elements.now) }
{
    for index in 0..elements.len {
        named.push(elements.element(index) as u32)?;
    }
    Ok(())
}
