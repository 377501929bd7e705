//! The value of a field, put behind what stands already.
ghost use Rattle.std.specs.Prelude.{◌≡◌, ◌++◌, decimal, length, take, OnOk, OnErr};
ghost use Rattle.std.specs.Fmt.{signed_decimal};
ghost use Rattle.json_rows.specs.RowLine.{PutsAll};
ghost use Rattle.json_rows.specs.StoredRow.{IsValueData};

use crate::digits::put_few;
use crate::leaf_value;
use crate::plain::{is_plain, put_plain};
use row_model::Value;
use std::alloc::{AllocError, Global};

// The value of a field.
pub(crate) fn put_value(alloc: Global, value: &Value, out: &mut Vec<u8>) -> Result<(), AllocError>
    ensures put { OnOk result (PutsAll (IsValueData value.now) out.old.items out.new.items) }
    ensures front { take (length out.old.items) out.new.items ≡ out.old.items }
{
    match value {
        Value::Null => out.extend_from_slice(b"null"),
        Value::Int(number) => put_signed(i64::from(*number), out),
        Value::Long(number) => put_signed(*number, out),
        Value::Bool(true) => out.extend_from_slice(b"true"),
        Value::Bool(false) => out.extend_from_slice(b"false"),
        Value::Text(units) if is_plain(units.as_slice()) => put_plain(units.as_slice(), out),
        Value::Text(_) | Value::Bytes(_) => put_leaf(alloc, value, out),
        Value::Ref(ordinal) => put_unsigned(u64::from(*ordinal), out),
    }
}

// Any value, by its JSON value.
fn put_leaf(alloc: Global, value: &Value, out: &mut Vec<u8>) -> Result<(), AllocError>
    ensures put { OnOk result (PutsAll (IsValueData value.now) out.old.items out.new.items) }
    ensures front { take (length out.old.items) out.new.items ≡ out.old.items }
{
    let text = leaf_value(alloc, value)?.to_vec(alloc)?;
    out.extend_from_slice(text.as_slice())
}

// The digits of a number.
#[inline(always)]
pub(crate) fn put_unsigned(number: u64, out: &mut Vec<u8>) -> Result<(), AllocError>
    ensures put { OnOk result (out.new.items ≡ out.old.items ++ decimal number) }
    ensures err { OnErr result (out.new.items ≡ out.old.items) }
{
    if number < 100_000_000 {
        out.reserve(8)?;
        put_few(number, out);
        return Ok(());
    }
    out.extend_from_slice(itoa::Buffer::new().format(number).as_bytes())
}

// The digits of a number, behind its sign where it is negative.
#[inline(always)]
pub(crate) fn put_signed(number: i64, out: &mut Vec<u8>) -> Result<(), AllocError>
    ensures put { OnOk result (out.new.items ≡ out.old.items ++ signed_decimal number) }
    ensures err { OnErr result (out.new.items ≡ out.old.items) }
{
    if number >= 0 {
        return put_unsigned(number.unsigned_abs(), out);
    }
    out.extend_from_slice(itoa::Buffer::new().format(number).as_bytes())
}
