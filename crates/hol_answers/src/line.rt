//! Lines of JSON.
ghost use Rattle.std.specs.Prelude.{◌≡◌, ◌++◌, ◌∷◌, [], false, OnOk, OnErr};
ghost use Rattle.serde_json.specs.View.{view};
ghost use Rattle.serde_json.specs.Written.{has_float, compact_text};

use serde_json::Value;
use std::alloc::{AllocError, Global};

/// Appends the line of a value that has no number with a fraction or an exponent: its JSON text without spaces, the
/// members of objects in byte order of their names, and a newline. Where memory is refused `out` stays as it was.
pub fn put_line(alloc: Global, out: &mut Vec<u8>, line: &Value) -> Result<(), AllocError>
    requires { has_float (view line.now) ≡ false }
    ensures put { OnOk result (out.new.items ≡ out.old.items ++ (compact_text (view line.now) ++ 10 ∷ [])) }
    ensures err { OnErr result (out.new.items ≡ out.old.items) }
{
    let mut text = line.to_string(alloc)?;
    text.push('\n')?;
    out.extend_from_slice(text.as_bytes())
}
