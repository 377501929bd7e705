//! Laws of the definitions that the readers and writers meet: one spelling for each value, one value for each spelling,
//! none that begins another one, and what a part of the bytes tells of all of them.
ghost use Rattle.std.specs.Prelude.{◌≡◌, ℕ, ◌+◌, ◌*◌, ◌^◌, ◌<◌, ◌≤◌, ℤ, List, ◌++◌, take, drop, length};
ghost use Rattle.std.specs.Str.{IsUtf8};
ghost use Rattle.hol_varint.specs.Varint.{IsVarint, varint_bytes, VarStandsBelow, IsNullVar, IsLongVar};
ghost use Rattle.hol_varint.specs.Zigzag.{zigzag, unzigzag};
ghost use Rattle.hol_varint.specs.JavaUtf.{java_bytes, utf_bytes, UtfStandsAt, IsBadUtf};
ghost use Rattle.hol_varint.specs.TextUnits.{AreUnits, units_bytes, text_units, IsTextOf};

/// A number of variable length has one spelling, and a spelling one number; none begins another one.
pub fn one_varint()
    ensures spelled { (number : ℕ) → IsVarint (varint_bytes number) number }
    ensures only { (bytes : List ℕ) (number : ℕ) → IsVarint bytes number → bytes ≡ varint_bytes number }
    ensures apart { (a b x y : List ℕ) (m n : ℕ) → IsVarint a m → IsVarint b n → a ++ x ≡ b ++ y → (a ≡ b) × (m ≡ n) }
{}

/// The bytes at a place go on with a number's spelling exactly where it stands there.
pub fn standing_varint()
    ensures begins { (limit : ℕ) (bytes : List ℕ) (at number next : ℕ) → VarStandsBelow limit bytes at number next → drop at bytes ≡ varint_bytes number ++ drop next bytes }
    ensures stands { (limit : ℕ) (before behind : List ℕ) (number : ℕ) → number < limit → VarStandsBelow limit (before ++ varint_bytes number ++ behind) (length before) number (length (before ++ varint_bytes number)) }
{}

/// A signed number has one zigzag number, and a zigzag number one signed number.
pub fn one_zigzag()
    ensures back { (number : ℤ) → unzigzag (zigzag number) ≡ number }
    ensures forth { (number : ℕ) → zigzag (unzigzag number) ≡ number }
{}

/// A Java UTF text has one spelling, and a spelling one text; none begins another one.
pub fn one_utf()
    ensures { (us vs x y : List ℕ) → AreUnits us → AreUnits vs → utf_bytes us ++ x ≡ utf_bytes vs ++ y → (us ≡ vs) × (x ≡ y) }
{}

/// A unit takes at most three bytes in a Java UTF text.
pub fn utf_size()
    ensures { (units : List ℕ) → length (java_bytes units) ≤ 3 * length units }
{}

/// The bytes at a place go on with a text's spelling exactly where it stands there.
pub fn standing_utf()
    ensures begins { (bytes : List ℕ) (at : ℕ) (units : List ℕ) (next : ℕ) → UtfStandsAt bytes at units next → drop at bytes ≡ utf_bytes units ++ drop next bytes }
    ensures stands { (before behind units : List ℕ) → AreUnits units → length (java_bytes units) < 2 ^ 16 → UtfStandsAt (before ++ utf_bytes units ++ behind) (length before) units (length (before ++ utf_bytes units)) }
{}

/// The bytes of a STRING have one list of units, which has one spelling.
pub fn one_units()
    ensures { (us vs : List ℕ) → AreUnits us → AreUnits vs → units_bytes us ≡ units_bytes vs → us ≡ vs }
{}

/// At most one text has these units, and the units of a text are that.
pub fn one_text()
    ensures text { (units s t : List ℕ) → IsTextOf units s → IsTextOf units t → s ≡ t }
    ensures units { (text : List ℕ) → IsUtf8 text → AreUnits (text_units text) }
{}

/// What stands in a window, a part of the bytes from a place on, stands there in all of them.
pub fn windows()
    ensures varint { (window bytes : List ℕ) (at len : ℕ) → window ≡ take len (drop at bytes) → (limit number next : ℕ) → VarStandsBelow limit window 0 number next → VarStandsBelow limit bytes at number (at + next) }
    ensures null { (window bytes : List ℕ) (at len : ℕ) → window ≡ take len (drop at bytes) → IsNullVar window → IsNullVar (drop at bytes) }
    ensures long { (window bytes : List ℕ) (at len : ℕ) → window ≡ take len (drop at bytes) → (limit : ℕ) → IsLongVar limit window → IsLongVar limit (drop at bytes) }
    ensures utf { (window bytes : List ℕ) (at len : ℕ) → window ≡ take len (drop at bytes) → (units : List ℕ) (next : ℕ) → UtfStandsAt window 0 units next → UtfStandsAt bytes at units (at + next) }
    ensures bad { (window bytes : List ℕ) (at len : ℕ) → window ≡ take len (drop at bytes) → IsBadUtf window → IsBadUtf (drop at bytes) }
{}
