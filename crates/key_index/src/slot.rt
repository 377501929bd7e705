//! What stands under an ordinal.
use row_hash::values_hash;
use row_model::{Value, Values};
use std::slice;

/// What stands under an ordinal: nothing, a row without a key, or a row with its key. A key of one value stands in the slot itself.
#[derive(Drop)]
pub(crate) enum Slot {
    /// No row.
    Free,
    /// A row that has no key.
    Keyless,
    /// A row whose key is this value.
    One(Value),
    /// A row whose key is these values.
    More(Values),
}

impl Slot {
    ghost use Rattle.std.specs.Prelude.{◌≡◌, IfSome, Some, is_some, length};
    ghost use Rattle.std.specs.Option.{option_copied};
    ghost use Rattle.key_index.specs.SimpleKey.{key_of_value};
    ghost use Rattle.key_index.specs.Slots.{is_small, key_hash, key_in, row_key, slot_of};

    /// The slot of a row with its key, if it has one.
    pub(crate) fn of_row(key: Option<Values>) -> Slot
        ensures { row_key result ≡ Some key }
    {
        match key {
            Some(values) if values.len() == 1 => Slot::of_one(values),
            Some(values) => Slot::More(values),
            None => Slot::Keyless,
        }
    }

    /// The slot of a row whose key is this value, and which has none where it is null.
    pub(crate) fn of_value(value: Value) -> Slot
        ensures { row_key result ≡ Some (key_of_value value) }
    {
        match value {
            Value::Null => Slot::Keyless,
            value => Slot::One(value),
        }
    }

    // The slot of a row whose key has one value.
    fn of_one(key: Values) -> Slot
        requires { length key ≡ 1 }
        ensures { row_key result ≡ Some (Some key) }
    {
        let mut values = key.into_vec();
        match values.pop() {
            Some(value) => Slot::One(value),
            None => unreachable!(),
        }
    }

    /// The key of the row, if there is a row that has one.
    #[inline(always)]
    pub(crate) fn key(&self) -> Option<&[Value]>
        ensures { option_copied result ≡ key_in self.now }
    {
        match self {
            Slot::Free | Slot::Keyless => None,
            Slot::One(value) => Some(slice::from_ref(value)),
            Slot::More(values) => Some(values.as_slice()),
        }
    }

    /// The hash of the key of the row, if there is a row that has one.
    #[inline(always)]
    pub(crate) fn hash(&self) -> Option<u32>
        ensures { result ≡ key_hash (key_in self.now) }
    {
        match self.key() {
            Some(key) => Some(values_hash(key)),
            None => None,
        }
    }

    /// Whether a small slot has room for its key.
    pub(crate) fn is_small(&self) -> bool
        ensures { result ≡ is_small self.now }
    {
        self.small().is_some()
    }

    /// What stands under the ordinal, in a small slot; none where that has no room for its key.
    #[inline(always)]
    pub(crate) fn small(&self) -> Option<SmallSlot>
        ensures same { IfSome result (λ small. slot_of small ≡ self.now) }
        ensures fits { is_some result ≡ is_small self.now }
    {
        match self {
            Slot::Free => Some(SmallSlot::Free),
            Slot::Keyless => Some(SmallSlot::Keyless),
            Slot::One(Value::Int(number)) => Some(SmallSlot::Int(*number)),
            Slot::One(Value::Long(number)) => SmallSlot::of_long(*number),
            Slot::One(Value::Bool(flag)) => Some(SmallSlot::Bool(*flag)),
            Slot::One(Value::Ref(ordinal)) => Some(SmallSlot::Ref(*ordinal)),
            _ => None,
        }
    }
}

/// What stands under an ordinal, in the room for a number of 32 bits.
#[derive(Clone, Copy)]
pub(crate) enum SmallSlot {
    /// No row.
    Free,
    /// A row that has no key.
    Keyless,
    /// A row whose key is this value of an INT.
    Int(i32),
    /// A row whose key is this value of a LONG, which has 32 bits at most.
    Long(i32),
    /// A row whose key is this value of a BOOLEAN.
    Bool(bool),
    /// A row whose key is this ordinal, of a REFERENCE.
    Ref(u32),
}

impl SmallSlot {
    ghost use Rattle.std.specs.Prelude.{◌≡◌, ◌↔◌, ◌∷◌, [], IfSome, IsTrue, Some, is_some};
    ghost use Rattle.key_index.specs.Slots.{is_short, key_in, slot_of};
    ghost use Rattle.key_index.specs.declared.slot.Slot.TheVariants.{One};
    ghost use Rattle.row_model.specs.declared.row.Value.{Value as StoredValue};

    // The slot of a row whose key is this value of a LONG, where that has 32 bits at most.
    fn of_long(number: i64) -> Option<SmallSlot>
        ensures same { IfSome result (λ small. slot_of small ≡ One (StoredValue.Long number)) }
        ensures fits { is_some result ≡ is_short number }
    {
        match i32::try_from(number) {
            Ok(short) => Some(SmallSlot::Long(short)),
            Err(_) => None,
        }
    }

    /// What stands under the ordinal, in a slot for keys of any kind.
    pub(crate) fn large(self) -> Slot
        ensures { result ≡ slot_of self }
    {
        match self {
            SmallSlot::Free => Slot::Free,
            SmallSlot::Keyless => Slot::Keyless,
            SmallSlot::Int(number) => Slot::One(Value::Int(number)),
            SmallSlot::Long(number) => Slot::One(Value::Long(i64::from(number))),
            SmallSlot::Bool(flag) => Slot::One(Value::Bool(flag)),
            SmallSlot::Ref(ordinal) => Slot::One(Value::Ref(ordinal)),
        }
    }

    /// Whether there is a row that has this key.
    #[inline(always)]
    pub(crate) fn is_keyed_by(&self, key: &[Value]) -> bool
        ensures { IsTrue result ↔ (key_in (slot_of self.now) ≡ Some key.now) }
    {
        match key {
            [value] => self.is_value(value),
            _ => false,
        }
    }

    // Whether there is a row whose key is this value.
    #[inline(always)]
    fn is_value(&self, value: &Value) -> bool
        ensures { IsTrue result ↔ (key_in (slot_of self.now) ≡ Some (value.now ∷ [])) }
    {
        match (self, value) {
            (SmallSlot::Int(number), Value::Int(other)) => number == other,
            (SmallSlot::Long(number), Value::Long(other)) => i64::from(*number) == *other,
            (SmallSlot::Bool(flag), Value::Bool(other)) => flag == other,
            (SmallSlot::Ref(ordinal), Value::Ref(other)) => ordinal == other,
            _ => false,
        }
    }
}
