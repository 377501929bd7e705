//! The reasons for which a blob or a record is refused.
/// Why a blob or a record is refused. Its number stands in the answer line.
#[derive(Clone, Copy, Debug, PartialEq, Eq)]
pub enum Reason {
    /// 40: the blob ends inside an item or before it.
    Truncated,
    /// 41: the blob's first four bytes are not the format 1030.
    OtherFormat,
    /// 42: a number of variable length is null or too long, or one of an ordinal run is not whole within the run.
    BadVarint,
    /// 43: a Java UTF text is another spelling or not well-formed UTF-16.
    BadName,
    /// 44: a schema or a list of schemas is not one of a model.
    BadSchema,
    /// 45: a field is a FLOAT or a DOUBLE.
    FloatField,
    /// 46: a SET or MAP has a hash key.
    KeyedHash,
    /// 47: a type has another number of shards than one.
    Sharded,
    /// 48: a width is over 64 or cannot hold what it must.
    BadWidth,
    /// 49: a word array has fewer words than its places need.
    BadLength,
    /// 50: a byte stands after the last section.
    TrailingBytes,
    /// 51: the ordinals do not rise, are live or not live where they must not be, or are above the max ordinal.
    BadOrdinals,
    /// 52: a value is out of the range of its field, or an ordinal out of range.
    BadValue,
    /// 53: the bytes of a STRING are not UTF-16 units.
    BadText,
    /// 54: the start and end of a variable part do not fit what is there.
    BadPointers,
    /// 55: the buckets are not those of a set or a map.
    BadBuckets,
    /// 56: a row names an ordinal that is not live.
    Dangling,
    /// 57: the announced version is not a version in decimal.
    BadAnnounced,
    /// 60: a record has another JSON kind at this place.
    OtherKind,
    /// 61: a record has a field that its type does not have.
    UnknownField,
    /// 62: a number is out of the range of its field or no integer.
    NumberOutOfRange,
    /// 63: a text is not hexadecimal digits, two for each byte.
    NotHexadecimal,
    /// 64: a record, an element, a key or a value is null.
    NullRecord,
    /// 65: two keys of a map are the same.
    SameKeys,
    /// 66: a number in a list of units is not one of 16 bits.
    UnitOutOfRange,
}

impl Reason {
    ghost use Rattle.std.specs.Prelude.{◌≡◌};
    ghost use Rattle.schema_model.specs.Reason.{number_of_reason};

    /// Its number, from 40 to 57 for blobs and from 60 to 66 for records.
    pub fn number(&self) -> u32
        ensures { result ≡ number_of_reason self.now }
    {
        match self {
            Reason::Truncated => 40,
            Reason::OtherFormat => 41,
            Reason::BadVarint => 42,
            Reason::BadName => 43,
            Reason::BadSchema => 44,
            Reason::FloatField => 45,
            Reason::KeyedHash => 46,
            Reason::Sharded => 47,
            Reason::BadWidth => 48,
            Reason::BadLength => 49,
            Reason::TrailingBytes => 50,
            Reason::BadOrdinals => 51,
            Reason::BadValue => 52,
            Reason::BadText => 53,
            Reason::BadPointers => 54,
            Reason::BadBuckets => 55,
            Reason::Dangling => 56,
            Reason::BadAnnounced => 57,
            Reason::OtherKind => 60,
            Reason::UnknownField => 61,
            Reason::NumberOutOfRange => 62,
            Reason::NotHexadecimal => 63,
            Reason::NullRecord => 64,
            Reason::SameKeys => 65,
            Reason::UnitOutOfRange => 66,
        }
    }
}
