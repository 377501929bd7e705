//! The refusals of commands and orders.
use hol_io::BlobName;
use schema_model::{Limit, Name, Reason, Rule};

/// How many bytes a line of orders has at most, without its newline.
pub const MAX_LINE_BYTES: u64 = 0x400_0000;

/// A row, by the name of its type and its ordinal.
#[derive(Drop)]
pub struct RowPlace {
    /// The name of the row's type.
    pub type_name: Name,
    /// The ordinal under which it was asked for or stands.
    pub ordinal: u64,
}

/// A record of an order that does not fit its type.
#[derive(Drop)]
pub struct RefusedRecord {
    /// The name of the type.
    pub type_name: Name,
    /// The place of the record among those of its type, from 0.
    pub index: u64,
    /// Why it does not fit.
    pub reason: Reason,
}

/// An item of a blob that cannot be read or breaks a rule.
#[derive(Drop)]
pub struct ItemFault {
    /// The blob's name.
    pub blob: BlobName,
    /// The offset of the item, and for a row that of its type's schema.
    pub at: u64,
    /// Why it cannot be read, or which rule it breaks.
    pub reason: Reason,
    /// The row, where it is a row that breaks the rule.
    pub row: Option<RowPlace>,
}

/// A blob that does not start from the consumer's state.
#[derive(Drop)]
pub struct OriginFault {
    /// The blob's name.
    pub blob: BlobName,
    /// The tag that it starts from.
    pub found: i64,
    /// The tag of the consumer.
    pub current: i64,
}

/// Where a state that was walked to differs from its snapshot.
#[derive(Drop)]
pub struct Difference {
    /// The version of the state and of the snapshot.
    pub version: u64,
    /// The name of the type in which they differ, where their tags are the same.
    pub type_name: Option<Name>,
    /// The ordinal in which they differ, where the type has one schema in both.
    pub ordinal: Option<u32>,
}

/// Two equal rows of a type.
#[derive(Drop)]
pub struct EqualRows {
    /// The name of the type.
    pub type_name: Name,
    /// The lesser one of their ordinals.
    pub first: u32,
    /// The greater one of their ordinals.
    pub second: u32,
}

/// Two records of an order that have one key.
#[derive(Drop)]
pub struct EqualKeys {
    /// The name of their type.
    pub type_name: Name,
    /// The place of the first one among those of its type, from 0.
    pub first: u64,
    /// The place of the second one, counted in the same way.
    pub second: u64,
}

/// Why a command or an order is refused. Each refusal has a number of its own, which its line tells beside its name and
/// its members.
#[derive(Drop)]
pub enum Refusal {
    /// 10: the line is not one JSON value in UTF-8, or has the shape of no order.
    BadOrder,
    /// 11: the line has more than `MAX_LINE_BYTES` bytes; it is passed over.
    LineTooLong,
    /// 12: the schemas are no model.
    BadModel {
        /// The first rule that is broken.
        rule: Rule,
        /// The name of the first type that breaks it.
        type_name: Name,
    },
    /// 13: there is no producer.
    NoModel,
    /// 14: there is a producer.
    ModelFixed,
    /// 15: a record does not fit its type.
    BadRecord(RefusedRecord),
    /// 16: the version is not above this one, the greatest in any name of the store, 0 where there is none.
    BadVersion(u64),
    /// 17: the tag is 0, or a blob of the store has it.
    TagUsed(i64),
    /// 18: the store has no blob of this name.
    NoBlob(BlobName),
    /// 19: an item of the blob cannot be read, or breaks a rule.
    BadBlob(ItemFault),
    /// 20: the blob does not start from the consumer's state.
    OtherOrigin(OriginFault),
    /// 21: the consumer has no state.
    NoState,
    /// 22: the model has no type of this name.
    NoType(Name),
    /// 23: the ordinal is not live.
    NoRow(RowPlace),
    /// 24: this path does not resolve; it is empty where the type has no primary key and it is asked for.
    BadPath(Name),
    /// 25: no live row has the key.
    NoMatch,
    /// 26: two or more live rows have the key.
    Ambiguous {
        /// The least of their ordinals.
        first: u32,
        /// The least but one.
        second: u32,
    },
    /// 27: the state that was walked to differs from the snapshot.
    Mismatch(Difference),
    /// 28: a counted number passes this limit.
    TooLarge(Limit),
    /// 29: two rows of a type are equal in the snapshot that is to be taken up.
    DuplicateRow(EqualRows),
    /// 30: a schema of the blob is not the consumer's.
    OtherModel {
        /// The blob's name.
        blob: BlobName,
        /// The name of the type.
        type_name: Name,
    },
    /// 31: the version is not this one, the announced version, 0 where there is none.
    NotLast(u64),
    /// 32: no index is kept for the paths.
    NoIndex,
    /// 33: the type of this name is of another kind.
    WrongKind(Name),
    /// 34: the values are no key.
    BadKey,
    /// 35: the new model does not grow the producer's in the type of this name.
    NotGrown(Name),
    /// 36: no list of blobs leads from one version to the other.
    NoPlan {
        /// The version of the consumer, where it has a state.
        from: Option<u64>,
        /// The version that was asked for.
        to: u64,
    },
    /// 37: two records that are put have one key.
    KeyTwice(EqualKeys),
    /// 38: a record that is put has no key.
    NoKey {
        /// The name of the type.
        type_name: Name,
        /// The place of the record among those of its type, from 0.
        index: u64,
    },
    /// 39: no state that this version had is kept.
    NotKept(u64),
}
