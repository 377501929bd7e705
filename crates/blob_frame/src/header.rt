//! The header of a blob.
use schema_model::{NamePairs, Schemas};

/// The number of the blob format, with which each header begins.
pub const FORMAT: u32 = 1030;

/// What stands in front of a blob's types.
#[derive(Debug, Drop)]
pub struct Header {
    /// The tag of the state that the blob starts from; 0 where there is none.
    pub origin: i64,
    /// The tag of the state that it leads to.
    pub destination: i64,
    /// The schemas that the header lists; none where its envelope has the number 0.
    pub schemas: Schemas,
    /// The header's pairs of texts, in their order.
    pub tags: NamePairs,
}
