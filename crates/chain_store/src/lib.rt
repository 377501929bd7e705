//! What a store tells of its chain of states: the announced version, the versions in the names of its blobs, and their tags.
#![tactic(auto)]

mod announcement;
mod tags;
mod versions;

pub use announcement::{Announcement, announced_version};
pub use tags::is_tag_taken;
pub use versions::{greatest_version, names_of};
