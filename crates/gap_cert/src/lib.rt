//! Certificates: what one is, and how it is spelled in bytes in version 1 and in version 2.
#![tactic(auto)]

mod context;
mod field;
mod laws;
mod repeats;

pub use context::{Context, Phase};
pub use field::{Field, Group, Item, Stop, Version};
pub use laws::{encodings_are_unique, groups_are_spelled};
pub use repeats::is_repeated;
