// Paths of a volume: UCS-2 texts whose components stand between separators.
#![tactic(auto)]

pub mod path;
pub mod pathbuf;
mod types;
mod units;
pub mod validation;

pub use units::{is_denied, same_units};
