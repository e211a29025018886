// The bytes of files, in blocks of a memory that the caller hands in.
#![tactic(auto)]

mod chained;
mod chains;
pub mod store;
mod types;

pub use types::ChainedStore;
