// A volume in memory, over any block store.
#![tactic(auto)]

mod about;
mod at;
mod calls;
mod handles;
mod nodes;
mod opens;
mod reads;
mod records;
mod refusals;
mod types;

pub use types::RamVolume;
