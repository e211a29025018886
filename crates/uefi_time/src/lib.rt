// Times as records hold them.
#![tactic(auto)]

mod time;

pub use time::{Time, TimeError};
