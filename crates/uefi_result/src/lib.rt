// Statuses of the firmware, and the errors made of them.
#![tactic(auto)]

mod error;
mod status;

pub use error::{Error, NoError};
pub use status::Status;
