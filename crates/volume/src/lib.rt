// What a volume means, and the trait of what keeps that meaning.
#![tactic(auto)]

mod handle;
mod laws;
mod volume;

pub use handle::{Handle, NodeKind, Reported};
pub use laws::volume_laws_hold;
pub use volume::Volume;
