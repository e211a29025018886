// What stands at a number.
use volume::{Handle, NodeKind};

// An open handle, the number that it has, and what it is on.
#[derive(Clone, Copy)]
pub(super) struct At {
    pub(super) number: u64,
    pub(super) handle: Handle,
    pub(super) kind: NodeKind,
}
