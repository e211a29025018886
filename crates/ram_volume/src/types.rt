// The volume, with what it always keeps.
ghost use Rattle.std.specs.Prelude.{ℕ};
ghost use Rattle.ram_tables.specs.Meaning.{rows_of, handles_of};
ghost use Rattle.ram_volume.specs.Standing.{Standing};

use ram_tables::{HandleTable, NodeTable};
use volume::Reported;

// Nodes and open handles in tables, and the bytes of files in a store: the file of a node has the node's number as its slot.
#[derive(Drop)]
pub(super) struct Held<S> {
    pub(super) nodes: NodeTable,
    pub(super) handles: HandleTable,
    pub(super) misused: bool,
    pub(super) store: S,
    ghost standing: { Standing (rows_of nodes) (handles_of handles) },
}

// Beside what it holds, the file that get_info last reported.
#[derive(Drop)]
pub struct RamVolume<S> {
    pub(super) held: Held<S>,
    pub(super) reported: Option<Reported>,
}
