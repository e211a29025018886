// The two tables, with what each always keeps.
ghost use Rattle.std.specs.Prelude.{◌≡◌, length};
ghost use Rattle.ram_tables.specs.Tables.{Whole};

use super::rows::Row;
use super::table::Table;
use volume::Handle;

// How many nodes there can be, the root among them, and how many open handles.
pub(super) const NODES: usize = 64;

pub(super) const HANDLES: usize = 16;

// The root's number.
pub const ROOT: usize = 0;

// The nodes by their numbers. An entry names its node by number, since there is no heap for links.
#[derive(Drop)]
pub struct NodeTable {
    pub(super) rows: Table<Row, NODES>,
    ghost long: { length rows ≡ 64 },
    ghost whole: { ∥ Whole rows ∥₁ },
}

// The open handles by their numbers.
#[derive(Drop)]
pub struct HandleTable {
    pub(super) rows: Table<Handle, HANDLES>,
    ghost long: { length rows ≡ 16 },
}
