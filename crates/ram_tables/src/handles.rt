// The open handles.
ghost use Rattle.std.specs.Prelude.{◌≡◌, ℕ, ◌<◌, ◌≤◌, Some as Just, None as Nothing, Decides, MatchOption, ◌≢◌, slice_set};
ghost use Rattle.ram_tables.specs.Tables.{row, count};
ghost use Rattle.ram_tables.specs.Meaning.{handles_of};

use super::table::Table;
use super::tables::HandleTable;
use volume::Handle;

impl HandleTable {
    // No handle is open.
    pub fn new() -> HandleTable
        ensures { (k : ℕ) → row (handles_of result) k ≡ Nothing }
    {
        HandleTable { rows: Table::new() }
    }

    // The handle that is open under a number.
    pub fn get(&self, number: u64) -> Option<Handle>
        ensures { result ≡ row (handles_of self.now) number }
    {
        self.rows.row(number as usize).copied()
    }

    // A number that no handle has; none, where all are taken.
    pub fn vacant(&self) -> Option<u64>
        ensures { MatchOption result (16 ≤ count (handles_of self.now)) (λ k. (k < 16) × (row (handles_of self.now) k ≡ Nothing) × (count (handles_of self.now) < 16)) }
    {
        self.rows.vacant().map(|k| k as u64)
    }

    // Puts a handle under a number, or takes it away; a number past the table keeps none.
    pub fn put(&mut self, number: u64, handle: Option<Handle>)
        ensures { handles_of self.new ≡ slice_set (handles_of self.old) number handle }
    {
        self.rows.put(number as usize, handle);
    }

    // Whether a handle other than this is open on the node.
    pub fn is_open_elsewhere(&self, number: u64, node: u64) -> bool
        ensures { Decides result ((k : ℕ) × (h : Handle) × (k ≢ number) × (row (handles_of self.now) k ≡ Just h) × (h.node ≡ node)) }
    {
        self.rows
            .find(0, |k, handle| k as u64 != number && handle.node == node)
            .is_some()
    }
}
