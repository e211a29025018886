// How the nodes' rows change.
ghost use Rattle.std.specs.Prelude.{◌≡◌, ◌<◌, true, None as Nothing, Decides};
ghost use Rattle.volume.specs.Calls.{nameable};
ghost use Rattle.ram_tables.specs.Tables.{row, count, IsDirectory};
ghost use Rattle.ram_tables.specs.Meaning.{rows_of};
ghost use Rattle.ram_tables.specs.Lookups.{Finds};
ghost use Rattle.ram_tables.specs.Moves.{RootAlone, Enlarged, Enters, Removes};

use super::names::{NAME_UNITS, is_name, padded};
use super::rows::{EnterError, Entered, Row};
use super::table::Table;
use super::tables::{NodeTable, ROOT};

impl NodeTable {
    // The root alone.
    pub fn new() -> NodeTable
        ensures { RootAlone (rows_of result) }
    {
        let root = Row {
            parent: ROOT,
            name: [0; NAME_UNITS],
            len: 0,
            directory: true,
        };
        let mut rows = Table::new();
        rows.put(ROOT, Some(root));
        NodeTable { rows }
    }

    // Whether a node is there and is a directory.
    pub fn is_directory(&self, n: usize) -> bool
        ensures { Decides result (IsDirectory (rows_of self.now) n) }
    {
        self.row(n).is_some_and(|row| row.directory)
    }

    // Makes a node at a number that has none, of a name that its directory does not have.
    fn make(&mut self, n: usize, d: usize, name: &[u16], directory: bool)
        requires space { count (rows_of self.old) < 64 }
        requires within { n < 64 }
        requires free { row (rows_of self.old) n ≡ Nothing }
        requires dir { IsDirectory (rows_of self.old) d }
        requires absent { Finds (rows_of self.old) d name.now Nothing }
        requires proper { nameable 64 name.now ≡ true }
        ensures { Enlarged (rows_of self.old) d name.now directory n (rows_of self.new) }
    {
        let row = Row {
            parent: d,
            name: padded(name),
            len: name.len(),
            directory,
        };
        self.rows.put(n, Some(row));
    }

    // The node of a name in a directory; where there is none, it is made.
    pub fn enter(&mut self, d: usize, name: &[u16], directory: bool) -> Result<Entered, EnterError>
        ensures { Enters (rows_of self.old) d name.now directory result (rows_of self.new) }
    {
        if !self.is_directory(d) {
            return Err(EnterError::NotADirectory);
        }
        if let Some(n) = self.entry(d, name) {
            return Ok(Entered::Found(n));
        }
        if !is_name(name) {
            return Err(EnterError::BadName);
        }
        let n = self.rows.vacant().ok_or(EnterError::Full)?;
        self.make(n, d, name, directory);
        Ok(Entered::Made(n))
    }

    // Removes a node, and answers whether it did, as a set's remove: it keeps the root and a node that has entries.
    pub fn remove(&mut self, n: usize) -> bool
        ensures { Removes (rows_of self.old) n result (rows_of self.new) }
    {
        if n == ROOT || self.has_entries(n) || self.row(n).is_none() {
            return false;
        }
        self.rows.put(n, None);
        true
    }
}
