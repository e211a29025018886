// What the nodes' rows say.
ghost use Rattle.std.specs.Prelude.{◌≡◌, ℕ, ◌+◌, ◌<◌, ◌≤◌, false, length, IfSome, Decides, ◌≢◌};
ghost use Rattle.std.specs.Option.{option_copied};
ghost use Rattle.ram_tables.specs.Tables.{row, name_of_row, FirstThat};
ghost use Rattle.ram_tables.specs.Meaning.{rows_of};
ghost use Rattle.ram_tables.specs.Lookups.{Finds, Lists};
ghost use Rattle.ram_tables.specs.Moves.{HasEntries};

use super::names::NAME_UNITS;
use super::rows::{Listed, Row};
use super::tables::{NodeTable, ROOT};

impl Row {
    // The units of its name; no row has more than there are.
    pub fn units(&self) -> &[u16]
        ensures { result.now ≡ name_of_row self.now }
    {
        &self.name[..self.len.min(NAME_UNITS)]
    }

    // Whether its name may have so many units: a lookup compares the lengths first, and no row has more units than there are.
    fn has_length(&self, len: usize) -> bool
        ensures { result ≡ false → length (name_of_row self.now) ≢ len }
    {
        self.len == len || self.len > NAME_UNITS
    }

    // Whether it is the row of an entry of the directory with the name.
    fn is_named(&self, d: usize, name: &[u16]) -> bool
        ensures { Decides result ((self.now.parent ≡ d) × (name_of_row self.now ≡ name.now)) }
    {
        self.parent == d && self.has_length(name.len()) && self.units() == name
    }
}

impl NodeTable {
    // The row of a node.
    pub fn row(&self, n: usize) -> Option<&Row>
        ensures is { option_copied result ≡ row (rows_of self.now) n }
        ensures short { IfSome result (λ x. x.now.len ≤ 64) }
    {
        self.rows.row(n)
    }

    // The node that a directory's entry names so. The two stand apart here and elsewhere, as in the rules on a volume's calls.
    pub fn entry(&self, d: usize, name: &[u16]) -> Option<usize>
        ensures found { Finds (rows_of self.now) d name.now result }
        ensures within { IfSome result (λ n. n < 64) }
    {
        self.rows.find(1, |_, row| row.is_named(d, name))
    }

    // Whether a directory has entries.
    pub(super) fn has_entries(&self, d: usize) -> bool
        ensures { Decides result (HasEntries (rows_of self.now) d) }
    {
        self.child_from(d, 1).is_some()
    }

    // The first entry of a directory from a node's number on.
    fn child_from(&self, d: usize, first: usize) -> Option<usize>
        ensures { FirstThat (rows_of self.now) (λ n x. (first ≤ n) × (x.parent ≡ d)) (λ n x. first ≤ n → x.parent ≢ d) result }
    {
        self.rows.find(first, |_, row| row.parent == d)
    }

    // What a directory has next from a position on; none at its end.
    pub fn next(&self, d: usize, position: u64) -> Option<Listed>
        ensures { Lists (rows_of self.now) d position result }
    {
        if d != ROOT && position < 2 {
            return Some(if position == 0 {
                Listed::Dot
            } else {
                Listed::DotDot
            });
        }
        let first = position.max(3) - 2;
        let n = self.child_from(d, first as usize)?;
        Some(Listed::Child(n))
    }
}
