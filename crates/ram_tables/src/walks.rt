// Where a path leads.
ghost use Rattle.std.specs.Prelude.{◌≡◌, ◌∷◌, reverse};
ghost use Rattle.uefi_path.specs.Meaning.{units_of, remaining};
ghost use Rattle.volume.specs.Tree.{route_of};
ghost use Rattle.ram_tables.specs.Tables.{IsDirectory};
ghost use Rattle.ram_tables.specs.Meaning.{rows_of};
ghost use Rattle.ram_tables.specs.Lookups.{LeadsTo, StepsTo};

use super::names::is_dots;
use super::rows::Led;
use super::tables::NodeTable;
use uefi_path::path::{Components, Path};

impl NodeTable {
    // The directory that a component leads to.
    fn step(&self, d: usize, name: &[u16]) -> Option<usize>
        ensures { StepsTo (rows_of self.now) d name.now result }
    {
        if is_dots(name) {
            return None;
        }
        let n = self.entry(d, name)?;
        if self.is_directory(n) { Some(n) } else { None }
    }

    // Where the components lead, the first of which is `last`, from a directory.
    fn follow<'a>(
        &self,
        from: usize,
        mut last: &'a [u16],
        mut rest: Components<'a>,
    ) -> Option<Led<'a>>
        requires { IsDirectory (rows_of self.now) from }
        ensures { LeadsTo (rows_of self.now) from (reverse (last.now ∷ remaining rest.entry)) result }
    {
        let mut d = from;
        while let Some(next) = rest.next() {
            d = self.step(d, last)?;
            last = next;
        }
        if is_dots(last) {
            return None;
        }
        Some(Led::Last(d, last))
    }

    // Where a path leads from a node; none, where its components lead to no directory.
    pub fn lead<'a>(&self, from: usize, path: &'a Path) -> Option<Led<'a>>
        ensures { LeadsTo (rows_of self.now) from (route_of (units_of path.now)) result }
    {
        let mut parts = path.components();
        let Some(first) = parts.next() else {
            return Some(Led::Own);
        };
        if !self.is_directory(from) {
            return None;
        }
        self.follow(from, first, parts)
    }
}
