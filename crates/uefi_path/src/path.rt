// Paths, made by a check, and a cursor over their components.
ghost use Rattle.std.specs.Prelude.{◌≡◌, ◌≤◌, true, length, IfOk, Decides};
ghost use Rattle.std.proofs.Common.{rules};
ghost use Rattle.std.specs.Cmp.Rules.{comparing};
ghost use Rattle.std.specs.Ordering.{on};
ghost use Rattle.std.specs.Option.{option_map};
ghost use Rattle.std.specs.Iterator.{YieldsFirstRef, item_count};
ghost use Rattle.uefi_types.specs.Refusal.{refusal_of};
ghost use Rattle.uefi_types.specs.Units.{is_text};
ghost use Rattle.uefi_path.specs.Components.{components, same_path, SamePath};
ghost use Rattle.uefi_path.specs.Errors.{new_path_error, checked, too_long, fitted};
ghost use Rattle.uefi_path.specs.Laws.{Cutting, ParentOf, Sameness};
ghost use Rattle.uefi_path.specs.Meaning.{units_of, text_of, remaining};
ghost use Rattle.uefi_path.specs.Parents.{is_empty, has_parent, parent, turned, joined};

use super::pathbuf::TooLong;
use super::types::PathBuf;
pub use super::types::{Components, Path};
use super::units::{component_at, has_separator, same_units, shown, start_of_components};
use arrayvec::ArrayVec;
use std::error::Error;
use std::fmt;
use uefi_types::{Numbered, first_bad_unit};

// Why units are no path.
#[derive(Clone, Copy, PartialEq, Eq, Debug)]
pub enum NewPathError {
    // More than 256 units.
    PathTooLong,
    // The unit at this place may not stand in a text.
    BadUnit(usize),
}

impl Numbered for NewPathError {
    ghost refusal = { new_path_error };

    fn number(&self) -> u32 {
        match self {
            NewPathError::PathTooLong => 16,
            NewPathError::BadUnit(_) => 21,
        }
    }
}

impl fmt::Display for NewPathError {
    fn fmt<W: fmt::Write>(&self, f: &mut fmt::Formatter<W>) -> fmt::Result {
        match self {
            NewPathError::PathTooLong => write!(f, "path has more than 256 units"),
            NewPathError::BadUnit(at) => write!(f, "unit {at} is NUL or half of a surrogate pair"),
        }
    }
}

impl Error for NewPathError {}

impl fmt::Display for Path {
    fn fmt<W: fmt::Write>(&self, f: &mut fmt::Formatter<W>) -> fmt::Result {
        for unit in self.units() {
            f.write_char(shown(*unit))?;
        }
        Ok(())
    }
}

impl Path {
    // The path of these units.
    pub fn new(units: &[u16]) -> Result<Path, NewPathError>
        ensures refused { refusal_of new_path_error result ≡ checked units.now }
        ensures made { IfOk result (λ p. units_of p ≡ units.now) }
    {
        let mut own = ArrayVec::new();
        own.try_extend_from_slice(units)
            .map_err(|_| NewPathError::PathTooLong)?;
        match first_bad_unit(units) {
            Some(at) => Err(NewPathError::BadUnit(at)),
            None => Ok(Path { units: own }),
        }
    }

    // Its units.
    pub fn units(&self) -> &[u16]
        ensures value { result.now ≡ units_of self.now }
        ensures short { length result.now ≤ 256 }
        ensures text { is_text result.now ≡ true }
    {
        self.units.as_slice()
    }

    pub fn is_empty(&self) -> bool
        ensures { result ≡ is_empty (units_of self.now) }
    {
        self.units().is_empty()
    }

    // A cursor before the first component.
    pub fn components(&self) -> Components<'_>
        ensures value { remaining result ≡ components (units_of self.now) }
        ensures few { length (remaining result) ≤ 256 }
        ensures law { Cutting (units_of self.now) (remaining result) }
    {
        let units = self.units();
        let at = start_of_components(units);
        Components { units, at }
    }

    // Whether it has components, and a separator.
    fn has_parent(&self) -> bool
        ensures { result ≡ has_parent (units_of self.now) }
    {
        self.components().next().is_some() && has_separator(self.units())
    }

    // The directory of what it names: the components but the last.
    pub fn parent(&self) -> Option<PathBuf>
        ensures value { option_map text_of result ≡ parent (units_of self.now) }
        ensures law { ParentOf (units_of self.now) (option_map text_of result) }
    {
        if !self.has_parent() {
            return None;
        }
        Some(PathBuf::before_last(self))
    }

    // Whether the two have the same components. By a loop, since `eq` of the two cursors took half as long again.
    fn is_same(&self, other: &Path) -> bool
        ensures { Decides result (SamePath (units_of self.now) (units_of other.now)) }
    {
        let mut mine = self.components();
        let mut others = other.components();
        loop {
            match (mine.next(), others.next()) {
                (None, None) => return true,
                (Some(a), Some(b)) => {
                    if !same_units(a, b) {
                        return false;
                    }
                }
                _ => return false,
            }
        }
    }

    // A copy that can be built on, each `/` turned into the separator.
    pub fn to_path_buf(&self) -> PathBuf
        ensures { text_of result ≡ turned (units_of self.now) }
    {
        let mut buf = PathBuf::new();
        buf.append(self);
        buf
    }

    // This path with another behind it.
    pub fn join(&self, path: &Path) -> Result<PathBuf, TooLong>
        ensures refused { refusal_of too_long result ≡ fitted (joined (units_of self.now) (units_of path.now)) }
        ensures made { IfOk result (λ b. text_of b ≡ joined (units_of self.now) (units_of path.now)) }
    {
        let mut joined = self.to_path_buf();
        joined.push(path)?;
        Ok(joined)
    }
}

// Paths are equal if their components are.
impl PartialEq for Path {
    ghost eq = { on units_of same_path };

    ghost laws = { Prim.search (comparing, rules) depth 8 };

    fn eq(&self, other: &Path) -> bool
        ensures answer { result ≡ same_path (units_of self.now) (units_of other.now) }
        ensures value { Decides result (SamePath (units_of self.now) (units_of other.now)) }
        ensures law { Sameness }
    {
        self.is_same(other)
    }
}

impl Eq for Path {
    ghost laws = { Prim.search (comparing, rules) depth 8 };
}

impl<'a> Iterator for Components<'a> {
    type Item = &'a [u16];

    ghost can_next = { λ _. Unit {0} };

    ghost next_gives = { YieldsFirstRef remaining };

    ghost remaining = { item_count remaining };

    // The next component, and the cursor behind the separator that ends it.
    fn next(&mut self) -> Option<&'a [u16]> {
        let (component, next) = component_at(self.units, self.at)?;
        self.at = next;
        Some(component)
    }
}
