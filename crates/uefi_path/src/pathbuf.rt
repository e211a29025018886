// A path in memory of its own.
ghost use Rattle.std.specs.Prelude.{◌≡◌, ◌+◌, ◌≤◌, true, not, ◌||◌, [], ◌++◌, length, OnOk};
ghost use Rattle.std.specs.List.{list_all};
ghost use Rattle.uefi_types.specs.Refusal.{refusal_of};
ghost use Rattle.uefi_path.specs.Components.{components};
ghost use Rattle.uefi_path.specs.Errors.{too_long, fitted, kept_or};
ghost use Rattle.uefi_path.specs.Laws.{JoinOf};
ghost use Rattle.uefi_path.specs.Meaning.{units_of, text_of};
ghost use Rattle.uefi_path.specs.Parents.{turned, no_slash, is_empty, ends_in_sep, with_component, joined_to, but_last, pushed};

pub use super::types::PathBuf;
use super::types::{MAX_UNITS, Path};
use super::units::{SEPARATOR, turn_slashes};
use arrayvec::ArrayVec;
use std::error::Error;
use std::fmt;
use uefi_types::Numbered;

// A path that would have more than 256 units.
#[derive(Clone, Copy, PartialEq, Eq, Debug)]
pub struct TooLong;

impl Numbered for TooLong {
    ghost refusal = { too_long };

    fn number(&self) -> u32 {
        16
    }
}

impl fmt::Display for TooLong {
    fn fmt<W: fmt::Write>(&self, f: &mut fmt::Formatter<W>) -> fmt::Result {
        write!(f, "path would have more than 256 units")
    }
}

impl Error for TooLong {}

// Whether a text ends in a component, so that the next one goes behind a separator.
fn ends_a_component(text: &[u16]) -> bool
    ensures { result ≡ not (is_empty text.now || ends_in_sep text.now) }
{
    text.last().is_some_and(|unit| *unit != SEPARATOR)
}

// Adds a component that fits with a separator, which goes between where the text ends in another component.
fn join_component(text: &mut ArrayVec<u16, MAX_UNITS>, component: &[u16])
    requires { length text.old.items + 1 + length component.now ≤ 256 }
    ensures { text.new.items ≡ with_component text.old.items component.now }
{
    if ends_a_component(text.as_slice()) {
        text.push(SEPARATOR);
    }
    text.try_extend_from_slice(component).unwrap();
}

impl PathBuf {
    // The empty path.
    pub fn new() -> Self
        ensures { text_of result ≡ [] }
    {
        PathBuf {
            path: Path {
                units: ArrayVec::new(),
            },
        }
    }

    // All components of a path but the last, joined.
    pub(super) fn before_last(path: &Path) -> Self
        ensures { text_of result ≡ turned (joined_to [] (but_last (components (units_of path.now)))) }
    {
        let mut components = path.components();
        let Some(mut last) = components.next() else {
            return PathBuf::new();
        };
        let mut units = ArrayVec::new();
        for next in components {
            join_component(&mut units, last);
            last = next;
        }
        Path { units }.to_path_buf()
    }

    // The path as it stands, in which there is no `/`.
    pub fn as_path(&self) -> &Path
        ensures value { units_of result.now ≡ text_of self.now }
        ensures law { list_all no_slash (units_of result.now) ≡ true }
    {
        &self.path
    }

    // Adds a path that fits behind the text, each `/` turned.
    pub(super) fn append(&mut self, path: &Path)
        requires { length (text_of self.old) + length (units_of path.now) ≤ 256 }
        ensures { text_of self.new ≡ text_of self.old ++ turned (units_of path.now) }
    {
        let end = self.path.units.len();
        self.path.units.try_extend_from_slice(path.units()).unwrap();
        turn_slashes(&mut self.path.units.as_mut_slice()[end..]);
    }

    // Extends it by a path.
    pub fn push(&mut self, path: &Path) -> Result<(), TooLong>
        ensures refused { refusal_of too_long result ≡ fitted (pushed (text_of self.old) (units_of path.now)) }
        ensures after { text_of self.new ≡ kept_or (text_of self.old) (pushed (text_of self.old) (units_of path.now)) }
        ensures law { OnOk result (JoinOf (text_of self.old) (units_of path.now) (text_of self.new)) }
    {
        if path.is_empty() {
            return Ok(());
        }
        // Room for both is asked for first, so that a refusal leaves the text.
        if !self.path.is_empty() {
            if self.path.units.remaining_capacity() <= path.units().len() {
                return Err(TooLong);
            }
            self.path.units.push(SEPARATOR);
        }
        self.append(path);
        Ok(())
    }

    // Makes it the empty path. By a new one, since the vector's own `clear` writes each unit that it held.
    pub fn clear(&mut self)
        ensures { text_of self.new ≡ [] }
    {
        *self = PathBuf::new();
    }
}
