// One line of the list: a path, or why it is none.
ghost use Rattle.std.specs.Prelude.{◌≡◌, IfOk};
ghost use Rattle.template_paths.specs.declared.entry.Refusal.TheVariants.{NoPath};
ghost use Rattle.template_paths.specs.Judging.{Judged};

use super::text;
use super::text::UnitsError;
use std::alloc::{AllocError, Global};
use std::{fmt, iter};
use uefi_path::path::{NewPathError, Path};
use uefi_path::pathbuf::PathBuf;
use uefi_path::validation::{PathError, validate_path};
use uefi_types::Numbered;

// Why a line is refused.
#[derive(Drop)]
pub enum Refusal {
    NotUcs2 { at: usize, character: char },
    NoPath(NewPathError),
    Invalid { path: Path, error: PathError },
}

impl From<NewPathError> for Refusal {
    ghost from_gives = { λ error refusal. refusal ≡ NoPath error };

    fn from(error: NewPathError) -> Self {
        Refusal::NoPath(error)
    }
}

// The path that a line names, or its refusal.
pub type Entry = Result<Path, Refusal>;

// Judges the units of a line.
fn judge_units(units: &[u16]) -> Entry
    ensures { Judged result }
{
    let path = Path::new(units)?;
    match validate_path(&path) {
        Ok(()) => Ok(path),
        Err(error) => Err(Refusal::Invalid { path, error }),
    }
}

// Judges a line.
pub fn judge(heap: Global, line: &str) -> Result<Entry, AllocError>
    ensures { IfOk result Judged }
{
    match text::units_of(heap, line) {
        Ok(units) => Ok(judge_units(units.as_slice())),
        Err(UnitsError::NotUcs2 { at, character }) => Ok(Err(Refusal::NotUcs2 { at, character })),
        Err(UnitsError::OutOfMemory) => Err(AllocError),
    }
}

fn is_refused(component: &[u16]) -> bool {
    !Path::new(component).is_ok_and(|alone| validate_path(&alone).is_ok())
}

// Which component a path is refused for, counted from 1.
fn refused_component(path: &Path) -> Option<usize> {
    path.components().position(is_refused).map(|at| at + 1)
}

// The lines of a refusal, indented.
impl fmt::Display for Refusal {
    fn fmt<W: fmt::Write>(&self, f: &mut fmt::Formatter<W>) -> fmt::Result {
        match self {
            Refusal::NotUcs2 { at, character } => {
                let code = u32::from(*character);
                writeln!(
                    f,
                    "   refused: NotUcs2, the character {code:X}h at place {at} is no unit"
                )
            }
            Refusal::NoPath(error) => {
                let name = match error {
                    NewPathError::PathTooLong => "PathTooLong",
                    NewPathError::BadUnit(_) => "BadUnit",
                };
                writeln!(f, "   refused: {name} ({}), {error}", error.number())
            }
            Refusal::Invalid { path, error } => {
                let name = match error {
                    PathError::Empty => "Empty",
                    PathError::EmptyComponent => "EmptyComponent",
                    PathError::IllegalChar(_) => "IllegalChar",
                };
                write!(f, "   refused: {name} ({}), {error}", error.number())?;
                // The empty path is refused for no component.
                if let Some(component) = refused_component(path) {
                    write!(f, ", in component {component}")?;
                }
                writeln!(f)
            }
        }
    }
}

// An accepted path, and the directories that have to be there before a file of this path can be made, the shortest first.
#[derive(Drop)]
pub struct Accepted<'a> {
    path: &'a Path,
    directories: Vec<PathBuf>,
}

impl<'a> Accepted<'a> {
    pub fn new(heap: Global, path: &'a Path) -> Result<Self, AllocError> {
        // Each parent has one component less, and no path has more than 256.
        let mut directories: Vec<PathBuf> = iter::successors(
            path.parent(),
            |directory| directory.as_path().parent(),
        ).take(256)
            .take_while(|directory| directory.as_path().components().next().is_some())
            .collect(heap)?;
        directories.reverse();
        Ok(Accepted { path, directories })
    }
}

// The lines of an accepted path, indented.
impl fmt::Display for Accepted<'_> {
    fn fmt<W: fmt::Write>(&self, f: &mut fmt::Formatter<W>) -> fmt::Result {
        write!(f, "   accepted\n   components:")?;
        for component in self.path.components() {
            if let Ok(alone) = Path::new(component) {
                write!(f, " [{alone}]")?;
            }
        }
        write!(f, "\n   directories:")?;
        for directory in self.directories.iter() {
            write!(f, " [{}]", directory.as_path())?;
        }
        writeln!(f)
    }
}
