// Which paths may be handed to a volume.
ghost use Rattle.std.specs.Prelude.{◌≡◌, is_ok};
ghost use Rattle.uefi_types.specs.Refusal.{refusal_of};
ghost use Rattle.uefi_path.specs.Errors.{path_error};
ghost use Rattle.uefi_path.specs.Laws.{valid, WorkedExamples};
ghost use Rattle.uefi_path.specs.Meaning.{units_of};
ghost use Rattle.uefi_path.specs.Validity.{validate, fault_of};

use super::path::Path;
use super::units::{first_denied, shown};
use std::error::Error;
use std::fmt;
use uefi_types::Numbered;

// Why a path may not be handed to a volume.
#[derive(Clone, Copy, PartialEq, Eq, Debug)]
pub enum PathError {
    // The path has no text.
    Empty,
    // Two separators with nothing between them, or one at the end.
    EmptyComponent,
    // A unit that no file name may have.
    IllegalChar(u16),
}

impl Numbered for PathError {
    ghost refusal = { path_error };

    fn number(&self) -> u32 {
        match self {
            PathError::Empty => 1,
            PathError::EmptyComponent => 2,
            PathError::IllegalChar(_) => 3,
        }
    }
}

impl fmt::Display for PathError {
    fn fmt<W: fmt::Write>(&self, f: &mut fmt::Formatter<W>) -> fmt::Result {
        match self {
            PathError::Empty => write!(f, "path is empty"),
            PathError::EmptyComponent => write!(f, "path contains an empty component"),
            PathError::IllegalChar(unit) => {
                let c = shown(*unit);
                write!(f, "path contains the illegal character {c:?} ({unit:X}h)")
            }
        }
    }
}

impl Error for PathError {}

fn validate_component(component: &[u16]) -> Result<(), PathError>
    ensures { refusal_of path_error result ≡ fault_of component.now }
{
    if component.is_empty() {
        return Err(PathError::EmptyComponent);
    }
    match first_denied(component) {
        Some(unit) => Err(PathError::IllegalChar(unit)),
        None => Ok(()),
    }
}

// Refuses an empty path, and else at the first component that is empty or has a denied unit.
pub fn validate_path(path: &Path) -> Result<(), PathError>
    ensures value { refusal_of path_error result ≡ validate (units_of path.now) }
    ensures law { is_ok result ≡ valid (units_of path.now) }
    ensures examples { WorkedExamples }
{
    if path.is_empty() {
        return Err(PathError::Empty);
    }
    for component in path.components() {
        validate_component(component)?;
    }
    Ok(())
}
