// How the text of a line becomes the units of a path, and how it is shown.
use std::alloc::{AllocError, Global};
use std::fmt;

// Why a text is not taken as units.
#[derive(Drop)]
pub enum UnitsError {
    // The character at this place is above FFFFh, which is no unit.
    NotUcs2 { at: usize, character: char },
    OutOfMemory,
}

impl From<AllocError> for UnitsError {
    fn from(_error: AllocError) -> Self {
        UnitsError::OutOfMemory
    }
}

fn unit_of(at: usize, character: char) -> Result<u16, UnitsError> {
    u16::try_from(u32::from(character)).map_err(|_| UnitsError::NotUcs2 { at, character })
}

// A text as units: each character up to FFFFh is one unit; the first other one is refused, with its place.
pub fn units_of(heap: Global, text: &str) -> Result<Vec<u16>, UnitsError> {
    text.chars()
        .enumerate()
        .map(|(at, character)| unit_of(at, character))
        .try_collect(heap)
}

// A text with its control characters written out, as `<00h>`.
#[derive(Clone, Copy)]
pub struct Visible<'a>(pub &'a str);

impl fmt::Display for Visible<'_> {
    fn fmt<W: fmt::Write>(&self, f: &mut fmt::Formatter<W>) -> fmt::Result {
        for character in self.0.chars() {
            if character.is_ascii_control() {
                write!(f, "<{:02X}h>", u32::from(character))?;
            } else {
                f.write_char(character)?;
            }
        }
        Ok(())
    }
}
