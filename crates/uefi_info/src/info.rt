// Records that end in a name: one reader and one builder for all of them.
ghost use Rattle.std.specs.Prelude.{◌≡◌, ℕ, ◌*◌, ◌^◌, ◌<◌, ◌≤◌, List, ◌++◌, length, take, drop, Some, OnOk, if◌then◌else◌, nat_lt};
ghost use Rattle.uefi_result.specs.Errors.{told};
ghost use Rattle.uefi_info.specs.Parsed.{from_uefi, OneUnitName, Reads, Rebuilds, ReadsBack, building, built, heading};
ghost use Rattle.uefi_info.specs.Refusals.{read_refusal, read_refusal_text, refused, refusal_text, short_refused, told_info};
ghost use Rattle.uefi_info.specs.Records.{unit_bytes, record_size, record_length};

use crate::name::{Name, ShortBuffer, name_len};
use std::fmt;
use uefi_result::{Error, Status};
use uefi_types::{Align, first_bad_unit, part};

// A record by its header, which stands before its name.
pub trait InfoInternal: Align + Sized {
    // where the name starts
    ghost offset: { ℕ };

    // the header that bytes hold, and the bytes of a header
    ghost header_of: { List ℕ → Self };

    ghost header_bytes: { Self → List ℕ };

    // the bytes of a header that a build would write
    ghost clean: { List ℕ → Type 0 };

    fn name_offset() -> usize
        ensures { result ≡ offset };

    // Reads the header; bytes past the end count as zero.
    fn read_header(bytes: &[u8]) -> Self
        ensures value { result ≡ header_of bytes.now }
        ensures back { offset ≤ length bytes.now → clean bytes.now → header_bytes result ≡ take offset bytes.now };

    // Writes the header in front. A buffer with no room for it is refused, and left as it was.
    fn write_header(&self, out: &mut [u8]) -> Result<(), ShortBuffer>
        ensures value { short_refused result ≡ heading offset out.old }
        ensures after { out.new ≡ (if nat_lt (length out.old) offset then out.old else header_bytes self.now ++ drop offset out.old) }
        ensures back { OnOk result ((rest : List ℕ) → header_of (header_bytes self.now ++ rest) ≡ self.now) };

    ghost sized: { ((h : Self) → length (header_bytes h) ≡ offset) };

    ghost bounds: { offset < 2 ^ 16 };
}

// Why no record was read.
#[derive(Clone, Copy, PartialEq, Eq, Debug)]
pub enum FromUefiError {
    // The written bytes hold no whole name with its NUL.
    BadBufferSize,
    // The buffer has no room for the padded record, which needs this many bytes.
    BufferTooSmall(usize),
}

impl FromUefiError {
    pub fn status(&self) -> Status
        ensures { result.0 ≡ (read_refusal self.now).0 }
    {
        match self {
            FromUefiError::BadBufferSize => Status::BAD_BUFFER_SIZE,
            FromUefiError::BufferTooSmall(_) => Status::BUFFER_TOO_SMALL,
        }
    }

    // How many bytes would do, where that is known.
    pub fn needed(&self) -> Option<usize>
        ensures { result ≡ (read_refusal self.now).1 }
    {
        match self {
            FromUefiError::BadBufferSize => None,
            FromUefiError::BufferTooSmall(bytes) => Some(*bytes),
        }
    }
}

impl fmt::Display for FromUefiError {
    ghost output = { λ e. Some (read_refusal_text e) };

    fn fmt<W: fmt::Write>(&self, f: &mut fmt::Formatter<W>) -> fmt::Result {
        match self {
            FromUefiError::BadBufferSize => write!(f, "no whole name among the written bytes"),
            FromUefiError::BufferTooSmall(bytes) => write!(f, "{bytes} bytes needed"),
        }
    }
}

impl std::error::Error for FromUefiError {}

impl From<FromUefiError> for Error<Option<usize>> {
    ghost from_gives = { λ e r. told r ≡ read_refusal e };

    fn from(value: FromUefiError) -> Error<Option<usize>> {
        Error::new(value.status(), value.needed()).unwrap()
    }
}

// Why a record was not built.
#[derive(Clone, Copy, PartialEq, Eq, Debug)]
pub enum FileInfoCreationError {
    // The unit at this place of the name may stand in no text.
    BadUnit(usize),
    // The buffer is shorter than the record, which needs this many bytes.
    ShortBuffer(usize),
}

impl fmt::Display for FileInfoCreationError {
    ghost output = { λ e. Some (refusal_text e) };

    fn fmt<W: fmt::Write>(&self, f: &mut fmt::Formatter<W>) -> fmt::Result {
        match self {
            FileInfoCreationError::BadUnit(place) => write!(
                f,
                "the name's unit at {place} may stand in no text"
            ),
            FileInfoCreationError::ShortBuffer(bytes) => write!(
                f,
                "provided buffer was too small. need at least {bytes} bytes"
            ),
        }
    }
}

impl std::error::Error for FileInfoCreationError {}

// A record in a buffer: its header, and a view of its name.
#[derive(Clone, Copy)]
pub struct NamedInfo<'a, T> {
    pub header: T,
    pub name: Name<'a>,
}

// The record in a buffer of which the firmware wrote the first `written` bytes; no others are trusted.
// The count comes beside the buffer, as the rules have it: the buffer's own length says what room there is.
pub fn from_uefi<T: InfoInternal>(
    buffer: &[u8],
    written: usize,
) -> Result<NamedInfo<'_, T>, FromUefiError>
    ensures value { told_info result ≡ from_uefi T.header_of T.offset T.align buffer.now written }
    ensures law { Reads T.offset T.align buffer.now written (told_info result) }
    ensures back { Rebuilds T.header_bytes T.clean T.offset T.align buffer.now (told_info result) }
    ensures one_unit_name { OneUnitName T.header_of T.offset T.align buffer.now written (told_info result) }
{
    let offset = T::name_offset();
    let Some(units) = name_len(trusted(buffer, offset, written)) else {
        return Err(FromUefiError::BadBufferSize);
    };
    let needed = record_length::<T>(units);
    if buffer.len() < needed {
        return Err(FromUefiError::BufferTooSmall(needed));
    }
    let name = Name {
        bytes: part(buffer, offset, 2 * units),
    };
    Ok(NamedInfo {
        header: T::read_header(buffer),
        name,
    })
}

// The written bytes from an offset on.
fn trusted(buffer: &[u8], offset: usize, written: usize) -> &[u8]
    ensures { result.now ≡ drop offset (take written buffer.now) }
{
    let bytes = part(buffer, 0, written);
    part(bytes, offset, bytes.len())
}

// The size of a record whose name has so many units.
pub(super) fn record_size<T: InfoInternal>(units: usize) -> usize
    requires { units < 2 ^ 62 }
    ensures { result ≡ record_size T.offset units }
{
    T::name_offset() + 2 * (units + 1)
}

// The length of its padded bytes.
fn record_length<T: InfoInternal>(units: usize) -> usize
    requires { units < 2 ^ 62 }
    ensures { result ≡ record_length T.offset T.align units }
{
    let size = record_size::<T>(units);
    size + T::offset_up_to_alignment(size)
}

// Builds a record in front of a buffer, and answers its length. A refusal leaves the buffer as it was.
pub fn build<T: InfoInternal>(
    storage: &mut [u8],
    header: &T,
    name: &[u16],
) -> Result<usize, FileInfoCreationError>
    ensures value { refused result ≡ building T.offset T.align name.now storage.old }
    ensures after { storage.new ≡ built T.offset T.align name.now storage.old (T.header_bytes header.now) }
    ensures back { ReadsBack T.header_of T.offset T.align header.now name.now storage.new (refused result) }
{
    if let Some(place) = first_bad_unit(name) {
        return Err(FileInfoCreationError::BadUnit(place));
    }
    let needed = record_length::<T>(name.len());
    if storage.len() < needed {
        return Err(FileInfoCreationError::ShortBuffer(needed));
    }
    let offset = T::name_offset();
    let end = offset + 2 * name.len();
    header.write_header(&mut storage[0..offset]).unwrap();
    put_units(&mut storage[offset..end], name);
    // the NUL and the padding
    storage[end..needed].fill(0);
    Ok(needed)
}

// Writes the bytes of the units, for which there is room. By place: of bytes behind `chunks_exact_mut` a proof knows only how many they are.
fn put_units(out: &mut [u8], units: &[u16])
    requires { length out.old ≡ 2 * length units.now }
    ensures { out.new ≡ unit_bytes units.now }
{
    for (k, unit) in units.iter().enumerate() {
        out[2 * k..2 * k + 2].copy_from_slice(&unit.to_le_bytes());
    }
}
