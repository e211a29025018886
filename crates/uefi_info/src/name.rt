// The name of a record: a view of its 16-bit units in the caller's buffer.
ghost use Rattle.std.specs.Prelude.{◌≡◌, ◌+◌, ◌*◌, ◌≤◌, length, Some, IfSome, ◌==◌};
ghost use Rattle.uefi_types.specs.LittleEndian.{le_value};
ghost use Rattle.std.specs.Iterator.{YieldsFirst, item_count};
ghost use Rattle.std.specs.List.{slice_get};
ghost use Rattle.uefi_info.specs.Names.{units_left};
ghost use Rattle.uefi_info.specs.Records.{units_of, name_length};
ghost use Rattle.uefi_info.specs.Parsed.{copying, written};
ghost use Rattle.uefi_info.specs.Refusals.{short_refused, short_text};

use std::error::Error;
use std::fmt;

#[derive(Clone, Copy)]
pub struct Name<'a> {
    // two bytes for each unit, without the NUL
    pub bytes: &'a [u8],
}

// The buffer has too few places; this many are needed.
#[derive(Clone, Copy, PartialEq, Eq, Debug)]
pub struct ShortBuffer {
    pub needed: usize,
}

impl fmt::Display for ShortBuffer {
    ghost output = { λ e. Some (short_text e) };

    fn fmt<W: fmt::Write>(&self, f: &mut fmt::Formatter<W>) -> fmt::Result {
        let needed = self.needed;
        write!(f, "the buffer is too short, {needed} are needed")
    }
}

impl Error for ShortBuffer {}

impl<'a> Name<'a> {
    // How many units it has.
    pub fn len(&self) -> usize
        ensures { result ≡ length (units_of self.now.bytes.now) }
    {
        self.bytes.len() / 2
    }

    pub fn is_empty(&self) -> bool
        ensures { result ≡ (length (units_of self.now.bytes.now) == 0) }
    {
        self.len() == 0
    }

    // The units, in turn.
    pub fn units(&self) -> Units<'a>
        ensures { units_left result ≡ units_of self.now.bytes.now }
    {
        Units { bytes: self.bytes }
    }

    // The unit at a place.
    pub fn unit(&self, place: usize) -> Option<u16>
        ensures { result ≡ slice_get (units_of self.now.bytes.now) place }
    {
        let (pairs, _) = self.bytes.as_chunks::<2>();
        pairs.get(place).map(unit_of)
    }

    // Copies the units to the front of a buffer, and answers how many they are. A refusal leaves the buffer as it was.
    pub fn copy_to(&self, out: &mut [u16]) -> Result<usize, ShortBuffer>
        ensures value { short_refused result ≡ copying (units_of self.now.bytes.now) out.old }
        ensures after { out.new ≡ written (units_of self.now.bytes.now) (short_refused result) out.old }
    {
        let count = self.len();
        if out.len() < count {
            return Err(ShortBuffer { needed: count });
        }
        // by place: of units behind a `zip` of `iter_mut` a proof knows only how many they are
        for (place, unit) in self.units().enumerate() {
            out[place] = unit;
        }
        Ok(count)
    }
}

// The units of a name that are still to come.
#[derive(Drop)]
pub struct Units<'a> {
    bytes: &'a [u8],
}

impl Iterator for Units<'_> {
    type Item = u16;

    ghost next_gives = { YieldsFirst units_left };

    ghost remaining = { item_count units_left };

    fn next(&mut self) -> Option<u16> {
        let (pair, rest) = self.bytes.split_first_chunk::<2>()?;
        self.bytes = rest;
        Some(unit_of(pair))
    }
}

fn unit_of(pair: &[u8; 2]) -> u16
    ensures { result ≡ le_value pair.now }
{
    u16::from_le_bytes(*pair)
}

// How many units stand before the first NUL.
pub(super) fn name_len(bytes: &[u8]) -> Option<usize>
    ensures value { result ≡ name_length bytes.now }
    ensures bound { IfSome result (λ n. 2 * (n + 1) ≤ length bytes.now) }
{
    Units { bytes }.position(|unit| unit == 0)
}
