// How a file is opened, and the attributes of a file.
ghost use Rattle.std.specs.Prelude.{◌≡◌, ℕ, ◌^◌, MatchResult, ◌==◌, ◌≢◌, bit_and};
ghost use Rattle.uefi_types.specs.Modes.{mode_bits, has_bit, read_only_bit, hidden_bit, system_bit, directory_bit, archive_bit};

use std::error::Error;
use std::fmt;

// The legal combinations of the mode bits.
#[derive(Clone, Copy, PartialEq, Eq, Debug)]
pub enum FileMode {
    Read,
    ReadWrite,
    CreateReadWrite,
}

impl FileMode {
    const READ: u64 = 1;

    const READ_WRITE: u64 = 1 | 2;

    const CREATE_READ_WRITE: u64 = 1 << 63 | 1 | 2;
}

// The number by which the firmware knows the mode.
impl From<FileMode> for u64 {
    ghost from_gives = { λ mode bits. bits ≡ mode_bits mode };

    fn from(mode: FileMode) -> u64 {
        match mode {
            FileMode::Read => FileMode::READ,
            FileMode::ReadWrite => FileMode::READ_WRITE,
            FileMode::CreateReadWrite => FileMode::CREATE_READ_WRITE,
        }
    }
}

// The number is no mode's.
#[derive(Clone, Copy, PartialEq, Eq, Debug)]
pub struct NoMode(pub u64);

impl TryFrom<u64> for FileMode {
    ghost use Rattle.uefi_types.specs.declared.modes.FileMode.{FileMode};

    type Error = NoMode;

    ghost try_from_gives = { λ bits r. MatchResult r (λ m. mode_bits m ≡ bits) (λ e. (e.0 ≡ bits) × ((m : FileMode) → mode_bits m ≢ bits)) };

    fn try_from(bits: u64) -> Result<FileMode, NoMode> {
        match bits {
            FileMode::READ => Ok(FileMode::Read),
            FileMode::READ_WRITE => Ok(FileMode::ReadWrite),
            FileMode::CREATE_READ_WRITE => Ok(FileMode::CreateReadWrite),
            _ => Err(NoMode(bits)),
        }
    }
}

impl fmt::Display for NoMode {
    fn fmt<W: fmt::Write>(&self, f: &mut fmt::Formatter<W>) -> fmt::Result {
        write!(f, "{:X}h is no open mode", self.0)
    }
}

impl Error for NoMode {}

// The attribute bits of a file. By hand, since what the kit's `bitflags!` writes has no contracts.
#[derive(Clone, Copy, PartialEq, Eq, Debug)]
pub struct FileAttribute(pub u64);

impl FileAttribute {
    pub const READ_ONLY: FileAttribute = FileAttribute(0x01);

    pub const HIDDEN: FileAttribute = FileAttribute(0x02);

    pub const SYSTEM: FileAttribute = FileAttribute(0x04);

    pub const RESERVED: FileAttribute = FileAttribute(0x08);

    pub const DIRECTORY: FileAttribute = FileAttribute(0x10);

    pub const ARCHIVE: FileAttribute = FileAttribute(0x20);

    // Whether all bits of another are among these.
    pub fn contains(self, other: FileAttribute) -> bool
        ensures value { result ≡ (bit_and self.0 other.0 == other.0) }
        ensures bit { (k : ℕ) → other.0 ≡ 2 ^ k → result ≡ has_bit k self.0 }
        ensures read_only { other ≡ FileAttribute.READ_ONLY → result ≡ has_bit read_only_bit self.0 }
        ensures hidden { other ≡ FileAttribute.HIDDEN → result ≡ has_bit hidden_bit self.0 }
        ensures system { other ≡ FileAttribute.SYSTEM → result ≡ has_bit system_bit self.0 }
        ensures directory { other ≡ FileAttribute.DIRECTORY → result ≡ has_bit directory_bit self.0 }
        ensures archive { other ≡ FileAttribute.ARCHIVE → result ≡ has_bit archive_bit self.0 }
    {
        self.0 & other.0 == other.0
    }
}
