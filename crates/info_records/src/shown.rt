// What records say, as text.
use std::fmt;
use uefi_info::{FileInfo, FileSystemInfo, FileSystemVolumeLabel, Name};
use uefi_time::{Time, TimeError};

// A value as this program prints it.
#[derive(Clone, Copy)]
pub struct Shown<T>(pub T);

// A name: printable ASCII as it is, and any other unit as `\` with its number.
impl fmt::Display for Shown<Name<'_>> {
    fn fmt<W: fmt::Write>(&self, f: &mut fmt::Formatter<W>) -> fmt::Result {
        for unit in self.0.units() {
            match u8::try_from(unit) {
                Ok(byte) if byte.is_ascii_graphic() && byte != b'\\' => {
                    let character = char::from(byte);
                    write!(f, "{character}")?;
                }
                _ => write!(f, "\\{unit:04x}")?,
            }
        }
        Ok(())
    }
}

impl fmt::Display for Shown<Time> {
    fn fmt<W: fmt::Write>(&self, f: &mut fmt::Formatter<W>) -> fmt::Result {
        let Time {
            year,
            month,
            day,
            hour,
            minute,
            second,
            nanosecond,
            time_zone,
            daylight,
            ..
        } = self.0;
        write!(
            f,
            "{year:04}-{month:02}-{day:02} {hour:02}:{minute:02}:{second:02}.{nanosecond:09}"
        )?;
        write!(f, " zone {time_zone} daylight {daylight}")?;
        match self.0.is_valid() {
            Ok(()) => write!(f, " valid"),
            Err(errors) => {
                let errors = Shown(errors);
                write!(f, " not valid:{errors}")
            }
        }
    }
}

// The fields that are outside of their range.
impl fmt::Display for Shown<TimeError> {
    fn fmt<W: fmt::Write>(&self, f: &mut fmt::Formatter<W>) -> fmt::Result {
        let fields = [
            (self.0.year, "year"),
            (self.0.month, "month"),
            (self.0.day, "day"),
            (self.0.hour, "hour"),
            (self.0.minute, "minute"),
            (self.0.second, "second"),
            (self.0.nanosecond, "nanosecond"),
            (self.0.timezone, "zone"),
            (self.0.daylight, "daylight"),
        ];
        for (is_outside, field) in fields {
            if is_outside {
                write!(f, " {field}")?;
            }
        }
        Ok(())
    }
}

impl fmt::Display for Shown<FileInfo> {
    fn fmt<W: fmt::Write>(&self, f: &mut fmt::Formatter<W>) -> fmt::Result {
        let info = self.0;
        let kind = if info.is_directory() {
            "directory"
        } else {
            "file"
        };
        let size = info.size();
        let file_size = info.file_size();
        let physical_size = info.physical_size();
        let created = Shown(*info.create_time());
        let accessed = Shown(*info.last_access_time());
        let modified = Shown(*info.modification_time());
        let attribute = info.attribute().0;
        write!(
            f,
            "{kind}, Size {size}, FileSize {file_size}, PhysicalSize {physical_size}"
        )?;
        write!(
            f,
            ", CreateTime {created}, LastAccessTime {accessed}, ModificationTime {modified}"
        )?;
        write!(f, ", Attribute {attribute}, FileName")
    }
}

impl fmt::Display for Shown<FileSystemInfo> {
    fn fmt<W: fmt::Write>(&self, f: &mut fmt::Formatter<W>) -> fmt::Result {
        let info = self.0;
        let size = info.size();
        let read_only = info.read_only();
        let volume_size = info.volume_size();
        let free_space = info.free_space();
        let block_size = info.block_size();
        write!(
            f,
            "volume, Size {size}, ReadOnly {read_only}, VolumeSize {volume_size}"
        )?;
        write!(
            f,
            ", FreeSpace {free_space}, BlockSize {block_size}, VolumeLabel"
        )
    }
}

impl fmt::Display for Shown<FileSystemVolumeLabel> {
    fn fmt<W: fmt::Write>(&self, f: &mut fmt::Formatter<W>) -> fmt::Result {
        write!(f, "label, VolumeLabel")
    }
}
