// A line's answer: what a record says, a record that is built, or why there is none.
use crate::fields::{Fault, Words};
use crate::shown::Shown;
use std::alloc::{AllocError, Global};
use std::fmt::Display;
use uefi_info::{
    FileInfo, FileInfoCreationError, FileSystemInfo, FileSystemVolumeLabel, InfoInternal,
    NamedInfo, from_uefi,
};
use uefi_result::Status;
use uefi_types::FileAttribute;

// A line that begins with `#`, or is empty, is its own answer.
pub fn answer(heap: Global, line: &str) -> Result<String, AllocError> {
    if line.is_empty() || line.starts_with('#') {
        return String::from_str(heap, line);
    }
    match command(&mut Words::new(heap, line)) {
        Ok(text) => Ok(text),
        Err(Fault::Field(what)) => format!(in heap; "not understood: {what}"),
        Err(Fault::Memory) => Err(AllocError),
    }
}

fn command(words: &mut Words) -> Result<String, Fault> {
    match words.word() {
        "status" => status(words),
        "time" => {
            let time = Shown(words.time("time")?);
            Ok(format!(in words.heap; "{time}")?)
        }
        "read" => read(words),
        "build" => build(words),
        _ => Err(Fault::Field("command")),
    }
}

fn status(words: &mut Words) -> Result<String, Fault> {
    let status = Status(words.number("status")?);
    let kind = if status.is_success() {
        "success"
    } else if status.is_error() {
        "error"
    } else {
        "warning"
    };
    Ok(format!(in words.heap; "{kind} {status}")?)
}

// `read KIND WRITTEN BYTES`, by a match and no table of functions, since each kind of record has a type of its own.
fn read(words: &mut Words) -> Result<String, Fault> {
    let kind = words.word();
    let written = words.number("written")?;
    let bytes = words.bytes()?;
    match kind {
        "file" => read_as::<FileInfo>(words.heap, &bytes, written),
        "volume" => read_as::<FileSystemInfo>(words.heap, &bytes, written),
        "label" => read_as::<FileSystemVolumeLabel>(words.heap, &bytes, written),
        _ => Err(Fault::Field("kind")),
    }
}

fn read_as<T: InfoInternal + Drop>(
    heap: Global,
    bytes: &[u8],
    written: usize,
) -> Result<String, Fault>
where
    Shown<T>: Display + Drop,
{
    match from_uefi::<T>(bytes, written) {
        Ok(NamedInfo { header, name }) => {
            let header = Shown(header);
            let name = Shown(name);
            Ok(format!(in heap; "{header} {name}")?)
        }
        Err(error) => {
            let status = error.status();
            Ok(format!(in heap; "refused: {status}, {error}")?)
        }
    }
}

// `build KIND LENGTH FIELD.. NAME`, in a buffer of that length, whose bytes are all eeh.
fn build(words: &mut Words) -> Result<String, Fault> {
    let kind = words.word();
    let length = words.number("length")?;
    let mut buffer: Vec<u8> = vec![in words.heap; 0xee; length]?;
    let answer = match kind {
        "file" => build_file(&mut buffer, words)?,
        "volume" => build_volume(&mut buffer, words)?,
        "label" => FileSystemVolumeLabel::new(&mut buffer, &words.name()?),
        _ => return Err(Fault::Field("kind")),
    };
    let bytes = hex::encode(words.heap, &buffer)?;
    match answer {
        Ok(length) => Ok(format!(in words.heap; "built {length} bytes: {bytes}")?),
        Err(error) => Ok(format!(in words.heap; "refused: {error}: {bytes}")?),
    }
}

// What building a record answers, where the line has its fields.
type Built = Result<Result<usize, FileInfoCreationError>, Fault>;

fn build_file(buffer: &mut [u8], words: &mut Words) -> Built {
    let file_size = words.number("file size")?;
    let physical_size = words.number("physical size")?;
    let created = words.time("create time")?;
    let accessed = words.time("last access time")?;
    let modified = words.time("modification time")?;
    let attribute = FileAttribute(words.number("attribute")?);
    let name = words.name()?;
    Ok(FileInfo::new(
        buffer,
        file_size,
        physical_size,
        created,
        accessed,
        modified,
        attribute,
        &name,
    ))
}

fn build_volume(buffer: &mut [u8], words: &mut Words) -> Built {
    let read_only = words.number::<u64>("read only")? != 0;
    let volume_size = words.number("volume size")?;
    let free_space = words.number("free space")?;
    let block_size = words.number("block size")?;
    let name = words.name()?;
    Ok(FileSystemInfo::new(
        buffer,
        read_only,
        volume_size,
        free_space,
        block_size,
        &name,
    ))
}
