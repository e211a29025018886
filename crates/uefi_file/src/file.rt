// What can be done with every handle: open from it, close it, delete its node, ask what it is.
ghost use Rattle.std.specs.Prelude.{◌≡◌, ℕ, Bool, true, false, Result};
ghost use Rattle.std.specs.Option.{option_map};
ghost use Rattle.std.specs.Result.{result_map_both};
ghost use Rattle.uefi_path.specs.Meaning.{units_of};
ghost use Rattle.uefi_result.specs.Errors.{told_err};
ghost use Rattle.volume.specs.Scripts.{Script, Runs};
ghost use Rattle.volume.specs.Tree.{route_of};
ghost use Rattle.uefi_file.specs.declared.handle.FileHandle.{FileHandle};
ghost use Rattle.uefi_file.specs.Boxes.{boxing};
ghost use Rattle.uefi_file.specs.Handles.{by_status, by_number, opening_volume, opening, closing, deleting, flushing, asking_regular, asking_directory, type_of, by_type, typing, of_kind, keeping};
ghost use Rattle.uefi_file.specs.Infos.{fetching_info};

use super::error::{opened, to_regular, without_payload};
use super::handle::{Directory, FileHandle, FileType, RegularFile};
use super::info::{header, with_needed};
use super::util::make_boxed;
use uefi_info::FileInfo;
use uefi_path::path::Path;
use uefi_result::Error;
use uefi_types::{FileAttribute, FileMode};
use volume::Volume;

// Opens the root of a volume.
pub fn open_volume<V: Volume>(v: &mut V) -> Result<FileHandle, Error>
    ensures { Runs opening_volume (V.Volume.meaning v.old) (by_number result) (V.Volume.meaning v.new) }
{
    opened(v.open_volume())
}

// What every handle can do, whatever is known of its kind. The volume is lent to each call, so that many handles can stand over one.
pub trait File: Sized {
    ghost handle: { Self → FileHandle };

    // what is asked to learn whether it is a regular file
    ghost asking: { Self → Script (Result Bool ℕ) };

    fn handle(&self) -> &FileHandle
        ensures { result.now ≡ handle self.now };

    // The handle, to be closed or deleted.
    fn into_handle(self) -> FileHandle
        ensures { result ≡ handle self };

    // Opens a path from this directory.
    fn open<V: Volume>(
        &self,
        v: &mut V,
        path: &Path,
        mode: FileMode,
        attribute: FileAttribute,
    ) -> Result<FileHandle, Error>
        ensures { Runs (opening (handle self.now).number (route_of (units_of path.now)) mode attribute.0) (V.Volume.meaning v.old) (by_number result) (V.Volume.meaning v.new) }
    {
        opened(v.open(self.handle().number, path, mode, attribute))
    }

    fn close<V: Volume>(self, v: &mut V)
        ensures { Runs (closing (handle self).number) (V.Volume.meaning v.old) result (V.Volume.meaning v.new) }
    {
        let FileHandle { number } = self.into_handle();
        let _ = v.close(number);
    }

    // Deletes the node. The handle is gone in any case.
    fn delete<V: Volume>(self, v: &mut V) -> Result<(), Error>
        ensures { Runs (deleting (handle self).number) (V.Volume.meaning v.old) (by_status result) (V.Volume.meaning v.new) }
    {
        let FileHandle { number } = self.into_handle();
        without_payload(v.delete(number))
    }

    // The record of what is open, fetched into a buffer.
    fn get_info<V: Volume>(
        &self,
        v: &mut V,
        buffer: &mut [u8],
    ) -> Result<FileInfo, Error<Option<usize>>>
        ensures { Runs (fetching_info (handle self.now).number buffer.old) (V.Volume.meaning v.old) (told_err result, buffer.new) (V.Volume.meaning v.new) }
    {
        let written = v
            .get_info(self.handle().number, buffer)
            .map_err(with_needed)?;
        header(buffer, written)
    }

    fn flush<V: Volume>(&self, v: &mut V) -> Result<(), Error>
        ensures { Runs (flushing (handle self.now).number) (V.Volume.meaning v.old) (by_status result) (V.Volume.meaning v.new) }
    {
        without_payload(v.flush(self.handle().number))
    }

    // The record of what is open, fetched in two calls.
    fn get_boxed_info<V: Volume>(&self, v: &mut V, buffer: &mut [u8]) -> Result<FileInfo, Error>
        ensures { Runs (boxing (fetching_info (handle self.now).number) buffer.old) (V.Volume.meaning v.old) (by_status result, buffer.new) (V.Volume.meaning v.new) }
    {
        make_boxed(self.handle(), v, buffer)
    }

    fn is_regular_file<V: Volume>(&self, v: &mut V) -> Result<bool, Error>
        ensures { Runs (asking self.now) (V.Volume.meaning v.old) (by_status result) (V.Volume.meaning v.new) };

    fn is_directory<V: Volume>(&self, v: &mut V) -> Result<bool, Error>
        ensures { Runs (asking_directory (asking self.now)) (V.Volume.meaning v.old) (by_status result) (V.Volume.meaning v.new) }
    {
        Ok(!self.is_regular_file(v)?)
    }
}

impl File for FileHandle {
    ghost handle = { λ h. h };

    ghost asking = { λ h. asking_regular h.number };

    fn handle(&self) -> &FileHandle {
        self
    }

    fn into_handle(self) -> FileHandle {
        self
    }

    // A file has a position, and a directory refuses to tell one with UNSUPPORTED.
    fn is_regular_file<V: Volume>(&self, v: &mut V) -> Result<bool, Error> {
        to_regular(v.get_position(self.number))
    }
}

impl FileHandle {
    // What it is. A handle that cannot be asked is closed.
    pub fn into_type<V: Volume>(self, v: &mut V) -> Result<FileType, Error>
        ensures { Runs (typing self.number) (V.Volume.meaning v.old) (by_type result) (V.Volume.meaning v.new) }
    {
        match self.is_regular_file(v) {
            Ok(true) => Ok(FileType::Regular(RegularFile { handle: self })),
            Ok(false) => Ok(FileType::Dir(Directory { handle: self })),
            Err(error) => {
                self.close(v);
                Err(error)
            }
        }
    }

    // The handle of one kind. Any other is closed.
    fn into_kind<T: Kind, V: Volume>(self, v: &mut V) -> Option<T>
        ensures { Runs (keeping T.Kind.regular self.number) (V.Volume.meaning v.old) (option_map (λ x. (T.File.handle x).number) result) (V.Volume.meaning v.new) }
    {
        match T::from_type(self.into_type(v).ok()?) {
            Ok(kept) => Some(kept),
            Err(other) => {
                other.close(v);
                None
            }
        }
    }

    // The directory that it is. Any other handle is closed.
    pub fn into_directory<V: Volume>(self, v: &mut V) -> Option<Directory>
        ensures { Runs (keeping false self.number) (V.Volume.meaning v.old) (option_map (λ d. d.handle.number) result) (V.Volume.meaning v.new) }
    {
        self.into_kind(v)
    }

    // The file that it is. Any other handle is closed.
    pub fn into_regular_file<V: Volume>(self, v: &mut V) -> Option<RegularFile>
        ensures { Runs (keeping true self.number) (V.Volume.meaning v.old) (option_map (λ f. f.handle.number) result) (V.Volume.meaning v.new) }
    {
        self.into_kind(v)
    }
}

// One kind of handles.
trait Kind: File {
    // whether it is that of files
    ghost regular: { Bool };

    // The handle of this kind, or the one of the other kind.
    fn from_type(file_type: FileType) -> Result<Self, FileHandle>
        ensures { of_kind regular (type_of file_type) ≡ result_map_both (λ x. (Self.File.handle x).number) (λ h. h.number) result };
}

impl Kind for RegularFile {
    ghost regular = { true };

    fn from_type(file_type: FileType) -> Result<RegularFile, FileHandle> {
        match file_type {
            FileType::Regular(file) => Ok(file),
            FileType::Dir(directory) => Err(directory.into_handle()),
        }
    }
}

impl Kind for Directory {
    ghost regular = { false };

    fn from_type(file_type: FileType) -> Result<Directory, FileHandle> {
        match file_type {
            FileType::Dir(directory) => Ok(directory),
            FileType::Regular(file) => Err(file.into_handle()),
        }
    }
}
