// Files: read in turns, and written.
ghost use Rattle.std.specs.Prelude.{◌≡◌, ◌-◌, ◌≤◌, min, true, Ok};
ghost use Rattle.uefi_result.specs.Errors.{told_err};
ghost use Rattle.volume.specs.Scripts.{Runs, done};
ghost use Rattle.uefi_file.specs.Handles.{by_status, writing, positioning};
ghost use Rattle.uefi_file.specs.Reads.{chunk, reading};

use super::error::{to_position, without_payload};
use super::file::File;
use super::handle::{FileHandle, RegularFile};
use uefi_result::Error;
use volume::Volume;

// The most bytes of one turn.
const CHUNK_SIZE: usize = 1024 * 1024;

impl RegularFile {
    // Writes at the position. An error tells how many bytes were written.
    pub fn write<V: Volume>(&self, v: &mut V, bytes: &[u8]) -> Result<(), Error<usize>>
        ensures { Runs (writing self.now.handle.number bytes.now) (V.Volume.meaning v.old) (told_err result) (V.Volume.meaning v.new) }
    {
        v.write(self.handle.number, bytes)
    }

    pub fn get_position<V: Volume>(&self, v: &mut V) -> Result<u64, Error>
        ensures { Runs (positioning self.now.handle.number) (V.Volume.meaning v.old) (by_status result) (V.Volume.meaning v.new) }
    {
        to_position(v.get_position(self.handle.number))
    }

    // Reads in turns until the buffer is full or a turn comes short.
    pub fn read<V: Volume>(&self, v: &mut V, buffer: &mut [u8]) -> Result<usize, Error>
        ensures { Runs (reading self.now.handle.number buffer.old) (V.Volume.meaning v.old) (by_status result, buffer.new) (V.Volume.meaning v.new) }
    {
        read_chunked(v, self.handle.number, buffer)
    }
}

impl File for RegularFile {
    ghost handle = { λ f. f.handle };

    ghost asking = { λ _. done (Ok true) };

    fn handle(&self) -> &FileHandle {
        &self.handle
    }

    fn into_handle(self) -> FileHandle {
        let RegularFile { handle } = self;
        handle
    }

    // Its type says so, and no call is needed.
    fn is_regular_file<V: Volume>(&self, _v: &mut V) -> Result<bool, Error> {
        Ok(true)
    }
}

// How many bytes a turn asks for that begins at a place of a buffer.
fn turn_size(len: usize, start: usize) -> usize
    requires { start ≤ len }
    ensures { result ≡ min (len - start) chunk }
{
    (len - start).min(CHUNK_SIZE)
}

// By the starts of its turns: of what `chunks_mut` lends, no proof knows the bytes afterwards.
fn read_chunked<V: Volume>(v: &mut V, number: u64, buffer: &mut [u8]) -> Result<usize, Error>
    ensures { Runs (reading number buffer.old) (V.Volume.meaning v.old) (by_status result, buffer.new) (V.Volume.meaning v.new) }
{
    let len = buffer.len();
    for start in (0..len).step_by(CHUNK_SIZE) {
        let asked = turn_size(len, start);
        let read = without_payload(v.read(number, &mut buffer[start..start + asked]))?;
        if read < asked {
            return Ok(start + read);
        }
    }
    Ok(len)
}
