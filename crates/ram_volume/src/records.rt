// Records of nodes.
ghost use Rattle.std.specs.Prelude.{◌≡◌, ℕ, ◌*◌, ◌≤◌, true, List, length, IfOk};
ghost use Rattle.uefi_types.specs.Units.{is_text};
ghost use Rattle.volume.specs.Answers.{delivered, filled, refusing};
ghost use Rattle.volume.specs.Tree.{directory as directory_content, file as file_content};
ghost use Rattle.block_store.specs.Files.{blocks_for};
ghost use Rattle.ram_volume.specs.Telling.{Told, Describes, unbuilt};

use super::about::About;
use super::refusals::{refusal, refusal_with};
use block_store::store::BLOCK;
use uefi_info::{FileInfo, FileInfoCreationError};
use uefi_result::{Error, Status};
use uefi_time::Time;
use uefi_types::FileAttribute;

// The refusal of a volume for a record that was not built; names of nodes have no bad units.
// A function and no `From`: both types are other crates'.
fn creation_refusal(error: FileInfoCreationError) -> Error<usize>
    ensures { refusing result ≡ unbuilt error }
{
    match error {
        FileInfoCreationError::ShortBuffer(len) => refusal_with(Status::BUFFER_TOO_SMALL, len),
        FileInfoCreationError::BadUnit(_) => refusal(Status::DEVICE_ERROR),
    }
}

impl<'a> About<'a> {
    // A directory that goes by a name.
    pub(super) fn directory(name: &'a [u16]) -> About<'a>
        requires { is_text name.now ≡ true }
        ensures { Describes result directory_content name.now }
    {
        About {
            size: 0,
            attribute: FileAttribute::DIRECTORY,
            name,
        }
    }

    // A file of so many bytes that goes by a name.
    pub(super) fn file(size: usize, name: &'a [u16]) -> About<'a>
        requires small { size ≤ 65536 }
        requires text { is_text name.now ≡ true }
        ensures { (bytes : List ℕ) → size ≡ length bytes → Describes result (file_content bytes) name.now }
    {
        About {
            size,
            attribute: FileAttribute(0),
            name,
        }
    }

    // As many bytes as the blocks of the file hold.
    fn physical_size(&self) -> u64
        ensures { result ≡ 512 * blocks_for self.now.size }
    {
        (BLOCK * self.size.div_ceil(BLOCK)) as u64
    }

    // Puts the record in front of a buffer, with times of zero.
    pub(super) fn tell(&self, buffer: &mut [u8]) -> Result<usize, Error<usize>>
        ensures told { Told self.now.size self.now.attribute.0 self.now.name.now (length buffer.old) (delivered result buffer.new) }
        ensures fills { buffer.new ≡ filled buffer.old (delivered result buffer.new) }
        ensures within { IfOk result (λ n. n ≤ length buffer.old) }
    {
        let zero = Time::invalid();
        let physical = self.physical_size();
        FileInfo::new(
            buffer,
            self.size as u64,
            physical,
            zero,
            zero,
            zero,
            self.attribute,
            self.name,
        )
        .map_err(creation_refusal)
    }
}
