// What is opened by a path.
ghost use Rattle.std.specs.Prelude.{◌≡◌, ℕ};
ghost use Rattle.uefi_path.specs.Meaning.{units_of};
ghost use Rattle.volume.specs.Answers.{refusing};
ghost use Rattle.volume.specs.Calls.{writes, refused, Ends, Walk};
ghost use Rattle.volume.specs.Tree.{route_of, directory as directory_content, Holds};
ghost use Rattle.ram_volume.specs.Meaning.{ram_held};
ghost use Rattle.ram_volume.specs.Moves.{Reaches, not_entered};

use super::refusals::refusal;
use super::types::Held;
use block_store::store::BlockStore;
use ram_tables::{EnterError, Led};
use uefi_path::path::Path;
use uefi_result::{Error, Status};
use uefi_types::{FileAttribute, FileMode};

// Whether a handle that is opened so may write.
pub(super) fn is_writing(mode: FileMode) -> bool
    ensures { result ≡ writes mode }
{
    match mode {
        FileMode::Read => false,
        FileMode::ReadWrite | FileMode::CreateReadWrite => true,
    }
}

// The refusal of a volume for a name that was not entered. A function and no `From`: both types are other crates'.
fn enter_refusal(error: EnterError) -> Error<usize>
    ensures { refusing result ≡ refused (not_entered error) 0 }
{
    refusal(match error {
        EnterError::NotADirectory => Status::NOT_FOUND,
        EnterError::BadName => Status::INVALID_PARAMETER,
        EnterError::Full => Status::VOLUME_FULL,
    })
}

impl<S: BlockStore> Held<S> {
    // The node of the last component of a path in a directory, which is made where the mode creates.
    fn find_last(
        &mut self,
        d: usize,
        name: &[u16],
        mode: FileMode,
        attribute: FileAttribute,
    ) -> Result<usize, Error<usize>>
        requires { Holds (ram_held S.BlockStore.contents self.old).nodes d directory_content }
        ensures { Reaches (Ends (ram_held S.BlockStore.contents self.old) d name.now mode attribute.0) (writes mode) (ram_held S.BlockStore.contents self.old) result (ram_held S.BlockStore.contents self.new) }
    {
        match mode {
            FileMode::CreateReadWrite => self.create(d, name, attribute).map_err(enter_refusal),
            FileMode::Read | FileMode::ReadWrite => self
                .nodes
                .entry(d, name)
                .ok_or(refusal(Status::NOT_FOUND)),
        }
    }

    // The node of a path from a directory, which is made where the mode creates.
    pub(super) fn find(
        &mut self,
        from: usize,
        path: &Path,
        mode: FileMode,
        attribute: FileAttribute,
    ) -> Result<usize, Error<usize>>
        requires { Holds (ram_held S.BlockStore.contents self.old).nodes from directory_content }
        ensures { Reaches (Walk (ram_held S.BlockStore.contents self.old) from (route_of (units_of path.now)) mode attribute.0) (writes mode) (ram_held S.BlockStore.contents self.old) result (ram_held S.BlockStore.contents self.new) }
    {
        match self.nodes.lead(from, path) {
            Some(Led::Own) => Ok(from),
            Some(Led::Last(d, name)) => self.find_last(d, name, mode, attribute),
            None => Err(refusal(Status::NOT_FOUND)),
        }
    }
}
