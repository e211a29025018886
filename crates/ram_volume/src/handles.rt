// How handles begin, move and end.
ghost use Rattle.std.specs.Prelude.{◌≡◌, ℕ, ◌<◌, ◌≤◌, [], Some as Just, None as Nothing, slice_set, MatchResult};
ghost use Rattle.volume.specs.Answers.{refusing};
ghost use Rattle.uefi_result.specs.StatusCodes.{device_error, out_of_resources};
ghost use Rattle.volume.specs.Calls.{Opened, on, accepted, refused};
ghost use Rattle.volume.specs.State.{misuse, closed, moved};
ghost use Rattle.ram_tables.specs.Tables.{row, count};
ghost use Rattle.ram_tables.specs.Meaning.{rows_of, handles_of};
ghost use Rattle.ram_volume.specs.Standing.{There, Vacant, StandsAt};
ghost use Rattle.ram_volume.specs.Meaning.{ram_held};

use super::at::At;
use super::refusals::refusal;
use super::types::Held;
use block_store::store::BlockStore;
use uefi_result::{Error, Status};
use volume::{Handle, NodeKind};

impl<S: BlockStore> Held<S> {
    // The handle that is open under a number.
    pub(super) fn at(&self, number: u64) -> Option<At>
        ensures { StandsAt (rows_of self.now.nodes) (handles_of self.now.handles) number result }
    {
        let handle = self.handles.get(number)?;
        let row = self.nodes.row(handle.node as usize)?;
        let kind = if row.directory {
            NodeKind::Directory
        } else {
            NodeKind::File
        };
        Some(At {
            number,
            handle,
            kind,
        })
    }

    // A call named a handle that is not open.
    pub(super) fn misuse(&mut self) -> Error<usize>
        ensures answer { refusing result ≡ refused device_error 0 }
        ensures held { ram_held S.BlockStore.contents self.new ≡ misuse (ram_held S.BlockStore.contents self.old) }
    {
        self.misused = true;
        refusal(Status::DEVICE_ERROR)
    }

    // A number for a new handle, where one is left.
    pub(super) fn vacant(&self) -> Result<u64, Error<usize>>
        ensures { MatchResult result (λ k. Vacant (handles_of self.now.handles) k × (count (handles_of self.now.handles) < 16)) (λ e. (16 ≤ count (handles_of self.now.handles)) × (refusing e ≡ refused out_of_resources 0)) }
    {
        self.handles
            .vacant()
            .ok_or(refusal(Status::OUT_OF_RESOURCES))
    }

    // Opens a handle on a node, under a number that has none.
    pub(super) fn begin(&mut self, number: u64, node: usize, writable: bool)
        requires vacant { Vacant (handles_of self.old.handles) number }
        requires there { There (rows_of self.old.nodes) node }
        ensures { Opened (on node writable) (ram_held S.BlockStore.contents self.old) (accepted number []) (ram_held S.BlockStore.contents self.new) }
    {
        let handle = Handle {
            node: node as u64,
            position: 0,
            writable,
        };
        self.handles.put(number, Some(handle));
    }

    // Ends a handle.
    pub(super) fn end(&mut self, at: At)
        requires { row (handles_of self.old.handles) at.number ≡ Just at.handle }
        ensures held { ram_held S.BlockStore.contents self.new ≡ closed at.number (ram_held S.BlockStore.contents self.old) }
        ensures handles { handles_of self.new.handles ≡ slice_set (handles_of self.old.handles) at.number Nothing }
        ensures nodes { rows_of self.new.nodes ≡ rows_of self.old.nodes }
        ensures store { self.new.store ≡ self.old.store }
    {
        self.handles.put(at.number, None);
    }

    // Moves a handle to a position.
    pub(super) fn advance(&mut self, at: At, position: u64)
        requires { row (handles_of self.old.handles) at.number ≡ Just at.handle }
        ensures { ram_held S.BlockStore.contents self.new ≡ moved at.number at.handle position (ram_held S.BlockStore.contents self.old) }
    {
        let moved = Handle {
            position,
            ..at.handle
        };
        self.handles.put(at.number, Some(moved));
    }
}
