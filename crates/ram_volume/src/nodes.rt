// How nodes come and go.
ghost use Rattle.std.specs.Prelude.{◌≡◌, ℕ, true, Some as Just, ◌≢◌};
ghost use Rattle.ram_tables.specs.Tables.{row};
ghost use Rattle.ram_tables.specs.Meaning.{rows_of, handles_of};
ghost use Rattle.ram_volume.specs.Standing.{There};
ghost use Rattle.ram_volume.specs.Meaning.{ram_held};
ghost use Rattle.ram_volume.specs.Moves.{Creates, Deletes, Freed};

use super::types::Held;
use block_store::store::BlockStore;
use ram_tables::{EnterError, Entered};
use uefi_types::FileAttribute;
use volume::Handle;

impl<S: BlockStore> Held<S> {
    // The node of a name in a directory; where there is none, it is made, and a file begins empty.
    pub(super) fn create(
        &mut self,
        d: usize,
        name: &[u16],
        attribute: FileAttribute,
    ) -> Result<usize, EnterError>
        ensures { Creates (ram_held S.BlockStore.contents self.old) d name.now attribute.0 result (ram_held S.BlockStore.contents self.new) }
    {
        match self
            .nodes
            .enter(d, name, attribute.contains(FileAttribute::DIRECTORY))?
        {
            Entered::Found(n) => Ok(n),
            Entered::Made(n) => {
                self.store.clear(n);
                Ok(n)
            }
        }
    }

    // Removes a node that no handle is on, and frees its bytes; the root and a node that has entries stay.
    // It answers whether it did, as a set's `remove`.
    pub(super) fn remove(&mut self, n: usize) -> bool
        requires there { There (rows_of self.old.nodes) n }
        requires unheld { (k : ℕ) (h : Handle) → row (handles_of self.old.handles) k ≡ Just h → h.node ≢ n }
        ensures held { Deletes (ram_held S.BlockStore.contents self.old) n result (ram_held S.BlockStore.contents self.new) }
        ensures freed { result ≡ true → Freed (S.BlockStore.contents self.old.store) (S.BlockStore.free self.old.store) n (S.BlockStore.contents self.new.store) (S.BlockStore.free self.new.store) }
    {
        let removed = self.nodes.remove(n);
        if removed {
            self.store.clear(n);
        }
        removed
    }
}
