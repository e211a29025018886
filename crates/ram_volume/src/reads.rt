// How files are read and written, and what is told of nodes.
ghost use Rattle.std.specs.Prelude.{◌≡◌, ℕ, ◌≤◌, [], length, if◌then◌else◌, nat_eq, Some as Just, None as Nothing, Ok as Accepted, MatchOption};
ghost use Rattle.volume.specs.Answers.{delivered, filled};
ghost use Rattle.volume.specs.Calls.{ReadOf};
ghost use Rattle.volume.specs.Records.{name_of as name_of_node, AtEnd};
ghost use Rattle.volume.specs.Tree.{Node};
ghost use Rattle.volume.specs.declared.handle.NodeKind.TheVariants.{File};
ghost use Rattle.block_store.specs.Files.{capacity};
ghost use Rattle.ram_tables.specs.Tables.{name_of_row};
ghost use Rattle.ram_tables.specs.Meaning.{rows_of, handles_of};
ghost use Rattle.ram_volume.specs.Standing.{There, On};
ghost use Rattle.ram_volume.specs.Meaning.{ram_held};
ghost use Rattle.ram_volume.specs.Moves.{Wrote};
ghost use Rattle.ram_volume.specs.Telling.{Describes, Listing};

use super::about::About;
use super::at::At;
use super::types::Held;
use block_store::store::BlockStore;
use ram_tables::{DOT, Listed, ROOT, Row};
use volume::Handle;

// The name by which a node goes; the root has none.
fn name_of(n: usize, row: &Row) -> &[u16]
    ensures { result.now ≡ (if nat_eq n 0 then [] else name_of_row row.now) }
{
    if n == ROOT { &[] } else { row.units() }
}

impl<S: BlockStore> Held<S> {
    // What is told of a node that is there; the root has no name.
    pub(super) fn about(&self, n: usize) -> About<'_>
        requires { There (rows_of self.now.nodes) n }
        ensures { (x : Node) → (ram_held S.BlockStore.contents self.now).nodes n ≡ Just x → Describes result x.content (name_of_node n x) }
    {
        let row = self.nodes.row(n).unwrap();
        let name = name_of(n, row);
        if row.directory {
            About::directory(name)
        } else {
            About::file(self.store.len(n), name)
        }
    }

    // What stands in a directory at the position of a handle or next after it, and its place; none at the end.
    pub(super) fn next(&self, handle: Handle) -> Option<(u64, About<'_>)>
        ensures { MatchOption result (AtEnd (ram_held S.BlockStore.contents self.now).nodes handle.node handle.position) (λ x. Listing (ram_held S.BlockStore.contents self.now).nodes handle.node handle.position x.0 x.1) }
    {
        match self.nodes.next(handle.node as usize, handle.position)? {
            Listed::Dot => Some((0, About::directory(&[DOT]))),
            Listed::DotDot => Some((1, About::directory(&[DOT, DOT]))),
            Listed::Child(n) => Some((n as u64 + 2, self.about(n))),
        }
    }

    // Reads bytes of a file, and moves the handle along.
    pub(super) fn read(&mut self, at: At, buffer: &mut [u8]) -> usize
        requires on { On (rows_of self.old.nodes) (handles_of self.old.handles) at }
        requires of_file { at.kind ≡ File }
        ensures held { ReadOf (ram_held S.BlockStore.contents self.old) Nothing at.number (length buffer.old) at.handle (delivered (Accepted result) buffer.new) (ram_held S.BlockStore.contents self.new) }
        ensures fills { buffer.new ≡ filled buffer.old (delivered (Accepted result) buffer.new) }
        ensures within { result ≤ length buffer.old }
    {
        let Handle { node, position, .. } = at.handle;
        let count = self.store.read(node as usize, position as usize, buffer);
        self.advance(at, position + count as u64);
        count
    }

    // Writes as many of the bytes into a file as its capacity takes, and moves the handle along.
    // Not one function with `read`: the store is lent there and changed here.
    pub(super) fn write(&mut self, at: At, bytes: &[u8]) -> usize
        requires on { On (rows_of self.old.nodes) (handles_of self.old.handles) at }
        requires of_file { at.kind ≡ File }
        ensures { Wrote (ram_held S.BlockStore.contents self.old) (capacity (S.BlockStore.contents self.old.store) (S.BlockStore.free self.old.store)) at.number bytes.now at.handle result (ram_held S.BlockStore.contents self.new) }
    {
        let Handle { node, position, .. } = at.handle;
        let count = self.store.write(node as usize, position as usize, bytes);
        self.advance(at, position + count as u64);
        count
    }
}
