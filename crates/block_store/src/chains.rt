// How blocks are found in a chain, and move from one chain to another.
ghost use Rattle.std.specs.Prelude.{◌≡◌, ℕ, ◌+◌, ◌-◌, ◌*◌, ◌<◌, ◌≤◌, length, slice_index, MatchOption};
ghost use Rattle.block_store.specs.Places.{placed, held_by, Grown, Emptied, Fresh, Resized};

use super::types::{Chain, Chains, File, SLOTS, Slot};
use std::array;

impl Slot {
    // The file of that number, if there is one.
    pub(super) fn new(index: usize) -> Option<Slot>
        ensures { MatchOption result (64 ≤ index) (λ slot. slot.index ≡ index) }
    {
        if index < SLOTS {
            Some(Slot { index })
        } else {
            None
        }
    }
}

impl Chains {
    // So many blocks, all free, and every file empty.
    pub(super) fn new(count: usize) -> Chains
        requires some { 0 < count }
        requires few { count ≤ 128 }
        ensures { Fresh result count }
    {
        Chains {
            next: array::from_fn(|block| block as u16 + 1),
            files: [File::default(); SLOTS],
            free: Chain {
                first: 0,
                held: count as u16,
            },
        }
    }

    // How many blocks the file has.
    pub(super) fn held(&self, slot: Slot) -> usize
        ensures { result ≡ held_by self.now slot.index }
    {
        self.files[slot.index].chain.held as usize
    }

    // The block at a place of the file, by so many links, since there is no other way to it; one past the last it is any number.
    pub(super) fn block(&self, slot: Slot, place: usize) -> usize
        requires { place ≤ held_by self.now slot.index }
        ensures { result ≡ placed self.now slot.index place }
    {
        let mut block = self.files[slot.index].chain.first;
        for _step in 0..place {
            block = self.next[block as usize];
        }
        block as usize
    }

    // The block that follows a block in its chain.
    pub(super) fn after(&self, block: usize) -> usize
        requires { block < 128 }
        ensures { result ≡ slice_index self.now.next block }
    {
        self.next[block] as usize
    }

    // Takes a free block to the end of the file's chain.
    fn extend(&mut self, slot: Slot)
        requires { 0 < held_by self.old 64 }
        ensures { Grown self.old self.new slot.index 1 }
    {
        let block = self.free.first;
        self.free.first = self.next[block as usize];
        self.free.held -= 1;
        let mut file = self.files[slot.index];
        if file.chain.held == 0 {
            file.chain.first = block;
        } else {
            self.next[file.last as usize] = block;
        }
        file.chain.held += 1;
        file.last = block;
        self.files[slot.index] = file;
    }

    // Takes free blocks until the file has so many.
    pub(super) fn reserve(&mut self, slot: Slot, blocks: usize)
        requires { blocks ≤ held_by self.old slot.index + held_by self.old 64 }
        ensures { Grown self.old self.new slot.index (blocks - held_by self.old slot.index) }
    {
        for _step in self.held(slot)..blocks {
            self.extend(slot);
        }
    }

    // Makes the length of the file another, and moves no block.
    pub(super) fn resize(&mut self, slot: Slot, size: usize)
        ensures { Resized self.old self.new slot.index size }
    {
        self.files[slot.index].size = size;
    }

    // Frees the blocks of the file.
    pub(super) fn release(&mut self, slot: Slot)
        ensures { Emptied self.old self.new slot.index }
    {
        let file = self.files[slot.index];
        let has_blocks = file.chain.held > 0;
        if has_blocks {
            self.next[file.last as usize] = self.free.first;
            self.free.first = file.chain.first;
            self.free.held += file.chain.held;
            self.files[slot.index].chain.held = 0;
        }
    }
}
