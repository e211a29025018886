// The chained store: its files' bytes lie in the blocks of a memory.
ghost use Rattle.std.specs.Prelude.{◌≡◌, ℕ, ◌+◌, ◌-◌, ◌*◌, ◌/◌, ◌%◌, ◌<◌, ◌≤◌, length, take, drop, vec_len};
ghost use Rattle.block_store.specs.Contents.{size_of, contents_of, blocks_of, free_of, reach, Stretched, Overwritten};
ghost use Rattle.block_store.specs.Files.{no_files, is_memory};
ghost use Rattle.block_store.specs.Wholes.{none_past, limits_are, whole_is};

use super::store::{BLOCK, BadMemory, BlockStore};
use super::types::{ChainedStore, Chains, Slot};

const MOST_BYTES: usize = 65536;

// Whether so many bytes are a store's memory.
fn is_memory(bytes: usize) -> bool
    ensures { result ≡ is_memory bytes }
{
    bytes >= BLOCK && bytes <= MOST_BYTES && bytes % BLOCK == 0
}

impl ChainedStore {
    // The length of the file, in bytes.
    fn size(&self, slot: Slot) -> usize
        ensures { result ≡ size_of self.now slot.index }
    {
        self.chains.files[slot.index].size
    }

    // As many bytes as the file's own blocks and the free ones hold.
    fn reach(&self, slot: Slot) -> usize
        ensures { result ≡ reach self.now slot.index }
    {
        BLOCK * (self.chains.held(slot) + self.free_blocks())
    }

    // Makes the file longer, if it is shorter.
    fn grow(&mut self, slot: Slot, size: usize)
        requires { size ≤ reach self.old slot.index }
        ensures { Stretched self.old self.new slot.index size }
    {
        if size > self.size(slot) {
            self.chains.reserve(slot, size.div_ceil(BLOCK));
            self.chains.resize(slot, size);
        }
    }

    // Writes the bytes over those of the file.
    fn put(&mut self, slot: Slot, position: usize, bytes: &[u8])
        requires { position + length bytes.now ≤ size_of self.old slot.index }
        ensures { Overwritten self.old self.new slot.index position bytes.now }
    {
        let end = position + bytes.len();
        let mut block = self.chains.block(slot, position / BLOCK);
        for place in position / BLOCK..end.div_ceil(BLOCK) {
            let from = position.max(BLOCK * place);
            let to = end.min(BLOCK * (place + 1));
            let at = BLOCK * block + from % BLOCK;
            self.memory[at..at + (to - from)].copy_from_slice(
                &bytes[from - position..to - position],
            );
            block = self.chains.after(block);
        }
    }

    // Fills `out` with bytes of the file. It goes along the blocks as `put` does, and copies the other way:
    // one loop for both would have to borrow the memory to read it and to change it.
    fn fetch(&self, slot: Slot, position: usize, out: &mut [u8])
        requires { position + length out.old ≤ size_of self.now slot.index }
        ensures { out.new ≡ take (length out.old) (drop position (contents_of self.now slot.index)) }
    {
        let end = position + out.len();
        let mut block = self.chains.block(slot, position / BLOCK);
        for place in position / BLOCK..end.div_ceil(BLOCK) {
            let from = position.max(BLOCK * place);
            let to = end.min(BLOCK * (place + 1));
            let at = BLOCK * block + from % BLOCK;
            out[from - position..to - position].copy_from_slice(&self.memory[at..at + (to - from)]);
            block = self.chains.after(block);
        }
    }
}

impl BlockStore for ChainedStore {
    ghost contents = { contents_of };

    ghost blocks = { blocks_of };

    ghost free = { free_of };

    ghost slots = { none_past };

    ghost limits = { limits_are };

    ghost whole = { whole_is };

    fn new(memory: Vec<u8>) -> Result<ChainedStore, BadMemory> {
        if !is_memory(memory.len()) {
            return Err(BadMemory { memory });
        }
        let chains = Chains::new(memory.len() / BLOCK);
        Ok(ChainedStore { memory, chains })
    }

    fn into_memory(self) -> Vec<u8> {
        self.memory
    }

    fn len(&self, slot: usize) -> usize {
        self.chains.files.get(slot).map_or(0, |file| file.size)
    }

    fn free_blocks(&self) -> usize {
        self.chains.free.held as usize
    }

    fn read(&self, slot: usize, position: usize, out: &mut [u8]) -> usize {
        let Some(slot) = Slot::new(slot) else {
            return 0;
        };
        let count = out.len().min(self.size(slot).saturating_sub(position));
        if count > 0 {
            self.fetch(slot, position, &mut out[..count]);
        }
        count
    }

    fn write(&mut self, slot: usize, position: usize, bytes: &[u8]) -> usize {
        let Some(slot) = Slot::new(slot) else {
            return 0;
        };
        let count = bytes.len().min(self.reach(slot).saturating_sub(position));
        let start = position.min(self.size(slot));
        self.grow(slot, start + count);
        self.put(slot, start, &bytes[..count]);
        count
    }

    fn clear(&mut self, slot: usize) {
        if let Some(slot) = Slot::new(slot) {
            self.chains.release(slot);
            self.chains.resize(slot, 0);
        }
    }
}
