// What every block store promises: files by slot, each a list of bytes, in blocks of 512 bytes.
ghost use Rattle.std.specs.Prelude.{◌≡◌, ℕ, ◌+◌, ◌-◌, ◌*◌, ◌/◌, ◌<◌, ◌≤◌, min, List, [], ◌++◌, length, take, drop, vec_len, MatchResult};
ghost use Rattle.uefi_types.specs.Refusal.{refusal_of};
ghost use Rattle.block_store.specs.Errors.{bad_memory_of};
ghost use Rattle.block_store.specs.Files.{Files, Kept, no_files, replaced, overwritten, blocks_for, blocks_used, capacity, memory_refusal};

use std::error::Error;
use std::fmt;
use uefi_types::Numbered;

// How many bytes a block has.
pub const BLOCK: usize = 512;

// A memory that is not a multiple of 512 bytes from 512 to 65,536. It comes back.
#[derive(Drop)]
pub struct BadMemory {
    pub memory: Vec<u8>,
}

impl Numbered for BadMemory {
    ghost refusal = { bad_memory_of };

    fn number(&self) -> u32 {
        23
    }
}

impl fmt::Display for BadMemory {
    fn fmt<W: fmt::Write>(&self, f: &mut fmt::Formatter<W>) -> fmt::Result {
        let bytes = self.memory.len();
        write!(
            f,
            "memory of {bytes} bytes, not a multiple of 512 from 512 to 65536"
        )
    }
}

impl Error for BadMemory {}

// By hand, since a derive would print the memory's bytes.
impl fmt::Debug for BadMemory {
    fn fmt<W: fmt::Write>(&self, f: &mut fmt::Formatter<W>) -> fmt::Result {
        let bytes = self.memory.len();
        write!(f, "BadMemory({bytes} bytes)")
    }
}

pub trait BlockStore: Sized {
    // The bytes of the file in each slot, how many blocks there are, and how many of them no file has.
    ghost contents: { Self → Files };

    ghost blocks: { Self → ℕ };

    ghost free: { Self → ℕ };

    // A store in the memory, with every file empty and every block free.
    fn new(memory: Vec<u8>) -> Result<Self, BadMemory>
        ensures refusal { refusal_of bad_memory_of result ≡ memory_refusal (vec_len memory) }
        ensures made { MatchResult result (λ s. (contents s ≡ no_files) × (blocks s ≡ vec_len memory / 512) × (free s ≡ vec_len memory / 512)) (λ e. e.memory ≡ memory) };

    // Gives the memory back, with the bytes of the files in its blocks.
    fn into_memory(self) -> Vec<u8>
        ensures size { vec_len result ≡ 512 * blocks self }
        ensures kept { Kept (contents self) (blocks self) result.items };

    // How many bytes the file has.
    fn len(&self, slot: usize) -> usize
        ensures { result ≡ length (contents self.now slot) };

    // How many blocks no file has.
    fn free_blocks(&self) -> usize
        ensures { result ≡ free self.now };

    // Reads the bytes from the position on, as many as `out` takes, and answers how many those are.
    // A slot and a position stand apart, as the node and the position of a handle do.
    fn read(&self, slot: usize, position: usize, out: &mut [u8]) -> usize
        ensures count { result ≡ min (length out.old) (length (contents self.now slot) - position) }
        ensures bytes { out.new ≡ take result (drop position (contents self.now slot)) ++ drop result out.old };

    // Writes as many of the bytes as the capacity takes from the position on, and answers how many those are.
    fn write(&mut self, slot: usize, position: usize, bytes: &[u8]) -> usize
        ensures count { result ≡ min (length bytes.now) (capacity (contents self.old) (free self.old) slot - position) }
        ensures wrote { contents self.new ≡ replaced (contents self.old) slot (overwritten (contents self.old slot) position result bytes.now) }
        ensures spare { free self.new + blocks_for (length (contents self.new slot)) ≡ free self.old + blocks_for (length (contents self.old slot)) }
        ensures same { blocks self.new ≡ blocks self.old };

    // Empties the file, and frees its blocks.
    fn clear(&mut self, slot: usize)
        ensures cleared { contents self.new ≡ replaced (contents self.old) slot [] }
        ensures spare { free self.new ≡ free self.old + blocks_for (length (contents self.old slot)) }
        ensures same { blocks self.new ≡ blocks self.old };

    // There are 64 slots.
    ghost slots: { ((s : Self) (slot : ℕ) → 64 ≤ slot → contents s slot ≡ []) };

    // A store has from 1 to 128 blocks.
    ghost limits: { ((s : Self) → (0 < blocks s) × (blocks s ≤ 128)) };

    // No block is lost: each is free or holds bytes of a file.
    ghost whole: { ((s : Self) → free s + blocks_used (contents s) 64 ≡ blocks s) };
}
