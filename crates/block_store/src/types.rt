// The chained store, with what it always keeps.
ghost use Rattle.std.specs.Prelude.{◌≡◌, ℕ, ◌*◌, ◌<◌, ◌≤◌, length, vec_len};
ghost use Rattle.block_store.specs.Walk.{firsts, helds, lasts, sizes, count, Within, Apart, Tailed, Sized};

// How many files there are.
pub(super) const SLOTS: usize = 64;

// The number of a file, which is below 64.
#[derive(Clone, Copy)]
pub(super) struct Slot {
    pub(super) index: usize,
    ghost within: { index < 64 },
}

// A chain of blocks: how many it has, and its first one, which means nothing where it has none.
#[derive(Clone, Copy, Default)]
pub(super) struct Chain {
    pub(super) first: u16,
    pub(super) held: u16,
}

// A file: the chain of its blocks, the last of them, and its length in bytes.
#[derive(Clone, Copy, Default)]
pub(super) struct File {
    pub(super) chain: Chain,
    pub(super) last: u16,
    pub(super) size: usize,
}

// The chains of blocks: those of the 64 files, and that of the free blocks.
#[derive(Drop)]
pub(super) struct Chains {
    // The block that follows each block in its chain, by number, since there is no heap for links.
    // What stands for the last block of a chain is of no account.
    pub(super) next: [u16; 128],
    pub(super) files: [File; SLOTS],
    // No last one is noted of the free blocks, since they come and go at the front.
    pub(super) free: Chain,
    ghost wide: { length files ≡ 64 },
    ghost some: { 0 < count files free },
    ghost few: { count files free ≤ 128 },
    ghost within: { Within next (firsts files free) (helds files free) (count files free) },
    ghost apart: { Apart next (firsts files free) (helds files free) },
    ghost tailed: { Tailed next (firsts files free) (lasts files) (helds files free) },
}

// A store of 64 files: each block of a file names the next.
#[derive(Drop)]
pub struct ChainedStore {
    pub(super) memory: Vec<u8>,
    pub(super) chains: Chains,
    ghost fits: { vec_len memory ≡ 512 * count chains.files chains.free },
    ghost sized: { Sized (sizes chains.files) (helds chains.files chains.free) },
}
