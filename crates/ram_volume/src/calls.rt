// The calls of the volume in memory, by which it is a volume.
// Each looks up its handle by a let-else: one method that answered the handle or marked the misuse would borrow all that is held.
ghost use Rattle.std.specs.Prelude.{◌≡◌, ℕ, ◌*◌, [], vec_len, IfOk, MatchResult};
ghost use Rattle.uefi_types.specs.Refusal.{refusal_of};
ghost use Rattle.block_store.specs.Errors.{bad_memory_of};
ghost use Rattle.block_store.specs.Files.{memory_refusal};
ghost use Rattle.volume.specs.Answers.{settled};
ghost use Rattle.volume.specs.Calls.{Step, delete as delete_call};
ghost use Rattle.ram_volume.specs.Meaning.{ram_state};
ghost use Rattle.ram_volume.specs.Moves.{Frees};
ghost use Rattle.ram_volume.specs.Starting.{Fresh};
ghost use Rattle.std.proofs.Math.Logic.{∥∥₁_map};
ghost use Rattle.ram_volume.specs.Sounding.{sound_tables};

use super::opens::is_writing;
use super::refusals::{refusal, refusal_with};
use super::types::{Held, RamVolume};
use block_store::store::{BadMemory, BlockStore};
use ram_tables::{HandleTable, NodeTable, ROOT};
use uefi_path::path::Path;
use uefi_result::{Error, Status};
use uefi_types::{FileAttribute, FileMode};
use volume::{NodeKind, Reported, Volume};

impl<S: BlockStore> RamVolume<S> {
    // A volume in a memory, with its root alone; a memory that will not do comes back.
    pub fn new(memory: Vec<u8>) -> Result<RamVolume<S>, BadMemory>
        ensures refusal { refusal_of bad_memory_of result ≡ memory_refusal (vec_len memory) }
        ensures made { MatchResult result (λ v. Fresh S.BlockStore.contents S.BlockStore.free (vec_len memory) v) (λ e. e.memory ≡ memory) }
    {
        let held = Held {
            nodes: NodeTable::new(),
            handles: HandleTable::new(),
            misused: false,
            store: S::new(memory)?,
        };
        Ok(RamVolume {
            held,
            reported: None,
        })
    }

    // Gives the memory back.
    pub fn into_memory(self) -> Vec<u8>
        ensures { vec_len result ≡ 512 * S.BlockStore.blocks self.held.store }
    {
        let RamVolume { held, reported: _ } = self;
        let Held {
            nodes: _,
            handles: _,
            misused: _,
            store,
        } = held;
        store.into_memory()
    }
}

impl<S: BlockStore> Volume for RamVolume<S> {
    ghost meaning = { ram_state S.BlockStore.contents S.BlockStore.free };

    ghost sound = { λ v. ∥∥₁_map v.held.nodes.whole (λ w. sound_tables v.held.nodes.rows (S.BlockStore.contents v.held.store) v.held.handles.rows v.held.misused w v.held.standing) };

    fn due(&self) -> (Option<u64>, Option<u64>, Option<u64>) {
        (None, None, None)
    }

    fn kind(&self, handle: u64) -> Option<NodeKind> {
        self.held.at(handle).map(|at| at.kind)
    }

    fn open_volume(&mut self) -> Result<u64, Error<usize>> {
        let number = self.held.vacant()?;
        self.held.begin(number, ROOT, false);
        Ok(number)
    }

    fn open(
        &mut self,
        handle: u64,
        path: &Path,
        mode: FileMode,
        attribute: FileAttribute,
    ) -> Result<u64, Error<usize>> {
        let Some(at) = self.held.at(handle) else {
            return Err(self.held.misuse());
        };
        let number = self.held.vacant()?;
        if let NodeKind::File = at.kind {
            return Err(refusal(Status::UNSUPPORTED));
        }
        let node = self
            .held
            .find(at.handle.node as usize, path, mode, attribute)?;
        self.held.begin(number, node, is_writing(mode));
        Ok(number)
    }

    fn close(&mut self, handle: u64) -> Result<(), Error<usize>> {
        let Some(at) = self.held.at(handle) else {
            return Err(self.held.misuse());
        };
        self.held.end(at);
        Ok(())
    }

    // The blocks of a file that is deleted are free again.
    fn delete(&mut self, handle: u64) -> Result<(), Error<usize>>
        ensures step { Step (ram_state S.BlockStore.contents S.BlockStore.free self.old) (delete_call handle) (settled result) (ram_state S.BlockStore.contents S.BlockStore.free self.new) }
        ensures freed { IfOk result (λ _. Frees S.BlockStore.contents S.BlockStore.free handle self.old self.new) }
    {
        let Some(at) = self.held.at(handle) else {
            return Err(self.held.misuse());
        };
        let elsewhere = self
            .held
            .handles
            .is_open_elsewhere(at.number, at.handle.node);
        self.held.end(at);
        if !at.handle.writable || elsewhere || !self.held.remove(at.handle.node as usize) {
            return Err(refusal(Status::WARN_DELETE_FAILURE));
        }
        Ok(())
    }

    fn get_position(&mut self, handle: u64) -> Result<u64, Error<usize>> {
        let Some(at) = self.held.at(handle) else {
            return Err(self.held.misuse());
        };
        match at.kind {
            NodeKind::Directory => Err(refusal(Status::UNSUPPORTED)),
            NodeKind::File => Ok(at.handle.position),
        }
    }

    fn get_info(&mut self, handle: u64, buffer: &mut [u8]) -> Result<usize, Error<usize>> {
        let Some(at) = self.held.at(handle) else {
            return Err(self.held.misuse());
        };
        let about = self.held.about(at.handle.node as usize);
        let size = about.size as u64;
        let len = about.tell(buffer)?;
        if let NodeKind::File = at.kind {
            self.reported = Some(Reported {
                file: at.handle.node,
                size,
            });
        }
        Ok(len)
    }

    fn read(&mut self, handle: u64, buffer: &mut [u8]) -> Result<usize, Error<usize>> {
        let Some(at) = self.held.at(handle) else {
            return Err(self.held.misuse());
        };
        match at.kind {
            NodeKind::Directory => {
                let Some((place, about)) = self.held.next(at.handle) else {
                    return Ok(0);
                };
                let len = about.tell(buffer)?;
                self.held.advance(at, place + 1);
                Ok(len)
            }
            NodeKind::File => Ok(self.held.read(at, buffer)),
        }
    }

    fn write(&mut self, handle: u64, bytes: &[u8]) -> Result<(), Error<usize>> {
        let Some(at) = self.held.at(handle) else {
            return Err(self.held.misuse());
        };
        if !at.handle.writable {
            return Err(refusal(Status::ACCESS_DENIED));
        }
        if let NodeKind::Directory = at.kind {
            return Err(refusal(Status::UNSUPPORTED));
        }
        let count = self.held.write(at, bytes);
        if count < bytes.len() {
            return Err(refusal_with(Status::VOLUME_FULL, count));
        }
        Ok(())
    }

    fn flush(&mut self, handle: u64) -> Result<(), Error<usize>> {
        let Some(_) = self.held.at(handle) else {
            return Err(self.held.misuse());
        };
        Ok(())
    }
}
