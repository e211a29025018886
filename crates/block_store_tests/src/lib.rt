// The chained store at its limits.
#![tactic(auto)]

#[cfg(test)]
mod tests {
    use block_store::ChainedStore;
    use block_store::store::{BadMemory, BlockStore};
    use std::alloc::Global;
    use std::process::Abort;
    use std::test::Fail;
    use uefi_types::Numbered;

    // A store, with calls that are looked at.
    #[derive(Drop)]
    struct Trial<'a, R: Abort> {
        rt: &'a R,
        heap: Global,
        store: ChainedStore,
    }

    impl<'a, R: Abort> Trial<'a, R> {
        fn new(rt: &'a R, heap: Global, bytes: usize) -> Result<Trial<'a, R>, Fail> {
            let store = ChainedStore::new(vec![in heap; 0xEE; bytes]?)?;
            Ok(Trial { rt, heap, store })
        }

        // So many of a byte are written to a slot at a position; then the count, the file's length and the free blocks.
        fn writes(
            &mut self,
            at: (usize, usize),
            bytes: (u8, usize),
            left: (usize, usize, usize),
        ) -> Result<(), Fail> {
            let given = vec![in self.heap; bytes.0; bytes.1]?;
            let written = self.store.write(at.0, at.1, given.as_slice());
            assert_eq!(self.rt;
                (written, self.store.len(at.0), self.store.free_blocks()),
                left
            );
            Ok(())
        }

        // Then the free blocks.
        fn clears(&mut self, slot: usize, free: usize) {
            self.store.clear(slot);
            assert_eq!(self.rt; (self.store.len(slot), self.store.free_blocks()), (0, free));
        }

        // The file's byte at a position, if it is read.
        fn byte(&self, slot: usize, at: usize) -> Option<u8> {
            let mut one = [0];
            (self.store.read(slot, at, &mut one) == 1).then_some(one[0])
        }

        // The file begins with so many of a byte, and not more.
        fn begins(&self, slot: usize, with: (u8, usize)) {
            let count = (0..self.store.len(slot))
                .take_while(|at| self.byte(slot, *at) == Some(with.0))
                .count();
            assert_eq!(self.rt; count, with.1);
        }

        // This is read of a slot at a position, up to zeros.
        fn reads(&self, at: (usize, usize), bytes: [u8; 4]) {
            let mut out = [0; 4];
            self.store.read(at.0, at.1, &mut out);
            assert_eq!(self.rt; out, bytes);
        }

        // The memory that comes back has so many bytes.
        fn ends(self, bytes: usize) {
            assert_eq!(self.rt; self.store.into_memory().len(), bytes);
        }
    }

    #[test]
    fn grows_across_a_block(rt: HostRuntime) -> Result<(), Fail> {
        let mut trial = Trial::new(&rt, rt.alloc(), 2048)?;
        trial.writes((5, 0), (7, 511), (511, 511, 3))?;
        trial.writes((5, 511), (7, 1), (1, 512, 3))?;
        trial.writes((5, 512), (9, 1), (1, 513, 2))?;
        trial.reads((5, 510), [7, 7, 9, 0]);
        trial.reads((5, 513), [0; 4]);
        trial.begins(5, (7, 512));
        trial.ends(2048);
        Ok(())
    }

    #[test]
    fn fills_one_block(rt: HostRuntime) -> Result<(), Fail> {
        let mut trial = Trial::new(&rt, rt.alloc(), 512)?;
        trial.writes((0, 0), (3, 513), (512, 512, 0))?;
        trial.writes((0, 512), (3, 1), (0, 512, 0))?;
        trial.writes((1, 0), (3, 1), (0, 0, 0))?;
        trial.writes((0, 511), (4, 2), (1, 512, 0))?;
        trial.reads((0, 509), [3, 3, 4, 0]);
        trial.clears(0, 1);
        trial.ends(512);
        Ok(())
    }

    #[test]
    fn fills_all_blocks(rt: HostRuntime) -> Result<(), Fail> {
        let mut trial = Trial::new(&rt, rt.alloc(), 65536)?;
        trial.writes((63, 0), (6, 65537), (65536, 65536, 0))?;
        trial.writes((63, 65536), (6, 1), (0, 65536, 0))?;
        trial.begins(63, (6, 65536));
        trial.writes((63, 65535), (1, 2), (1, 65536, 0))?;
        trial.begins(63, (6, 65535));
        trial.clears(63, 128);
        trial.ends(65536);
        Ok(())
    }

    // Three files grow in turn by 300 bytes; the second is cleared, and the others take its blocks.
    #[test]
    fn grows_files_in_turn(rt: HostRuntime) -> Result<(), Fail> {
        let mut trial = Trial::new(&rt, rt.alloc(), 4096)?;
        trial.writes((0, 0), (1, 300), (300, 300, 7))?;
        trial.writes((1, 0), (2, 300), (300, 300, 6))?;
        trial.writes((2, 0), (3, 300), (300, 300, 5))?;
        trial.writes((0, 300), (1, 300), (300, 600, 4))?;
        trial.writes((1, 300), (2, 300), (300, 600, 3))?;
        trial.writes((2, 300), (3, 300), (300, 600, 2))?;
        trial.clears(1, 4);
        trial.begins(0, (1, 600));
        trial.begins(2, (3, 600));
        trial.writes((2, 600), (3, 2000), (2000, 2600, 0))?;
        trial.writes((0, 600), (1, 500), (424, 1024, 0))?;
        trial.writes((1, 0), (2, 1), (0, 0, 0))?;
        trial.begins(0, (1, 1024));
        trial.begins(2, (3, 2600));
        trial.ends(4096);
        Ok(())
    }

    // A position past the end is as good as the end, but counts against the capacity.
    #[test]
    fn clips_the_position(rt: HostRuntime) -> Result<(), Fail> {
        let mut trial = Trial::new(&rt, rt.alloc(), 1024)?;
        trial.writes((0, 0), (1, 2), (2, 2, 1))?;
        trial.writes((0, 1022), (3, 3), (2, 4, 1))?;
        trial.reads((0, 0), [1, 1, 3, 3]);
        trial.writes((0, 1024), (9, 1), (0, 4, 1))?;
        trial.writes((0, usize::MAX), (9, 1), (0, 4, 1))?;
        trial.reads((0, usize::MAX), [0; 4]);
        trial.ends(1024);
        Ok(())
    }

    #[test]
    fn has_64_slots(rt: HostRuntime) -> Result<(), Fail> {
        let mut trial = Trial::new(&rt, rt.alloc(), 512)?;
        trial.writes((64, 0), (1, 1), (0, 0, 1))?;
        trial.reads((64, 0), [0; 4]);
        trial.clears(usize::MAX, 1);
        trial.writes((63, 0), (1, 1), (1, 1, 0))?;
        trial.ends(512);
        Ok(())
    }

    // The refusal of a memory of so many bytes, which has to come back as it was.
    fn refusal(rt: &impl Abort, heap: Global, bytes: usize) -> Result<BadMemory, Fail> {
        match ChainedStore::new(vec![in heap; 0xEE; bytes]?) {
            Ok(_) => Err(Fail::new("taken")),
            Err(e) => {
                assert!(rt; e.number() == 23 && e.memory == vec![in heap; 0xEE; bytes]?);
                Ok(e)
            }
        }
    }

    #[test]
    fn refuses_memory(rt: HostRuntime) -> Result<(), Fail> {
        for bytes in [0usize, 511, 513, 65537, 66048] {
            let _ = refusal(&rt, rt.alloc(), bytes)?;
        }
        let e = refusal(&rt, rt.alloc(), 511)?;
        let text = format!(in rt.alloc(); "{e:?}: {e}")?;
        assert!(rt;
            text.as_str()
                == "BadMemory(511 bytes): memory of 511 bytes, not a multiple of 512 from 512 to 65536"
        );
        Ok(())
    }
}
