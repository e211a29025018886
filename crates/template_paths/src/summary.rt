// What the whole list comes to: counts, and which lines name the same path.
use super::entry::Entry;
use std::alloc::{AllocError, Global};
use std::fmt;
use uefi_path::path::Path;

// A path and the lines that name it.
#[derive(Drop)]
struct Named {
    path: Path,
    lines: Vec<usize>,
}

#[derive(Drop)]
pub struct Summary {
    named: Vec<Named>,
    accepted: usize,
    refused: usize,
}

impl Summary {
    pub fn new(heap: Global) -> Self {
        Summary {
            named: Vec::new(heap),
            accepted: 0,
            refused: 0,
        }
    }

    // Counts a line, and puts an accepted path beside those that are the same.
    // In a list, in the order of the lines: paths have no order and no hash, by which a map would find them.
    pub fn note(&mut self, heap: Global, number: usize, entry: Entry) -> Result<(), AllocError> {
        let Ok(path) = entry else {
            self.refused = self.refused.saturating_add(1);
            return Ok(());
        };
        self.accepted = self.accepted.saturating_add(1);
        match self.named.iter_mut().find(|named| named.path == path) {
            Some(named) => named.lines.push(number)?,
            None => {
                let lines = vec![in heap; number]?;
                self.named.push(Named { path, lines })?;
            }
        }
        Ok(())
    }
}

// The lines that name one path, and the counts.
impl fmt::Display for Summary {
    fn fmt<W: fmt::Write>(&self, f: &mut fmt::Formatter<W>) -> fmt::Result {
        for named in self.named.iter().filter(|named| named.lines.len() > 1) {
            write!(f, "same path {}: lines", named.path)?;
            for number in named.lines.iter() {
                write!(f, " {number}")?;
            }
            writeln!(f)?;
        }
        let lines = self.accepted.saturating_add(self.refused);
        let (accepted, refused, different) = (self.accepted, self.refused, self.named.len());
        writeln!(
            f,
            "{lines} lines: {accepted} accepted, {refused} refused, {different} different paths"
        )
    }
}
