// The trait of a volume: each call answers and leaves what the meaning allows, and asks nothing of its caller.
// The arguments are those that the specification's protocols have.
ghost use Rattle.std.specs.Prelude.{◌≡◌, ◌≤◌, length, IfOk};
ghost use Rattle.uefi_path.specs.Meaning.{units_of};
ghost use Rattle.volume.specs.Answers.{numbered, settled, delivered, filled, due_row};
ghost use Rattle.volume.specs.Calls.{Step, kind_of, open_volume as open_volume_call, open_from as open_from_call, close as close_call, delete as delete_call, get_position as get_position_call, get_info as get_info_call, read as read_call, write as write_call, flush as flush_call};
ghost use Rattle.volume.specs.Soundness.{Sound};
ghost use Rattle.volume.specs.State.{State};
ghost use Rattle.volume.specs.Tree.{route_of};

use super::handle::NodeKind;
use uefi_path::path::Path;
use uefi_result::Error;
use uefi_types::{FileAttribute, FileMode};

pub trait Volume {
    ghost meaning: { Self → State };

    // What is due at the next call: a status to refuse with, a cap on reading, a file size to report.
    // A tuple, since the rules name its form.
    fn due(&self) -> (Option<u64>, Option<u64>, Option<u64>)
        ensures { result ≡ due_row (meaning self.now).due };

    // Whether a number is an open file or an open directory; none, where it is not open.
    fn kind(&self, handle: u64) -> Option<NodeKind>
        ensures { result ≡ kind_of (meaning self.now).held handle };

    fn open_volume(&mut self) -> Result<u64, Error<usize>>
        ensures { Step (meaning self.old) open_volume_call (numbered result) (meaning self.new) };

    fn open(
        &mut self,
        handle: u64,
        path: &Path,
        mode: FileMode,
        attribute: FileAttribute,
    ) -> Result<u64, Error<usize>>
        ensures { Step (meaning self.old) (open_from_call handle (route_of (units_of path.now)) mode attribute.0) (numbered result) (meaning self.new) };

    fn close(&mut self, handle: u64) -> Result<(), Error<usize>>
        ensures { Step (meaning self.old) (close_call handle) (settled result) (meaning self.new) };

    fn delete(&mut self, handle: u64) -> Result<(), Error<usize>>
        ensures { Step (meaning self.old) (delete_call handle) (settled result) (meaning self.new) };

    fn get_position(&mut self, handle: u64) -> Result<u64, Error<usize>>
        ensures { Step (meaning self.old) (get_position_call handle) (numbered result) (meaning self.new) };

    // The node's record, in front of the buffer. Bytes beyond it stay.
    // What a delivery leaves in a buffer is said in two clauses here and at `read`, since callers cite them one by one.
    fn get_info(&mut self, handle: u64, buffer: &mut [u8]) -> Result<usize, Error<usize>>
        ensures step { Step (meaning self.old) (get_info_call handle (length buffer.old)) (delivered result buffer.new) (meaning self.new) }
        ensures fills { buffer.new ≡ filled buffer.old (delivered result buffer.new) }
        ensures within { IfOk result (λ n. n ≤ length buffer.old) };

    // Bytes of a file or the next record of a directory, in front of the buffer. Bytes beyond them stay.
    fn read(&mut self, handle: u64, buffer: &mut [u8]) -> Result<usize, Error<usize>>
        ensures step { Step (meaning self.old) (read_call handle (length buffer.old)) (delivered result buffer.new) (meaning self.new) }
        ensures fills { buffer.new ≡ filled buffer.old (delivered result buffer.new) }
        ensures within { IfOk result (λ n. n ≤ length buffer.old) };

    // A refusal VOLUME_FULL tells how many bytes were written.
    fn write(&mut self, handle: u64, bytes: &[u8]) -> Result<(), Error<usize>>
        ensures { Step (meaning self.old) (write_call handle bytes.now) (settled result) (meaning self.new) };

    fn flush(&mut self, handle: u64) -> Result<(), Error<usize>>
        ensures { Step (meaning self.old) (flush_call handle) (settled result) (meaning self.new) };

    ghost sound: { ((s : Self) → ∥ Sound (meaning s).held ∥₁) };
}
