// The answers of a volume's calls, which come with a length, as those of the file protocol.
ghost use Rattle.std.specs.Prelude.{◌≡◌};
ghost use Rattle.volume.specs.Answers.{numbered};
ghost use Rattle.uefi_file.specs.Handles.{by_status, by_number, number_in, regular_in};

use super::handle::FileHandle;
use uefi_result::{Error, Status};

// The same answer, but an error without its data.
pub(super) fn without_payload<T, Data: Drop>(answer: Result<T, Error<Data>>) -> Result<T, Error>
    ensures { by_status answer ≡ by_status result }
{
    answer.map_err(|error| error.to_err_without_payload())
}

// A handle that was opened.
pub(super) fn opened(answer: Result<u64, Error<usize>>) -> Result<FileHandle, Error>
    ensures { number_in (numbered answer) ≡ by_number result }
{
    without_payload(answer).map(|number| FileHandle { number })
}

// The position that was answered.
pub(super) fn to_position(answer: Result<u64, Error<usize>>) -> Result<u64, Error>
    ensures { number_in (numbered answer) ≡ by_status result }
{
    match answer {
        Ok(position) => Ok(position),
        Err(error) => Err(error.to_err_without_payload()),
    }
}

// Whether what answered so when it was asked for its position is a file: a directory refuses with UNSUPPORTED.
pub(super) fn to_regular(answer: Result<u64, Error<usize>>) -> Result<bool, Error>
    ensures { regular_in (numbered answer) ≡ by_status result }
{
    match answer {
        Ok(_) => Ok(true),
        Err(error) => {
            if error.status() == Status::UNSUPPORTED {
                return Ok(false);
            }
            Err(error.to_err_without_payload())
        }
    }
}
