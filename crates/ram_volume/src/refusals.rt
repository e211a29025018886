// Refusals of a volume's calls.
ghost use Rattle.std.specs.Prelude.{◌≡◌, ◌≢◌};
ghost use Rattle.volume.specs.Answers.{refusing};
ghost use Rattle.volume.specs.Calls.{refused};

use uefi_result::{Error, Status};

// A refusal with a status, and with the length that comes with it.
pub(super) fn refusal_with(status: Status, length: usize) -> Error<usize>
    requires { status.0 ≢ 0 }
    ensures { refusing result ≡ refused status.0 length }
{
    Error::new(status, length).unwrap()
}

// A refusal with a status and no length.
pub(super) fn refusal(status: Status) -> Error<usize>
    requires { status.0 ≢ 0 }
    ensures { refusing result ≡ refused status.0 0 }
{
    refusal_with(status, 0)
}
