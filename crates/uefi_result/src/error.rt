// An error of the firmware: a status that is no success, with data.
ghost use Rattle.std.specs.Prelude.{◌≡◌, ◌≢◌};
ghost use Rattle.std.specs.Option.{option_map};
ghost use Rattle.std.specs.Result.{result_ok};
ghost use Rattle.uefi_result.specs.Failures.{failing, failure};

use crate::status::Status;
use std::fmt;

#[derive(PartialEq, Eq, Debug, Drop)]
pub struct Error<Data = ()> {
    status: Status,
    data: Data,
    ghost failed: { status.0 ≢ 0 },
}

impl<Data> Error<Data> {
    // None where the status is SUCCESS, which is no error.
    pub fn new(status: Status, data: Data) -> Option<Self>
    where
        Data: Drop,
        ensures { option_map (λ e. (e.status.0, e.«data»)) result ≡ failure status.0 «data» }
    {
        if status.is_success() {
            return None;
        }
        Some(Error { status, data })
    }

    pub fn status(&self) -> Status
        ensures value { result ≡ self.now.status }
        ensures failed { result.0 ≢ 0 }
    {
        self.status
    }

    pub fn data(&self) -> &Data
        ensures { result.now ≡ self.now.«data» }
    {
        &self.data
    }

    // The status and the data of this error.
    pub fn split(self) -> (Status, Data)
        ensures { result ≡ (self.status, self.«data») }
    {
        let Error { status, data } = self;
        (status, data)
    }

    // The same status with other data.
    pub fn with_data<Other>(&self, data: Other) -> Error<Other>
        ensures status { result.status.0 ≡ self.now.status.0 }
        ensures value { result.«data» ≡ «data» }
    {
        Error {
            status: self.status,
            data,
        }
    }

    // The same status with no data.
    pub fn to_err_without_payload(&self) -> Error<()>
        ensures { result.status.0 ≡ self.now.status.0 }
    {
        self.with_data(())
    }
}

// The status was SUCCESS, of which no error can be made.
#[derive(Clone, Copy, PartialEq, Eq, Debug)]
pub struct NoError;

impl fmt::Display for NoError {
    fn fmt<W: fmt::Write>(&self, f: &mut fmt::Formatter<W>) -> fmt::Result {
        write!(f, "the status is no error")
    }
}

impl std::error::Error for NoError {}

impl TryFrom<Status> for Error<()> {
    type Error = NoError;

    ghost try_from_gives = { λ s r. option_map (λ e. e.status.0) (result_ok r) ≡ failing s.0 };

    fn try_from(status: Status) -> Result<Error<()>, NoError> {
        Error::new(status, ()).ok_or(NoError)
    }
}

impl<Data: fmt::Debug> fmt::Display for Error<Data> {
    fn fmt<W: fmt::Write>(&self, f: &mut fmt::Formatter<W>) -> fmt::Result {
        let status = self.status();
        let data = self.data();
        write!(f, "UEFI Error {status}: {data:?}")
    }
}

impl<Data: fmt::Debug + Drop> std::error::Error for Error<Data> {}
