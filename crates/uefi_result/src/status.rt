// Status codes of the UEFI Specification, Appendix D, at 64 bits.
ghost use Rattle.std.specs.Prelude.{◌≡◌, Some};
ghost use Rattle.std.specs.Option.{option_map};
ghost use Rattle.uefi_result.specs.StatusCodes.{is_success, is_error, is_warning, status_name, status_text};
ghost use Rattle.uefi_result.specs.Failures.{answered};
ghost use Rattle.uefi_result.specs.Errors.{told_err};

use crate::error::Error;
use std::fmt;

const ERROR_BIT: u64 = 1 << 63;

// What a call of the firmware answers: 0 alone succeeds, an error has the highest bit set, and a warning has not.
// A number and no enum, since a volume may answer any 64 bits, and all are handed on.
#[derive(Clone, Copy, PartialEq, Eq, Debug)]
pub struct Status(pub u64);

impl Status {
    pub const SUCCESS: Status = Status(0);

    pub const WARN_UNKNOWN_GLYPH: Status = Status(1);

    pub const WARN_DELETE_FAILURE: Status = Status(2);

    pub const WARN_WRITE_FAILURE: Status = Status(3);

    pub const WARN_BUFFER_TOO_SMALL: Status = Status(4);

    pub const WARN_STALE_DATA: Status = Status(5);

    pub const WARN_FILE_SYSTEM: Status = Status(6);

    pub const WARN_RESET_REQUIRED: Status = Status(7);

    pub const LOAD_ERROR: Status = Status(ERROR_BIT | 1);

    pub const INVALID_PARAMETER: Status = Status(ERROR_BIT | 2);

    pub const UNSUPPORTED: Status = Status(ERROR_BIT | 3);

    pub const BAD_BUFFER_SIZE: Status = Status(ERROR_BIT | 4);

    pub const BUFFER_TOO_SMALL: Status = Status(ERROR_BIT | 5);

    pub const NOT_READY: Status = Status(ERROR_BIT | 6);

    pub const DEVICE_ERROR: Status = Status(ERROR_BIT | 7);

    pub const WRITE_PROTECTED: Status = Status(ERROR_BIT | 8);

    pub const OUT_OF_RESOURCES: Status = Status(ERROR_BIT | 9);

    pub const VOLUME_CORRUPTED: Status = Status(ERROR_BIT | 10);

    pub const VOLUME_FULL: Status = Status(ERROR_BIT | 11);

    pub const NO_MEDIA: Status = Status(ERROR_BIT | 12);

    pub const MEDIA_CHANGED: Status = Status(ERROR_BIT | 13);

    pub const NOT_FOUND: Status = Status(ERROR_BIT | 14);

    pub const ACCESS_DENIED: Status = Status(ERROR_BIT | 15);

    pub const NO_RESPONSE: Status = Status(ERROR_BIT | 16);

    pub const NO_MAPPING: Status = Status(ERROR_BIT | 17);

    pub const TIMEOUT: Status = Status(ERROR_BIT | 18);

    pub const NOT_STARTED: Status = Status(ERROR_BIT | 19);

    pub const ALREADY_STARTED: Status = Status(ERROR_BIT | 20);

    pub const ABORTED: Status = Status(ERROR_BIT | 21);

    pub const ICMP_ERROR: Status = Status(ERROR_BIT | 22);

    pub const TFTP_ERROR: Status = Status(ERROR_BIT | 23);

    pub const PROTOCOL_ERROR: Status = Status(ERROR_BIT | 24);

    pub const INCOMPATIBLE_VERSION: Status = Status(ERROR_BIT | 25);

    pub const SECURITY_VIOLATION: Status = Status(ERROR_BIT | 26);

    pub const CRC_ERROR: Status = Status(ERROR_BIT | 27);

    pub const END_OF_MEDIA: Status = Status(ERROR_BIT | 28);

    pub const END_OF_FILE: Status = Status(ERROR_BIT | 31);

    pub const INVALID_LANGUAGE: Status = Status(ERROR_BIT | 32);

    pub const COMPROMISED_DATA: Status = Status(ERROR_BIT | 33);

    pub const IP_ADDRESS_CONFLICT: Status = Status(ERROR_BIT | 34);

    pub const HTTP_ERROR: Status = Status(ERROR_BIT | 35);

    pub fn is_success(self) -> bool
        ensures { result ≡ is_success self.0 }
    {
        self.0 == 0
    }

    pub fn is_error(self) -> bool
        ensures { result ≡ is_error self.0 }
    {
        self.0 & ERROR_BIT != 0
    }

    pub fn is_warning(self) -> bool
        ensures { result ≡ is_warning self.0 }
    {
        !self.is_success() && !self.is_error()
    }

    // An error with no data, unless it succeeds.
    pub fn to_result(self) -> Result<(), Error>
        ensures { told_err result ≡ answered self.0 (tt {0}) (tt {0}) }
    {
        self.to_result_with((), ())
    }

    // The value where it succeeds, or an error with no data.
    // It takes the value and no closure that makes it: a public function that called one would have to require that it may.
    pub fn to_result_with_val<T: Drop>(self, val: T) -> Result<T, Error>
        ensures { told_err result ≡ answered self.0 val (tt {0}) }
    {
        self.to_result_with(val, ())
    }

    // An error with the data, unless it succeeds.
    pub fn to_result_with_err<ErrData: Drop>(self, err: ErrData) -> Result<(), Error<ErrData>>
        ensures { told_err result ≡ answered self.0 (tt {0}) err }
    {
        self.to_result_with((), err)
    }

    // The value where it succeeds, or an error with the data.
    pub fn to_result_with<T: Drop, ErrData: Drop>(
        self,
        val: T,
        err: ErrData,
    ) -> Result<T, Error<ErrData>>
        ensures { told_err result ≡ answered self.0 val err }
    {
        match Error::new(self, err) {
            None => Ok(val),
            Some(error) => Err(error),
        }
    }

    // Its name in the specification, if it has one.
    pub fn name(self) -> Option<&'static str>
        ensures { option_map (λ x. x.now) result ≡ status_name self.0 }
    {
        NAMES.iter().find(|row| row.0 == self).map(|row| row.1)
    }
}

impl fmt::Display for Status {
    ghost output = { λ s. Some (status_text s.0) };

    fn fmt<W: fmt::Write>(&self, f: &mut fmt::Formatter<W>) -> fmt::Result {
        match self.name() {
            Some(name) => write!(f, "{name}"),
            None => write!(f, "status {}", self.0),
        }
    }
}

// Every status of the specification with its name.
const NAMES: [(Status, &str); 41] = [
    (Status::SUCCESS, "SUCCESS"),
    (Status::WARN_UNKNOWN_GLYPH, "WARN_UNKNOWN_GLYPH"),
    (Status::WARN_DELETE_FAILURE, "WARN_DELETE_FAILURE"),
    (Status::WARN_WRITE_FAILURE, "WARN_WRITE_FAILURE"),
    (Status::WARN_BUFFER_TOO_SMALL, "WARN_BUFFER_TOO_SMALL"),
    (Status::WARN_STALE_DATA, "WARN_STALE_DATA"),
    (Status::WARN_FILE_SYSTEM, "WARN_FILE_SYSTEM"),
    (Status::WARN_RESET_REQUIRED, "WARN_RESET_REQUIRED"),
    (Status::LOAD_ERROR, "LOAD_ERROR"),
    (Status::INVALID_PARAMETER, "INVALID_PARAMETER"),
    (Status::UNSUPPORTED, "UNSUPPORTED"),
    (Status::BAD_BUFFER_SIZE, "BAD_BUFFER_SIZE"),
    (Status::BUFFER_TOO_SMALL, "BUFFER_TOO_SMALL"),
    (Status::NOT_READY, "NOT_READY"),
    (Status::DEVICE_ERROR, "DEVICE_ERROR"),
    (Status::WRITE_PROTECTED, "WRITE_PROTECTED"),
    (Status::OUT_OF_RESOURCES, "OUT_OF_RESOURCES"),
    (Status::VOLUME_CORRUPTED, "VOLUME_CORRUPTED"),
    (Status::VOLUME_FULL, "VOLUME_FULL"),
    (Status::NO_MEDIA, "NO_MEDIA"),
    (Status::MEDIA_CHANGED, "MEDIA_CHANGED"),
    (Status::NOT_FOUND, "NOT_FOUND"),
    (Status::ACCESS_DENIED, "ACCESS_DENIED"),
    (Status::NO_RESPONSE, "NO_RESPONSE"),
    (Status::NO_MAPPING, "NO_MAPPING"),
    (Status::TIMEOUT, "TIMEOUT"),
    (Status::NOT_STARTED, "NOT_STARTED"),
    (Status::ALREADY_STARTED, "ALREADY_STARTED"),
    (Status::ABORTED, "ABORTED"),
    (Status::ICMP_ERROR, "ICMP_ERROR"),
    (Status::TFTP_ERROR, "TFTP_ERROR"),
    (Status::PROTOCOL_ERROR, "PROTOCOL_ERROR"),
    (Status::INCOMPATIBLE_VERSION, "INCOMPATIBLE_VERSION"),
    (Status::SECURITY_VIOLATION, "SECURITY_VIOLATION"),
    (Status::CRC_ERROR, "CRC_ERROR"),
    (Status::END_OF_MEDIA, "END_OF_MEDIA"),
    (Status::END_OF_FILE, "END_OF_FILE"),
    (Status::INVALID_LANGUAGE, "INVALID_LANGUAGE"),
    (Status::COMPROMISED_DATA, "COMPROMISED_DATA"),
    (Status::IP_ADDRESS_CONFLICT, "IP_ADDRESS_CONFLICT"),
    (Status::HTTP_ERROR, "HTTP_ERROR"),
];
