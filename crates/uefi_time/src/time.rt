// EFI_TIME: a date and a time of day in 16 bytes.
ghost use Rattle.std.specs.Prelude.{◌≡◌, true, replicate, is_ok, if◌then◌else◌, Ok, Err, Decides};
ghost use Rattle.uefi_time.specs.Times.{time_of, time_bytes, time_errors, any_error, is_zone, outside, ValidTime};

use uefi_types::read_field;

#[derive(Clone, Copy, PartialEq, Eq, Debug)]
pub struct Time {
    pub year: u16,
    pub month: u8,
    pub day: u8,
    pub hour: u8,
    pub minute: u8,
    pub second: u8,
    pub pad1: u8,
    pub nanosecond: u32,
    pub time_zone: i16,
    pub daylight: u8,
    pub pad2: u8,
}

// Which fields of a time are outside of their range.
#[derive(Clone, Copy, PartialEq, Eq, Debug)]
pub struct TimeError {
    pub year: bool,
    pub month: bool,
    pub day: bool,
    pub hour: bool,
    pub minute: bool,
    pub second: bool,
    pub nanosecond: bool,
    pub timezone: bool,
    pub daylight: bool,
}

impl TimeError {
    // Whether any field is.
    pub fn any(&self) -> bool
        ensures { result ≡ any_error self.now }
    {
        self.year
            || self.month
            || self.day
            || self.hour
            || self.minute
            || self.second
            || self.nanosecond
            || self.timezone
            || self.daylight
    }
}

impl Time {
    // The time zone of a time that does not tell its offset from UTC.
    pub const UNSPECIFIED_TIMEZONE: i16 = 2047;

    // The time that the first 16 bytes hold; bytes past the end count as zero.
    pub fn read(bytes: &[u8]) -> Time
        ensures { result ≡ time_of bytes.now }
    {
        Time {
            year: read_field(bytes, 0, 2) as u16,
            month: read_field(bytes, 2, 1) as u8,
            day: read_field(bytes, 3, 1) as u8,
            hour: read_field(bytes, 4, 1) as u8,
            minute: read_field(bytes, 5, 1) as u8,
            second: read_field(bytes, 6, 1) as u8,
            pad1: read_field(bytes, 7, 1) as u8,
            nanosecond: read_field(bytes, 8, 4) as u32,
            time_zone: (read_field(bytes, 12, 2) as u16).cast_signed(),
            daylight: read_field(bytes, 14, 1) as u8,
            pad2: read_field(bytes, 15, 1) as u8,
        }
    }

    // A time with all fields zero, which is not valid: a record that is to be set leaves the file's time by it.
    pub fn invalid() -> Time
        ensures value { time_bytes result ≡ replicate 16 0 }
        ensures refused { any_error (time_errors result) ≡ true }
    {
        Time::from([0; 16])
    }

    // Whether each field is in its range, and which are not.
    pub fn is_valid(&self) -> Result<(), TimeError>
        ensures value { result ≡ (if any_error (time_errors self.now) then Err (time_errors self.now) else Ok (tt {0})) }
        ensures law { Decides (is_ok result) (ValidTime self.now) }
    {
        let errors = self.errors();
        if errors.any() { Err(errors) } else { Ok(()) }
    }

    fn errors(&self) -> TimeError
        ensures { result ≡ time_errors self.now }
    {
        TimeError {
            year: is_outside(u32::from(self.year), 1900, 9999),
            month: is_outside(u32::from(self.month), 1, 12),
            day: is_outside(u32::from(self.day), 1, 31),
            hour: is_outside(u32::from(self.hour), 0, 23),
            minute: is_outside(u32::from(self.minute), 0, 59),
            second: is_outside(u32::from(self.second), 0, 59),
            nanosecond: is_outside(self.nanosecond, 0, 999_999_999),
            timezone: !is_time_zone(self.time_zone),
            daylight: is_outside(u32::from(self.daylight), 0, 3),
        }
    }
}

impl From<[u8; 16]> for Time {
    ghost from_gives = { λ bytes t. (t ≡ time_of bytes) × (time_bytes t ≡ bytes) };

    fn from(bytes: [u8; 16]) -> Time {
        Time::read(&bytes)
    }
}

impl From<Time> for [u8; 16] {
    ghost from_gives = { λ t bytes. (bytes ≡ time_bytes t) × (time_of bytes ≡ t) };

    fn from(time: Time) -> [u8; 16] {
        let year = time.year.to_le_bytes();
        let nanosecond = time.nanosecond.to_le_bytes();
        let time_zone = time.time_zone.to_le_bytes();
        [
            year[0],
            year[1],
            time.month,
            time.day,
            time.hour,
            time.minute,
            time.second,
            time.pad1,
            nanosecond[0],
            nanosecond[1],
            nanosecond[2],
            nanosecond[3],
            time_zone[0],
            time_zone[1],
            time.daylight,
            time.pad2,
        ]
    }
}

fn is_outside(number: u32, low: u32, high: u32) -> bool
    ensures { result ≡ outside low high number }
{
    number < low || high < number
}

// Whether a number of minutes is an offset from UTC, or says that none is told.
fn is_time_zone(minutes: i16) -> bool
    ensures { result ≡ is_zone minutes }
{
    matches!(minutes, -1440..=1440 | Time::UNSPECIFIED_TIMEZONE)
}
