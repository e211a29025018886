// The words of a line, and what they stand for: numbers, bytes in hexadecimal, names and times.
use hex::{FromHex, FromHexError};
use std::alloc::{AllocError, AllocFailed, Global};
use std::str::{FromStr, SplitWhitespace};
use uefi_time::Time;

// Why a line has no answer.
#[derive(Drop)]
pub enum Fault {
    // the line lacks this field, or it cannot be read
    Field(&'static str),
    Memory,
}

impl From<AllocError> for Fault {
    fn from(_value: AllocError) -> Fault {
        Fault::Memory
    }
}

impl<T: Drop> From<AllocFailed<T>> for Fault {
    fn from(_value: AllocFailed<T>) -> Fault {
        Fault::Memory
    }
}

// The words of a line, in turn, and the heap on which answers are made; after the last word they are empty,
// as fields are that a line lacks.
#[derive(Drop)]
pub struct Words<'a> {
    pub heap: Global,
    words: SplitWhitespace<'a>,
}

impl<'a> Words<'a> {
    pub fn new(heap: Global, line: &'a str) -> Words<'a> {
        Words {
            heap,
            words: line.split_whitespace(),
        }
    }

    pub fn word(&mut self) -> &'a str {
        self.words.next().unwrap_or("")
    }

    pub fn number<T: FromStr>(&mut self, what: &'static str) -> Result<T, Fault>
    where
        T::Err: Drop,
    {
        self.word().parse::<T>().map_err(|_| Fault::Field(what))
    }

    // The bytes that two digits each stand for; a lone `-` stands for none.
    pub fn bytes(&mut self) -> Result<Vec<u8>, Fault> {
        bytes_of(self.heap, self.word())
    }

    // A time by its sixteen bytes; bytes that are not given are zero.
    pub fn time(&mut self, what: &'static str) -> Result<Time, Fault> {
        let word = self.word();
        if word.is_empty() {
            return Err(Fault::Field(what));
        }
        let bytes = bytes_of(self.heap, word)?;
        Ok(Time::read(&bytes))
    }

    // The units of a name: each byte its own, and `\` with four digits the one of that number.
    pub fn name(&mut self) -> Result<Vec<u16>, Fault> {
        let mut units = Vec::new(self.heap);
        let mut parts = self.word().split('\\');
        let plain = parts.next().unwrap_or("");
        units.extend(plain.bytes().map(u16::from))?;
        for part in parts {
            let (digits, plain) = part.split_at_checked(4).ok_or(Fault::Field("name"))?;
            let unit = <[u8; 2] as FromHex>::from_hex(digits).map_err(|_| Fault::Field("name"))?;
            units.push(u16::from_be_bytes(unit))?;
            units.extend(plain.bytes().map(u16::from))?;
        }
        Ok(units)
    }
}

fn bytes_of(heap: Global, word: &str) -> Result<Vec<u8>, Fault> {
    let digits = if word == "-" { "" } else { word };
    // The decoder asks for the memory of all bytes before it looks at a digit.
    if !digits.bytes().all(|digit| digit.is_ascii_hexdigit()) {
        return Err(Fault::Field("bytes"));
    }
    hex::decode(heap, digits).map_err(|error| match error {
        FromHexError::OutOfMemory => Fault::Memory,
        _ => Fault::Field("bytes"),
    })
}
