// Numbers as bytes, the lowest byte first.
ghost use Rattle.std.specs.Prelude.{◌≡◌, ◌^◌, ◌<◌, min, length, take, drop};
ghost use Rattle.uefi_types.specs.LittleEndian.{le_bytes, le_value, field};

// The number that the bytes hold; of more than eight, the first eight.
pub fn read_le(bytes: &[u8]) -> u64
    ensures value { result ≡ le_value (take 8 bytes.now) }
    ensures bound { result < 256 ^ length bytes.now }
{
    let mut value = 0;
    let count = bytes.len().min(8);
    // A loop, since widths are mostly known where this is called: a copy into eight bytes took five times as long there.
    for k in (0..count).rev() {
        value = value * 256 + u64::from(bytes[k]);
    }
    value
}

// At most `len` bytes from `at` on, as many as there are.
pub fn part(bytes: &[u8], at: usize, len: usize) -> &[u8]
    ensures { result.now ≡ take len (drop at bytes.now) }
{
    let from = at.min(bytes.len());
    let end = from + len.min(bytes.len() - from);
    &bytes[from..end]
}

// The number that `width` bytes from `at` on hold, eight at most; bytes past the end count as zero.
pub fn read_field(bytes: &[u8], at: usize, width: usize) -> u64
    ensures value { result ≡ field at (min width 8) bytes.now }
    ensures bound { result < 256 ^ width }
{
    read_le(part(bytes, at, width.min(8)))
}

// Writes the low bytes of a number, as many as there is room for.
pub fn write_le(bytes: &mut [u8], value: u64)
    ensures { bytes.new ≡ le_bytes (length bytes.old) value }
{
    let mut rest = value;
    for byte in bytes.iter_mut() {
        *byte = (rest % 256) as u8;
        rest /= 256;
    }
}
