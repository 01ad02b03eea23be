// Numbers: big-endian in bytes, of 16 and 32 bits, unsigned and signed in two's complement, read from a slice and written into a buffer; tests
// of ranges; a float by its bits. Every call is total: a place where the bytes are not all inside reads as 0, and a write there changes nothing.
#![tactic(auto)]

ghost use Rattle.std.specs.Prelude.{◌≡◌, ◌+◌, ◌-◌, ◌%◌, ◌≤◌, ◌<◌, length, ◌&&◌, pos};
ghost use Rattle.std.specs.Int.{w16, w32};
ghost use Rattle.std.proofs.Common.{to_z, of_z};
ghost use Rattle.std.specs.Float.{binary32};
ghost use Rattle.std.specs.Float.Ieee.{of_bits};
ghost use Rattle.numbers.specs.BigEndian.{unsigned_at, signed_at, written_at, placed_at};
ghost use Rattle.numbers.specs.Ranges.{between, last_index};
ghost use Rattle.numbers.specs.Steps.{Loaded};

// The largest integer of 32 bits.
pub const INTEGER_LIMIT: usize = 2_147_483_647;

// The unsigned number in the 2 bytes that start at `at`; 0 where they are not all inside.
pub fn read_u16(bytes: &[u8], at: usize) -> u16
    ensures { result ≡ unsigned_at 2 bytes.now at }
{
    if 2 <= bytes.len().saturating_sub(at) {
        let n = loaded_u16(bytes, at);
        n % 256 * 256 + n / 256
    } else {
        0
    }
}

// The unsigned number in the 4 bytes that start at `at`; 0 where they are not all inside.
pub fn read_u32(bytes: &[u8], at: usize) -> u32
    ensures { result ≡ unsigned_at 4 bytes.now at }
{
    if 4 <= bytes.len().saturating_sub(at) {
        let n = loaded_u32(bytes, at);
        ((n % 256 * 256 + n / 256 % 256) * 256 + n / 256 / 256 % 256) * 256 + n / 256 / 256 / 256
    } else {
        0
    }
}

// The signed number in the 2 bytes that start at `at`; 0 where they are not all inside.
pub fn read_i16(bytes: &[u8], at: usize) -> i16
    ensures { result ≡ signed_at w16 bytes.now at }
{
    read_u16(bytes, at).cast_signed()
}

// The signed number in the 4 bytes that start at `at`; 0 where they are not all inside.
pub fn read_i32(bytes: &[u8], at: usize) -> i32
    ensures { result ≡ signed_at w32 bytes.now at }
{
    read_u32(bytes, at).cast_signed()
}

// Puts an unsigned number into the 2 bytes that start at `at`; changes nothing where they are not all inside.
pub fn write_u16(buffer: &mut [u8], at: usize, value: u16)
    ensures { buffer.new ≡ written_at 2 buffer.old at value }
{
    let half = value.to_be_bytes();
    write(buffer, at, &half);
}

// Puts an unsigned number into the 4 bytes that start at `at`; changes nothing where they are not all inside.
pub fn write_u32(buffer: &mut [u8], at: usize, value: u32)
    ensures { buffer.new ≡ written_at 4 buffer.old at value }
{
    let word = value.to_be_bytes();
    write(buffer, at, &word);
}

// Puts a signed number into the 2 bytes that start at `at`; changes nothing where they are not all inside.
pub fn write_i16(buffer: &mut [u8], at: usize, value: i16)
    ensures { buffer.new ≡ written_at 2 buffer.old at (of_z w16 value) }
{
    write_u16(buffer, at, value.cast_unsigned());
}

// Puts a signed number into the 4 bytes that start at `at`; changes nothing where they are not all inside.
pub fn write_i32(buffer: &mut [u8], at: usize, value: i32)
    ensures { buffer.new ≡ written_at 4 buffer.old at (of_z w32 value) }
{
    write_u32(buffer, at, value.cast_unsigned());
}

// Puts bytes at a place; changes nothing where there is no room for all.
fn write(buffer: &mut [u8], at: usize, bytes: &[u8])
    requires { 0 < length bytes.now }
    ensures { buffer.new ≡ placed_at (length bytes.now) buffer.old at bytes.now }
{
    if bytes.len() <= buffer.len().saturating_sub(at) {
        buffer[at..at + bytes.len()].copy_from_slice(bytes);
    }
}

// The 2 bytes at a place as the processor loads them, the lower first. In a function of its own the compiler makes one load of them, which
// it can do for several numbers at once where it is called.
fn loaded_u16(bytes: &[u8], at: usize) -> u16
    requires { at + 2 ≤ length bytes.now }
    ensures { Loaded 2 bytes.now at 0 result }
{
    u16::from(bytes[at + 1]) * 256 + u16::from(bytes[at])
}

// The 4 bytes at a place as the processor loads them, the lowest first.
fn loaded_u32(bytes: &[u8], at: usize) -> u32
    requires { at + 4 ≤ length bytes.now }
    ensures { Loaded 4 bytes.now at 0 result }
{
    let a = u32::from(bytes[at]);
    let b = u32::from(bytes[at + 1]);
    let c = u32::from(bytes[at + 2]);
    let d = u32::from(bytes[at + 3]);
    ((d * 256 + c) * 256 + b) * 256 + a
}

// The lowest byte of a number.
pub fn low_byte(number: u32) -> u8
    ensures { result ≡ number % 256 }
{
    (number % 256) as u8
}

// Whether a number lies between two others.
pub fn is_between(number: i32, low: i32, high: i32) -> bool
    ensures { result ≡ between low high number }
{
    (low..=high).contains(&number)
}

// The last index of a table of n entries that an integer can hold, -1 where there is none.
pub fn last_index(n: usize) -> i32
    ensures { result ≡ last_index n }
{
    if n == 0 {
        return -1;
    }
    if INTEGER_LIMIT < n {
        return i32::MAX;
    }
    (n - 1) as i32
}

// The float of a bit pattern; a NaN's pattern gives a NaN.
pub fn of_bits(bits: u32) -> f32
    ensures { result ≡ of_bits binary32 bits }
{
    if bits % 0x8000_0000 <= 0x7f80_0000 {
        f32::from_bits(bits)
    } else {
        0.0 / 0.0
    }
}
