// The writers of payloads: `plain` for numbers, floats and names of one number a cell, `packed`, and `runs`; each answers how many bytes it put.
// Here is what they share: whether a form may hold a column's cells (18), room (25), delta, and the bytes of one number. Every call of a module
// is total, and where it refuses it changes nothing.
#![tactic(auto)]

pub mod packed;
pub mod plain;
pub mod runs;

ghost use Rattle.std.specs.Prelude.{◌≡◌, ◌+◌, ◌≤◌, map, length, pos, nat_le};
ghost use Rattle.numbers.specs.BigEndian.{bytes_of};
ghost use Rattle.steps.specs.Delta.{delta_if};
ghost use Rattle.steps.specs.Payload.{all_in};
ghost use Rattle.writers.specs.Bits.{Swapped};
ghost use Rattle.writers.specs.Placed.{over};

use steps::Range;

// Whether n bytes from `at` on are inside a buffer.
fn fits(n: usize, length: usize, at: usize) -> bool
    ensures { result ≡ nat_le (at + n) length }
{
    at <= length && n <= length - at
}

// Whether every value is of a range.
fn all_in(values: &[i32], range: Range) -> bool
    ensures { result ≡ all_in range values.now }
{
    match range {
        Range::Int8 => each_in(values, Range::Int8),
        Range::Int16 => each_in(values, Range::Int16),
        Range::Int32 => each_in(values, Range::Int32),
        Range::Ascii => each_in(values, Range::Ascii),
    }
}

// Whether all numbers are of a range; `all_in` calls it with each range as a constant, so that each has a loop of its own.
// A hot loop: it stays in the form that was measured.
fn each_in(values: &[i32], range: Range) -> bool
    ensures { result ≡ all_in range values.now }
{
    let mut ok = true;
    let mut i: usize = 0;
    while i < values.len() {
        ok = ok & steps::is_in(values[i], range);
        i += 1;
    }
    ok
}

// Whether every byte is ASCII.
fn all_ascii(values: &[u8]) -> bool
    ensures { result ≡ all_in Range.Ascii (map pos values.now) }
{
    let mut ok = true;
    for b in values {
        ok &= *b <= 127;
    }
    ok
}

// What a payload holds for a cell, by the cell before it.
fn delta_if(before: i32, x: i32, delta: bool) -> i32
    ensures { result ≡ delta_if delta before x }
{
    if delta { steps::delta_of(x, before) } else { x }
}

// The lowest byte.
fn put_one(buffer: &mut [u8], at: usize, bits: u32)
    requires { at + 1 ≤ length buffer.old }
    ensures { buffer.new ≡ over buffer.old at (bytes_of 1 bits) }
{
    buffer[at] = numbers::low_byte(bits);
}

// The two lowest bytes.
fn put_two(buffer: &mut [u8], at: usize, bits: u32)
    requires { at + 2 ≤ length buffer.old }
    ensures { buffer.new ≡ over buffer.old at (bytes_of 2 bits) }
{
    buffer[at] = numbers::low_byte(bits / 256);
    buffer[at + 1] = numbers::low_byte(bits);
}

// All four bytes, by the number that has them in the other order: its lowest byte is stored first, as the machine does at once.
fn put_four(buffer: &mut [u8], at: usize, bits: u32)
    requires { at + 4 ≤ length buffer.old }
    ensures { buffer.new ≡ over buffer.old at (bytes_of 4 bits) }
{
    let other = swapped(bits);
    buffer[at] = numbers::low_byte(other);
    buffer[at + 1] = numbers::low_byte(other / 256);
    buffer[at + 2] = numbers::low_byte(other / 256 / 256);
    buffer[at + 3] = numbers::low_byte(other / 256 / 256 / 256);
}

// The four bytes of a number in the other order.
fn swapped(bits: u32) -> u32
    ensures { Swapped bits result }
{
    let a = bits / 256 / 256 / 256;
    let b = bits / 256 / 256 % 256;
    let c = bits / 256 % 256;
    let d = bits % 256;
    ((d * 256 + c) * 256 + b) * 256 + a
}
