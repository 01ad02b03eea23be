// The writers of plain numbers, of floats and of names: payloads of a number for each cell. Every call is total, and where it refuses
// it changes nothing.
ghost use Rattle.std.specs.Prelude.{◌≡◌, ◌+◌, ◌≤◌, true, false, map, length, pos};
ghost use Rattle.std.specs.Int.{w32};
ghost use Rattle.std.proofs.Common.{to_z};
ghost use Rattle.numbers.specs.BigEndian.{bytes_of};
ghost use Rattle.steps.specs.Numbers.{bytes_for};
ghost use Rattle.steps.specs.Payload.{range_of, all_in};
ghost use Rattle.steps.specs.Width.{size_of};
ghost use Rattle.refusal.specs.Outcome.{numbered};
ghost use Rattle.writers.specs.Placed.{over, placed_cells, laid_cells};

use refusal::Refusal;
use steps::{Form, Range, Size};

// The payload of plain numbers.
pub fn place_numbers(
    values: &[i32],
    size: Size,
    buffer: &mut [u8],
    at: usize,
) -> Result<usize, Refusal>
    ensures answer { numbered result ≡ placed_cells (Form.Plain size) 0 false values.now (length buffer.old) at }
    ensures buffer { buffer.new ≡ laid_cells (Form.Plain size) 0 false values.now buffer.old at }
{
    match size {
        Size::One => place_sized(values, Size::One, buffer, at),
        Size::Two => place_sized(values, Size::Two, buffer, at),
        Size::Four => place_sized(values, Size::Four, buffer, at),
    }
}

// The payload of names of `size` bytes each.
pub fn place_names(
    names: &[u8],
    size: usize,
    buffer: &mut [u8],
    at: usize,
) -> Result<usize, Refusal>
    ensures answer { numbered result ≡ placed_cells Form.Names size false (map pos names.now) (length buffer.old) at }
    ensures buffer { buffer.new ≡ laid_cells Form.Names size false (map pos names.now) buffer.old at }
{
    if !steps::are_names(names, size) {
        return Err(Refusal::NumberNotAllowed);
    }
    let n = names.len();
    if !crate::fits(n, buffer.len(), at) {
        return Err(Refusal::BufferTooSmall);
    }
    write_names(names, buffer, at);
    Ok(n)
}

// The payload of floats, by their bits.
pub fn place_floats(bits: &[u32], buffer: &mut [u8], at: usize) -> Result<usize, Refusal>
    ensures answer { numbered result ≡ placed_cells (Form.Plain Size.Four) 0 false (map (to_z w32) bits.now) (length buffer.old) at }
    ensures buffer { buffer.new ≡ laid_cells (Form.Plain Size.Four) 0 false (map (to_z w32) bits.now) buffer.old at }
{
    let n = bits.len() * 4;
    if !crate::fits(n, buffer.len(), at) {
        return Err(Refusal::BufferTooSmall);
    }
    write_floats(bits, buffer, at);
    Ok(n)
}

// Places numbers of one size; `place_numbers` calls it with each size as a constant, so that each has a loop of its own.
fn place_sized(
    values: &[i32],
    size: Size,
    buffer: &mut [u8],
    start: usize,
) -> Result<usize, Refusal>
    ensures answer { numbered result ≡ placed_cells (Form.Plain size) 0 false values.now (length buffer.old) start }
    ensures buffer { buffer.new ≡ laid_cells (Form.Plain size) 0 false values.now buffer.old start }
{
    if !crate::all_in(values, range_of(size)) {
        return Err(Refusal::NumberNotAllowed);
    }
    let n = values.len() * steps::bytes(size);
    if !crate::fits(n, buffer.len(), start) {
        return Err(Refusal::BufferTooSmall);
    }
    write_numbers(values, size, buffer, start);
    Ok(n)
}

// The numbers that a plain form may hold.
fn range_of(size: Size) -> Range
    ensures { result ≡ range_of (Form.Plain size) }
{
    match size {
        Size::One => Range::Int8,
        Size::Two => Range::Int16,
        Size::Four => Range::Int32,
    }
}

// Plain numbers from `start` on. A hot loop: it stays in the form that was measured.
fn write_numbers(values: &[i32], size: Size, buffer: &mut [u8], start: usize)
    requires { (all_in (range_of (Form.Plain size)) values.now ≡ true) × (start + length (bytes_for size values.now) ≤ length buffer.old) }
    ensures { buffer.new ≡ over buffer.old start (bytes_for size values.now) }
{
    let mut at = start;
    let mut i: usize = 0;
    while i < values.len() {
        put(buffer, at, values[i].cast_unsigned(), size);
        at += steps::bytes(size);
        i += 1;
    }
}

// Names from `start` on. A loop: with `copy_from_slice` the library for C would need `memmove` from outside.
fn write_names(names: &[u8], buffer: &mut [u8], start: usize)
    requires { start + length (bytes_for Size.One (map pos names.now)) ≤ length buffer.old }
    ensures { buffer.new ≡ over buffer.old start (bytes_for Size.One (map pos names.now)) }
{
    let mut at = start;
    for byte in names {
        crate::put_one(buffer, at, *byte as u32);
        at += 1;
    }
}

// Floats from `start` on.
fn write_floats(bits: &[u32], buffer: &mut [u8], start: usize)
    requires { start + length (bytes_for Size.Four (map (to_z w32) bits.now)) ≤ length buffer.old }
    ensures { buffer.new ≡ over buffer.old start (bytes_for Size.Four (map (to_z w32) bits.now)) }
{
    let mut at = start;
    for x in bits {
        crate::put_four(buffer, at, *x);
        at += 4;
    }
}

// The low bytes of a number, as many as its size says.
fn put(buffer: &mut [u8], at: usize, bits: u32, size: Size)
    requires { at + size_of size ≤ length buffer.old }
    ensures { buffer.new ≡ over buffer.old at (bytes_of (size_of size) bits) }
{
    match size {
        Size::One => crate::put_one(buffer, at, bits),
        Size::Two => crate::put_two(buffer, at, bits),
        Size::Four => crate::put_four(buffer, at, bits),
    }
}
