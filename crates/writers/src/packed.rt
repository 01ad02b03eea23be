// The writer of packed numbers. Every call is total, and where it refuses it changes nothing.
ghost use Rattle.std.specs.Prelude.{◌≡◌, ◌+◌, ◌-◌, ◌%◌, ◌<◌, ◌≤◌, [], ◌∷◌, ◌++◌, length, replicate, nat_lt};
ghost use Rattle.numbers.specs.BigEndian.{bytes_of};
ghost use Rattle.steps.specs.Width.{upper, lower, size_of};
ghost use Rattle.steps.specs.Numbers.{bytes_for};
ghost use Rattle.steps.specs.Delta.{deltas_if};
ghost use Rattle.steps.specs.Packing.{pack_one, pack};
ghost use Rattle.refusal.specs.Outcome.{numbered};
ghost use Rattle.writers.specs.Placed.{over, placed_cells, laid_cells};
ghost use Rattle.writers.specs.Bits.{bits_for, up_to, to_write, GoesOn};

use refusal::Refusal;
use steps::{Form, Range, Size};

// The next value to be written, the place of its bytes, and the value before it.
#[derive(Clone, Copy)]
struct Spot {
    next: usize,
    at: usize,
    before: i32,
}

// The payload of packed numbers.
pub fn place_numbers(
    values: &[i32],
    size: Size,
    delta: bool,
    buffer: &mut [u8],
    start: usize,
) -> Result<usize, Refusal>
    ensures answer { numbered result ≡ placed_cells (Form.Packed size) 0 delta values.now (length buffer.old) start }
    ensures buffer { buffer.new ≡ laid_cells (Form.Packed size) 0 delta values.now buffer.old start }
{
    if !crate::all_in(values, Range::Int32) {
        return Err(Refusal::NumberNotAllowed);
    }
    if buffer.len() < start {
        return Err(Refusal::BufferTooSmall);
    }
    let room = buffer.len() - start;
    let n = count_numbers(values, size, delta, room);
    if room < n {
        return Err(Refusal::BufferTooSmall);
    }
    write_numbers(values, size, delta, buffer, start);
    Ok(n)
}

// How many bytes packed numbers have; where they are more than the room, one more than it. Each value is one number, and a few are more.
// A hot loop: it stays in the form that was measured.
fn count_numbers(values: &[i32], size: Size, delta: bool, room: usize) -> usize
    requires { room < 9223372036854775808 }
    ensures { result ≡ up_to room (length (bytes_for size (pack size (deltas_if delta values.now)))) }
{
    let k = steps::bytes(size);
    let fit = room / k;
    let mut n = values.len();
    if fit < n {
        return room + 1;
    }
    let low = lower(size) - 1;
    let span = upper(size) + low;
    let mut before: i32 = 0;
    let mut i: usize = 0;
    while i < values.len() {
        let x = values[i];
        let more = limits_of(crate::delta_if(before, x, delta), size, low, span);
        if fit - n < more {
            return room + 1;
        }
        n += more;
        before = x;
        i += 1;
    }
    n * k
}

// How many limits of the width one packed value has, before the rest.
fn limits_of(x: i32, size: Size, low: u32, span: u32) -> usize
    requires { (low ≡ lower size - 1) × (span ≡ upper size + low) }
    ensures { (result + 1 ≡ length (pack_one (upper size) (lower size) x)) × (result < 4294967296) }
{
    if is_short(x.cast_unsigned(), low, span) {
        return 0;
    }
    limits_of_long(x, size)
}

// How many limits a value of any size takes: one for each time that it reaches the limit. Both signs are divided before the sign is
// asked for: it is hard to foretell, and a division by a constant costs less than a wrong guess.
fn limits_of_long(x: i32, size: Size) -> usize
    ensures { (result + 1 ≡ length (pack_one (upper size) (lower size) x)) × (result < 4294967296) }
{
    let bits = x.cast_unsigned();
    let above = bits / upper(size);
    let below = negated(bits) / lower(size);
    if bits < 0x8000_0000 {
        return above as usize;
    }
    below as usize
}

// Packed numbers from `start` on: short values by a loop of their own, up to the next that is not.
fn write_numbers(values: &[i32], size: Size, delta: bool, buffer: &mut [u8], start: usize)
    requires { start + length (bytes_for size (pack size (deltas_if delta values.now))) ≤ length buffer.old }
    ensures { buffer.new ≡ over buffer.old start (bytes_for size (pack size (deltas_if delta values.now))) }
{
    let mut spot = Spot {
        next: 0,
        at: start,
        before: 0,
    };
    loop {
        spot = write_short(values, size, delta, buffer, spot);
        let i = spot.next;
        if values.len() <= i {
            return;
        }
        let x = values[i];
        let at = write_long(
            crate::delta_if(spot.before, x, delta),
            size,
            buffer,
            spot.at,
        );
        spot = Spot {
            next: i + 1,
            at,
            before: x,
        };
    }
}

// Writes the values from a spot on that are one number each, and gives the spot of the first that is more.
// A hot loop from a place in the middle: it stays in the form that was measured.
fn write_short(values: &[i32], size: Size, delta: bool, buffer: &mut [u8], from: Spot) -> Spot
    requires { from.at + length (to_write size delta values.now from) ≤ length buffer.old }
    ensures room { result.at + length (to_write size delta values.now result) ≤ length buffer.old }
    ensures buffer { GoesOn size delta values.now buffer.old from buffer.new result }
    ensures order { from.next ≤ result.next }
{
    let k = steps::bytes(size);
    let low = lower(size) - 1;
    let span = upper(size) + low;
    let mut before = from.before;
    let mut at = from.at;
    let mut i = from.next;
    while i < values.len() {
        let x = values[i];
        let bits = crate::delta_if(before, x, delta).cast_unsigned();
        if !is_short(bits, low, span) {
            return Spot {
                next: i,
                at,
                before,
            };
        }
        put(buffer, at, bits, size);
        at += k;
        before = x;
        i += 1;
    }
    Spot {
        next: i,
        at,
        before,
    }
}

// One packed value from `at` on; gives the place after it.
fn write_long(x: i32, size: Size, buffer: &mut [u8], at: usize) -> usize
    requires { at + length (bytes_for size (pack_one (upper size) (lower size) x)) ≤ length buffer.old }
    ensures place { result ≡ at + length (bytes_for size (pack_one (upper size) (lower size) x)) }
    ensures buffer { buffer.new ≡ over buffer.old at (bytes_for size (pack_one (upper size) (lower size) x)) }
{
    let bits = x.cast_unsigned();
    if bits < 0x8000_0000 {
        let p = upper(size);
        return write_parts(bits / p, p, bits % p, size, buffer, at);
    }
    let q = lower(size);
    let n = negated(bits);
    write_parts(n / q, negated(q), negated(n % q), size, buffer, at)
}

// `count` times a limit and then the rest, from `start` on; gives the place after them.
fn write_parts(
    count: u32,
    limit: u32,
    rest: u32,
    size: Size,
    buffer: &mut [u8],
    start: usize,
) -> usize
    requires { start + length (bits_for size (replicate count limit ++ (rest ∷ []))) ≤ length buffer.old }
    ensures place { result ≡ start + length (bits_for size (replicate count limit ++ (rest ∷ []))) }
    ensures buffer { buffer.new ≡ over buffer.old start (bits_for size (replicate count limit ++ (rest ∷ []))) }
{
    let k = steps::bytes(size);
    let mut at = start;
    for _ in 0..count {
        put(buffer, at, limit, size);
        at += k;
    }
    put(buffer, at, rest, size);
    at + k
}

// The low bytes of a packed number. Four bytes are written by a call, so that the loops for one and two, which the codecs have, stay short.
fn put(buffer: &mut [u8], at: usize, bits: u32, size: Size)
    requires { at + size_of size ≤ length buffer.old }
    ensures { buffer.new ≡ over buffer.old at (bytes_of (size_of size) bits) }
{
    match size {
        Size::One => crate::put_one(buffer, at, bits),
        Size::Two => crate::put_two(buffer, at, bits),
        Size::Four => numbers::write_u32(buffer, at, bits),
    }
}

// Whether the bits are of a value that is one number of its size: between the limits, by one test. `low` is the lower limit without
// its sign, less 1, and `span` is what lies between the two limits.
fn is_short(bits: u32, low: u32, span: u32) -> bool
    ensures { result ≡ nat_lt ((bits + low) % 4294967296) span }
{
    bits.wrapping_add(low) < span
}

// The largest number of a size.
fn upper(size: Size) -> u32
    ensures { result ≡ upper size }
{
    match size {
        Size::One => 127,
        Size::Two => 32767,
        Size::Four => 2147483647,
    }
}

// The smallest number of a size, without its sign.
fn lower(size: Size) -> u32
    ensures { result ≡ lower size }
{
    match size {
        Size::One => 128,
        Size::Two => 32768,
        Size::Four => 2147483648,
    }
}

// The bits of a number with the other sign.
fn negated(bits: u32) -> u32
    ensures { result ≡ (4294967296 - bits) % 4294967296 }
{
    bits.wrapping_neg()
}
