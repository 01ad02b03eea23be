// The steps that the codecs are made of: signed big-endian numbers of 1, 2 and 4 bytes, run-length, delta and recursive index
// (packing), each defined once on lists in specs/. The calls here are the steps on single numbers and the check of names, and every call
// is total.
#![tactic(auto)]

ghost use Rattle.std.specs.Prelude.{◌≡◌, ◌+◌, ◌<◌, ◌≤◌, true, ◌&&◌, map, length, take, drop, pos, nat_le};
ghost use Rattle.std.specs.Int.{w8};
ghost use Rattle.std.proofs.Common.{to_z};
ghost use Rattle.numbers.specs.BigEndian.{signed_at};
ghost use Rattle.steps.specs.Width.{width_of, size_of, upper, lower};
ghost use Rattle.steps.specs.Delta.{plus_delta, minus_delta};
ghost use Rattle.steps.specs.Packing.{is_limit};
ghost use Rattle.steps.specs.Payload.{least_in, most_in, in_range, all_in, padded_from, allowed};
ghost use Rattle.steps.specs.Steps.{turn_of, one_name, word_of, zeros_last};

// The size of a number, in bytes.
#[derive(Clone, Copy)]
pub enum Size {
    One,
    Two,
    Four,
}

// The numbers that a value may be.
#[derive(Clone, Copy)]
pub enum Range {
    Int8,
    Int16,
    Int32,
    Ascii,
}

// How a payload holds its values: a number for each, packed numbers, runs of a value and a count, or the bytes of names.
#[derive(Clone, Copy)]
pub enum Form {
    Plain(Size),
    Packed(Size),
    Runs(Range),
    Names,
}

// What one packed number does to a result: the sum goes on, or is done, or is outside 32 bits. An enum, since these are three.
#[derive(Clone, Copy)]
pub enum Turn {
    More(i32),
    Done(i32),
    Wrong,
}

// How many bytes a number has.
pub fn bytes(size: Size) -> usize
    ensures { result ≡ size_of size }
{
    match size {
        Size::One => 1,
        Size::Two => 2,
        Size::Four => 4,
    }
}

// The number at a place; 0 where its bytes are not all inside.
pub fn number_at(payload: &[u8], at: usize, size: Size) -> i32
    ensures { result ≡ signed_at (width_of size) payload.now at }
{
    match size {
        Size::One => i32::from(read_i8(payload, at)),
        Size::Two => i32::from(numbers::read_i16(payload, at)),
        Size::Four => numbers::read_i32(payload, at),
    }
}

// Whether a value is of a range.
pub fn is_in(value: i32, range: Range) -> bool
    ensures { result ≡ in_range range value }
{
    least(range) <= value && value <= most(range)
}

// a + d, modulo 2^32 into the signed range.
pub fn add_delta(a: i32, d: i32) -> i32
    ensures { result ≡ plus_delta a d }
{
    a.wrapping_add(d)
}

// x - a, modulo 2^32 into the signed range.
pub fn delta_of(x: i32, a: i32) -> i32
    ensures { result ≡ minus_delta x a }
{
    x.wrapping_sub(a)
}

// One packed number more on top of the sum so far.
pub fn unpack_one(sum: i32, number: i32, size: Size) -> Turn
    ensures { result ≡ turn_of size sum number }
{
    let t = i64::from(sum) + i64::from(number);
    if t < -2147483648 || 2147483647 < t {
        return Turn::Wrong;
    }
    if is_limit(number, size) {
        return Turn::More(t as i32);
    }
    Turn::Done(t as i32)
}

// Whether a number is a limit of its size.
pub fn is_limit(number: i32, size: Size) -> bool
    ensures { result ≡ is_limit (upper size) (lower size) number }
{
    match size {
        Size::One => number == 127 || number == -128,
        Size::Two => number == 32767 || number == -32768,
        Size::Four => number == 2147483647 || number == -2147483648,
    }
}

// Whether names of `size` bytes each are ASCII and padded. Small sizes are constants, so that each has a loop of its own; without a size
// there is one name.
pub fn are_names(names: &[u8], size: usize) -> bool
    ensures { result ≡ allowed Form.Names size (map pos names.now) }
{
    if !are_ascii(names) {
        return false;
    }
    match size {
        0 => is_padded(names),
        1 => true,
        2 => are_padded(names, 2),
        3 => are_padded(names, 3),
        4 => are_padded(names, 4),
        _ => are_padded(names, size),
    }
}

// Whether every byte is ASCII, by the highest of them. One loop goes through both halves at once, and a last odd byte is looked at after it:
// with more bytes in a turn, it matters less where the linker puts the loop.
fn are_ascii(bytes: &[u8]) -> bool
    ensures { result ≡ all_in Range.Ascii (map pos bytes.now) }
{
    let half = bytes.len() / 2;
    let mut highest: u8 = 0;
    for i in 0..half {
        highest = higher(highest, higher(bytes[i], bytes[half + i]));
    }
    let last = half + half;
    if last < bytes.len() {
        return higher(highest, bytes[last]) <= 127;
    }
    highest <= 127
}

// The higher of two bytes.
fn higher(a: u8, b: u8) -> u8
    ensures { nat_le result 127 ≡ (nat_le a 127 && nat_le b 127) }
{
    if a < b { b } else { a }
}

// Whether names of a size are padded: each whole one, and what is left after them. `&`, here and below, since it has no branch.
fn are_padded(names: &[u8], size: usize) -> bool
    requires { (0 < size) × (all_in Range.Ascii (map pos names.now) ≡ true) }
    ensures { result ≡ padded_from size 0 (pos 0) (map pos names.now) }
{
    let n = names.len() / size;
    let mut ok = true;
    for i in 0..n {
        ok &= is_name(names, i * size, size);
    }
    ok & is_padded(&names[n * size..])
}

// Whether the name at a place is padded. One of four bytes is tested as one number.
fn is_name(names: &[u8], at: usize, size: usize) -> bool
    requires { (at + size ≤ length names.now) × (all_in Range.Ascii (map pos names.now) ≡ true) }
    ensures { result ≡ one_name (take size (drop at names.now)) }
{
    match size {
        4 => zeros_last(word_of(names[at], names[at + 1], names[at + 2], names[at + 3])),
        _ => is_padded(&names[at..at + size]),
    }
}

// Whether one name is padded: after a 0 there are only zeros.
fn is_padded(name: &[u8]) -> bool
    ensures { result ≡ one_name name.now }
{
    let mut ok = true;
    for i in 1..name.len() {
        ok &= (name[i - 1] != 0) | (name[i] == 0);
    }
    ok
}

// Four bytes as one number, the first byte the lowest: the sum that the definition says.
fn word_of(a: u8, b: u8, c: u8, d: u8) -> u32
    ensures { result ≡ word_of a b c d }
{
    u32::from(a) + u32::from(b) * 256 + u32::from(c) * 65536 + u32::from(d) * 16777216
}

// Whether the bytes of a word that are 0 are its last. A byte below 128 that is not 0 has its highest bit set once 127 is added.
fn zeros_last(word: u32) -> bool
    ensures { result ≡ zeros_last word }
{
    let marks = word.wrapping_add(0x7f7f_7f7f) & 0x8080_8080;
    (marks == 0)
        | (marks == 0x80)
        | (marks == 0x8080)
        | (marks == 0x80_8080)
        | (marks == 0x8080_8080)
}

fn least(range: Range) -> i32
    ensures { result ≡ least_in range }
{
    match range {
        Range::Int8 => -128,
        Range::Int16 => -32768,
        Range::Int32 => -2147483648,
        Range::Ascii => 0,
    }
}

fn most(range: Range) -> i32
    ensures { result ≡ most_in range }
{
    match range {
        Range::Int8 => 127,
        Range::Int16 => 32767,
        Range::Int32 => 2147483647,
        Range::Ascii => 127,
    }
}

fn read_i8(payload: &[u8], at: usize) -> i8
    ensures { result ≡ signed_at w8 payload.now at }
{
    if at < payload.len() {
        payload[at].cast_signed()
    } else {
        0
    }
}
