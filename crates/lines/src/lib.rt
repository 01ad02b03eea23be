// The values of a column as lines of text in a lent buffer: as many lines as have room. Every call is total. Module `single` puts one line.
#![tactic(auto)]

mod exact;
pub mod single;

ghost use Rattle.std.specs.Prelude.{◌≡◌, ◌+◌, ◌<◌, ◌≤◌, length, take};
ghost use Rattle.text.specs.Put.{Put};
ghost use Rattle.lines.specs.Texts.{digits, places_of, fraction_text, magnitude_text, number_text, sign_text};
ghost use Rattle.lines.specs.Texts.{lead_of, scaled_of, exponent_text, finite_text, special_text, bits_text, name_text};
ghost use Rattle.lines.specs.Decimals.{float_text, float_in};
ghost use Rattle.lines.specs.Lines.{line, Lines, names_in};

// How many values were put as lines, and how many bytes these take.
#[derive(Clone, Copy)]
pub struct Gathered {
    pub values: usize,
    pub bytes: usize,
}

// How a float is written: in exact decimal, or in the hexadecimal notation of C.
#[derive(Clone, Copy)]
pub enum Notation {
    Decimal,
    Hexadecimal,
}

// The room that the line of a number always has.
const ROOM: usize = 32;

// The room that the line of a float always has.
const FLOAT_ROOM: usize = 192;

// Numbers over a divisor, a line each: exactly so many decimal places if the divisor is a power of ten, else the number, a slash and
// the divisor.
pub fn number_lines(values: &[i32], divisor: u32, buffer: &mut [u8]) -> Gathered
    ensures { Lines (number_text divisor) 32 values.now buffer.old buffer.new result }
{
    let places = places_of(divisor);
    let mut at: usize = 0;
    for (i, value) in values.iter().enumerate() {
        if buffer.len() - at < ROOM {
            return Gathered {
                values: i,
                bytes: at,
            };
        }
        at = put_number(buffer, at, *value, divisor, places);
    }
    Gathered {
        values: values.len(),
        bytes: at,
    }
}

// Floats of single precision by their bits, a line each, in a notation.
// Its loop is that of `number_lines`: one for both would take the writer of a line as a closure, whose contract is longer than the loop.
pub fn float_lines(values: &[u32], notation: Notation, buffer: &mut [u8]) -> Gathered
    ensures { Lines (float_in notation) 192 values.now buffer.old buffer.new result }
{
    let mut at: usize = 0;
    for (i, value) in values.iter().enumerate() {
        if buffer.len() - at < FLOAT_ROOM {
            return Gathered {
                values: i,
                bytes: at,
            };
        }
        at = put_in(buffer, at, *value, notation);
    }
    Gathered {
        values: values.len(),
        bytes: at,
    }
}

// Names of a size, a line each, without the 0 bytes at their ends. Characters are names of one byte.
pub fn name_lines(names: &[u8], size: usize, buffer: &mut [u8]) -> Gathered
    ensures { Lines name_text (size + 1) (names_in size names.now) buffer.old buffer.new result }
{
    let mut at: usize = 0;
    let mut i: usize = 0;
    let mut from: usize = 0;
    if size == 0 {
        return Gathered {
            values: 0,
            bytes: 0,
        };
    }
    // A `while`, since the step is the size.
    while size <= names.len() - from {
        if buffer.len() - at <= size {
            return Gathered {
                values: i,
                bytes: at,
            };
        }
        let end = from + size;
        at = put_name(buffer, at, &names[from..end]);
        from = end;
        i += 1;
    }
    Gathered {
        values: i,
        bytes: at,
    }
}

// How many decimal places a divisor gives: so many if it is a power of ten, and else none that end.
fn places_of(divisor: u32) -> Option<usize>
    ensures { result ≡ places_of divisor }
{
    match divisor {
        1 => Some(0),
        10 => Some(1),
        100 => Some(2),
        1_000 => Some(3),
        10_000 => Some(4),
        100_000 => Some(5),
        1_000_000 => Some(6),
        10_000_000 => Some(7),
        100_000_000 => Some(8),
        1_000_000_000 => Some(9),
        _ => None,
    }
}

// Puts the line of a number over a divisor.
fn put_number(
    buffer: &mut [u8],
    at: usize,
    number: i32,
    divisor: u32,
    places: Option<usize>,
) -> usize
    requires { places ≡ places_of divisor }
    ensures { Put buffer.old at (line (number_text divisor) number) buffer.new result }
{
    let bits = number.cast_unsigned();
    if bits < 0x8000_0000 {
        let end = put_magnitude(buffer, at, bits, divisor, places);
        return text::put_byte(buffer, end, b'\n');
    }
    let sign = text::put_byte(buffer, at, b'-');
    let end = put_magnitude(buffer, sign, 0xffff_ffff - bits + 1, divisor, places);
    text::put_byte(buffer, end, b'\n')
}

// Puts a number that is not negative, over a divisor.
fn put_magnitude(
    buffer: &mut [u8],
    at: usize,
    number: u32,
    divisor: u32,
    places: Option<usize>,
) -> usize
    requires { places ≡ places_of divisor }
    ensures { Put buffer.old at (magnitude_text divisor number) buffer.new result }
{
    match places {
        Some(k) => {
            let point = text::put_decimal(buffer, at, number / divisor);
            put_fraction(buffer, point, number, k)
        }
        None => {
            let slash = text::put_decimal(buffer, at, number);
            let over = text::put_byte(buffer, slash, b'/');
            text::put_decimal(buffer, over, divisor)
        }
    }
}

// Puts a point and the last k digits of a number; nothing where there are none.
fn put_fraction(buffer: &mut [u8], at: usize, number: u32, k: usize) -> usize
    ensures { Put buffer.old at (fraction_text k number) buffer.new result }
{
    if k == 0 {
        return at;
    }
    let first = text::put_byte(buffer, at, b'.');
    put_digits(buffer, first, number, 10, k)
}

// Puts the last k digits of a number in a base.
fn put_digits(buffer: &mut [u8], at: usize, number: u32, base: u32, k: usize) -> usize
    requires { 1 ≤ base }
    ensures { Put buffer.old at (digits base k number) buffer.new result }
{
    if k == 0 {
        return at;
    }
    let last = put_digits(buffer, at, number / base, base, k - 1);
    text::put_byte(buffer, last, text::digit(number % base))
}

// Puts the line of a float in a notation.
fn put_in(buffer: &mut [u8], at: usize, bits: u32, notation: Notation) -> usize
    ensures { Put buffer.old at (line (float_in notation) bits) buffer.new result }
{
    match notation {
        Notation::Decimal => put_float(buffer, at, bits),
        Notation::Hexadecimal => put_bits(buffer, at, bits),
    }
}

// Puts the line of a float in decimal.
fn put_float(buffer: &mut [u8], at: usize, bits: u32) -> usize
    ensures { Put buffer.old at (line float_text bits) buffer.new result }
{
    let exponent = bits / 0x80_0000 % 256;
    if exponent == 255 {
        return put_special(buffer, at, bits);
    }
    let first = put_sign(buffer, at, bits);
    let end = exact::put_exact(buffer, first, exponent, bits % 0x80_0000);
    text::put_byte(buffer, end, b'\n')
}

// Puts the line of a float in hexadecimal.
fn put_bits(buffer: &mut [u8], at: usize, bits: u32) -> usize
    ensures { Put buffer.old at (line bits_text bits) buffer.new result }
{
    let exponent = bits / 0x80_0000 % 256;
    if exponent == 255 {
        return put_special(buffer, at, bits);
    }
    let first = put_sign(buffer, at, bits);
    let end = put_finite(buffer, first, exponent, bits % 0x80_0000);
    text::put_byte(buffer, end, b'\n')
}

// Puts the line of an infinity or of what is no number.
fn put_special(buffer: &mut [u8], at: usize, bits: u32) -> usize
    ensures { Put buffer.old at (line special_text bits) buffer.new result }
{
    if bits % 0x80_0000 == 0 {
        let first = put_sign(buffer, at, bits);
        return text::put(buffer, first, b"inf\n");
    }
    text::put(buffer, at, b"nan\n")
}

// Puts the sign of a float.
fn put_sign(buffer: &mut [u8], at: usize, bits: u32) -> usize
    ensures { Put buffer.old at (sign_text bits) buffer.new result }
{
    if bits < 0x8000_0000 {
        return at;
    }
    text::put_byte(buffer, at, b'-')
}

// Puts the digits and the power of two of a float.
fn put_finite(buffer: &mut [u8], at: usize, exponent: u32, fraction: u32) -> usize
    requires { fraction < 0x80_0000 }
    ensures { Put buffer.old at (finite_text exponent fraction) buffer.new result }
{
    let lead = text::put(buffer, at, b"0x");
    let point = text::put_byte(buffer, lead, text::digit(lead_of(exponent)));
    let first = text::put_byte(buffer, point, b'.');
    let end = put_digits(buffer, first, fraction * 2, 16, 6);
    put_exponent(buffer, end, scaled_of(exponent, fraction))
}

// The digit before the point: 0 for zero and subnormal floats.
fn lead_of(exponent: u32) -> u32
    ensures { result ≡ lead_of exponent }
{
    if exponent == 0 { 0 } else { 1 }
}

// The exponent that counts: that of subnormal floats is 1, and zero is written with the power 0.
fn scaled_of(exponent: u32, fraction: u32) -> u32
    ensures { result ≡ scaled_of exponent fraction }
{
    if exponent != 0 {
        return exponent;
    }
    if fraction == 0 { 127 } else { 1 }
}

// Puts the power of two of an exponent.
fn put_exponent(buffer: &mut [u8], at: usize, exponent: u32) -> usize
    ensures { Put buffer.old at (exponent_text exponent) buffer.new result }
{
    if exponent < 127 {
        let size = text::put(buffer, at, b"p-");
        return text::put_decimal(buffer, size, 127 - exponent);
    }
    let size = text::put(buffer, at, b"p+");
    text::put_decimal(buffer, size, exponent - 127)
}

// Puts the line of a name.
fn put_name(buffer: &mut [u8], at: usize, name: &[u8]) -> usize
    ensures { Put buffer.old at (line name_text name.now) buffer.new result }
{
    let n = text_length(name);
    let end = text::put(buffer, at, &name[..n]);
    text::put_byte(buffer, end, b'\n')
}

// How many bytes of a name stand before the first that is 0.
fn text_length(name: &[u8]) -> usize
    ensures within { result ≤ length name.now }
    ensures text { take result name.now ≡ name_text name.now }
{
    for (i, byte) in name.iter().enumerate() {
        if *byte == 0 {
            return i;
        }
    }
    name.len()
}
