// A column's values on standard output, by its own codec.
ghost use Rattle.std.specs.Prelude.{◌≡◌, length};
ghost use Rattle.station.specs.Reading.{Within, FixedWithin, whole_of};

use crate::output;
use columns::{Kind, Wanted};
use commands::status::Status;
use lines::Notation;
use refusal::Refusal;

// The most values that are shown, and the most floats that a file of 65,536 bytes can hold.
const VALUES: usize = 65536;

const FLOATS: usize = 16384;

// Writes the values of a column, floats in a notation, and gives the status of that.
pub(crate) fn write_column(
    rt: HostRuntime,
    column: &[u8],
    notation: Notation,
) -> Result<Status, Refusal> {
    let header = columns::read_header(column, Wanted::Any)?;
    match header.kind {
        Kind::Float32 => show_floats(rt, column, notation),
        Kind::Strings => show_bytes(rt, column, header.kind, header.parameter as usize),
        Kind::Chars => show_bytes(rt, column, header.kind, 1),
        _ => show_numbers(rt, column, header.kind),
    }
}

// Writes the values of a column of integers or fixed point.
fn show_numbers(rt: HostRuntime, column: &[u8], kind: Kind) -> Result<Status, Refusal> {
    let mut buffer = no_numbers();
    let (n, divisor) = decode_numbers(column, kind, &mut buffer)?;
    let written = output::write_numbers(rt, &buffer[..n], divisor.cast_unsigned());
    Ok(output::status_of(rt, written))
}

// Decodes a column of integers or fixed point; integers have the divisor 1.
fn decode_numbers(column: &[u8], kind: Kind, buffer: &mut [i32]) -> Result<(usize, i32), Refusal>
    ensures { FixedWithin result (length buffer.new) }
{
    match kind {
        Kind::FixedPoint => decoding::decode_fixed_point(column, buffer),
        Kind::Int8 => whole(decoding::decode_int8(column, buffer)),
        Kind::Int16 => whole(decoding::decode_int16(column, buffer)),
        _ => whole(decoding::decode_int32(column, buffer)),
    }
}

// An answer about integers, with the divisor 1.
fn whole(answer: Result<usize, Refusal>) -> Result<(usize, i32), Refusal>
    ensures { result ≡ whole_of answer }
{
    let n = answer?;
    Ok((n, 1))
}

// Writes the floats of a column in a notation.
fn show_floats(rt: HostRuntime, column: &[u8], notation: Notation) -> Result<Status, Refusal> {
    let mut buffer = no_floats();
    let n = floats::decode_float32(column, &mut buffer)?;
    Ok(output::status_of(rt, output::write_floats(rt, &buffer[..n], notation)))
}

// Writes the characters or the strings of a column.
fn show_bytes(rt: HostRuntime, column: &[u8], kind: Kind, size: usize) -> Result<Status, Refusal> {
    let mut buffer = io::large_buffer();
    let n = decode_bytes(column, kind, &mut buffer)?;
    Ok(output::status_of(rt, output::write_names(rt, &buffer[..n], size)))
}

// Decodes a column of characters or strings.
fn decode_bytes(column: &[u8], kind: Kind, buffer: &mut [u8]) -> Result<usize, Refusal>
    ensures { Within result (length buffer.new) }
{
    match kind {
        Kind::Strings => decoding::decode_strings(column, buffer),
        _ => decoding::decode_chars(column, buffer),
    }
}

// Room for the numbers of a column.
fn no_numbers() -> [i32; VALUES]
    ensures { length result ≡ 65536 }
{
    [0i32; VALUES]
}

// Room for the floats of a column.
fn no_floats() -> [u32; FLOATS]
    ensures { length result ≡ 16384 }
{
    [0u32; FLOATS]
}
