// Single values as lines of text, each put at a place of a lent buffer: a field of a file, and the plain values that a field can hold. Bytes that
// would break a line are put as \xNN. Every call is total: of what goes beyond the buffer's end nothing is put.
ghost use Rattle.std.specs.Prelude.{◌≡◌};
ghost use Rattle.text.specs.Put.{Put};
ghost use Rattle.lines.specs.Texts.{number_text};
ghost use Rattle.lines.specs.Decimals.{float_text};
ghost use Rattle.lines.specs.Lines.{line};
ghost use Rattle.lines.specs.Single.{breaks, byte_text, escaped, sort_text, count_text, field_text, string_text};

// What a field is: a column is a binary with the header of a codec.
#[derive(Clone, Copy)]
pub enum Sort {
    Integer,
    Float,
    String,
    Array,
    Map,
    Column,
    Binary,
}

// The byte that is put as \xNN in names beside those that break a line: the backslash, so that a name can be told from its text.
const BACKSLASH: u8 = b'\\';

const DELETE: u8 = 127;

// Puts the line of a field: its name, what it is, the codec of a column and the length, with tabs between them, and - for what it does not have.
pub fn put_field(
    buffer: &mut [u8],
    at: usize,
    name: &[u8],
    sort: Sort,
    codec: Option<u32>,
    length: Option<u32>,
) -> usize
    ensures { Put buffer.old at (field_text name.now sort codec length) buffer.new result }
{
    let first = put_escaped(buffer, at, name, BACKSLASH);
    let second = put_sort(buffer, first, sort);
    let third = put_count(buffer, second, codec);
    let end = put_count(buffer, third, length);
    text::put_byte(buffer, end, b'\n')
}

// Puts the line of a string.
pub fn put_string(buffer: &mut [u8], at: usize, bytes: &[u8]) -> usize
    ensures { Put buffer.old at (line string_text bytes.now) buffer.new result }
{
    let end = put_escaped(buffer, at, bytes, DELETE);
    text::put_byte(buffer, end, b'\n')
}

// Puts the line of an integer.
pub fn put_integer(buffer: &mut [u8], at: usize, value: i32) -> usize
    ensures { Put buffer.old at (line (number_text 1) value) buffer.new result }
{
    crate::put_number(buffer, at, value, 1, Some(0))
}

// Puts the line of a float by its bits.
pub fn put_float(buffer: &mut [u8], at: usize, bits: u32) -> usize
    ensures { Put buffer.old at (line float_text bits) buffer.new result }
{
    crate::put_float(buffer, at, bits)
}

// Puts bytes, those that break a line or are the mark as \xNN.
fn put_escaped(buffer: &mut [u8], at: usize, bytes: &[u8], mark: u8) -> usize
    ensures { Put buffer.old at (escaped mark bytes.now) buffer.new result }
{
    let mut next = at;
    for byte in bytes {
        next = put_shown(buffer, next, *byte, mark);
    }
    next
}

// Puts a byte, as \xNN if it breaks a line or is the mark.
fn put_shown(buffer: &mut [u8], at: usize, byte: u8, mark: u8) -> usize
    ensures { Put buffer.old at (byte_text mark byte) buffer.new result }
{
    if breaks_line(byte, mark) {
        let digits = text::put(buffer, at, b"\\x");
        return crate::put_digits(buffer, digits, u32::from(byte), 16, 2);
    }
    text::put_byte(buffer, at, byte)
}

// Whether a byte is below 32, or 127, or the mark.
fn breaks_line(byte: u8, mark: u8) -> bool
    ensures { result ≡ breaks mark byte }
{
    byte < 32 || byte == DELETE || byte == mark
}

// Puts a tab and what a field is.
fn put_sort(buffer: &mut [u8], at: usize, sort: Sort) -> usize
    ensures { Put buffer.old at (sort_text sort) buffer.new result }
{
    match sort {
        Sort::Integer => text::put(buffer, at, b"\tinteger"),
        Sort::Float => text::put(buffer, at, b"\tfloat"),
        Sort::String => text::put(buffer, at, b"\tstring"),
        Sort::Array => text::put(buffer, at, b"\tarray"),
        Sort::Map => text::put(buffer, at, b"\tmap"),
        Sort::Column => text::put(buffer, at, b"\tcolumn"),
        Sort::Binary => text::put(buffer, at, b"\tbinary"),
    }
}

// Puts a tab and a number, or - where there is none.
fn put_count(buffer: &mut [u8], at: usize, count: Option<u32>) -> usize
    ensures { Put buffer.old at (count_text count) buffer.new result }
{
    match count {
        Some(n) => {
            let first = text::put(buffer, at, b"\t");
            text::put_decimal(buffer, first, n)
        }
        None => text::put(buffer, at, b"\t-"),
    }
}
