// The C boundary: each call thin over a library's, with its contract. include/mmtf.h declares them for C.
// On refusal no out parameter changes. A call answers the number of its refusal, or 0: the C interface. So calls that differ only in a kind stay
// apart: each has a name in C.
#![tactic(auto)]

ghost use Rattle.std.specs.Prelude.{◌≡◌, ◌↔◌, length, take, pos};
ghost use Rattle.std.specs.Int.{w32};
ghost use Rattle.refusal.specs.Outcome.{answer_number, answer_count, numbered};
ghost use Rattle.messagepack.specs.Rules.{Container};
ghost use Rattle.messagepack.specs.Walk.{container_number};
ghost use Rattle.structure.specs.Accepted.{Accepted, verdict_of};
ghost use Rattle.views.specs.View.{Viewable, view_number};
ghost use Rattle.views.specs.Place.{place_of};
ghost use Rattle.fields.specs.Table.{field_count};
ghost use Rattle.opening.specs.Opening.{starts_of, lengths_of, opening_of, opened_buffer};
ghost use Rattle.transforms.specs.Matrix.{matrix_number};
ghost use Rattle.numbers.specs.BigEndian.{signed_at};
ghost use Rattle.columns.specs.Header.{header_of};
ghost use Rattle.columns.specs.Decode.{decode};
ghost use Rattle.columns.specs.Buffer.{decoded_buffer};
ghost use Rattle.decoding.specs.Calls.{number_buffer, byte_buffer};
ghost use Rattle.floats.specs.Calls.{exactly, float_bits};
ghost use Rattle.cells.specs.Calls.{cell_of};
ghost use Rattle.meanings.specs.Meanings.{meaning_buffer};
ghost use Rattle.receipt.specs.Receipt.{numbers_of};
ghost use Rattle.receipt.specs.Reading.{reading_of};
ghost use Rattle.receipt.specs.File.{Receipted, receipt_buffer};
ghost use Rattle.bill.specs.Answer.{bill_buffer, Billed};
ghost use Rattle.mmtf.specs.Calls.{view_start, view_length, opened_number, opened_presence, matrix_rows, decoded_number, decoded_count};
ghost use Rattle.mmtf.specs.Calls.{floats_number, floats_count, fixed_of, fixed_number, fixed_count, fixed_divisor};
ghost use Rattle.mmtf.specs.Version.{version_number};
ghost use Rattle.mmtf.specs.Calls.{header_number, header_now, header_parameter, meaning_number, meaning_count};
ghost use Rattle.mmtf.specs.Calls.{cell_number, cell_kind, cell_integer, cell_real, encoded_number, encoded_count, encoded_leaves};
ghost use Rattle.mmtf.specs.Calls.{receipt_number, receipt_count, read_number, read_numbers, billed_number, billed_count};

use cells::Cell;
use columns::{Kind, Wanted};
use receipt::Receipt;
use refusal::Refusal;

// The version, as in specs/Version.antt.
const MAJOR: u32 = 0;

const MINOR: u32 = 10;

const PATCH: u32 = 0;

// The refusal of a file as a container, 1 to 11, or 0.
#[unsafe(no_mangle)]
pub extern "C" fn mmtf_container(file: &[u8]) -> u8
    ensures number { result ≡ container_number file.now }
    ensures exactly { (result ≡ 0) ↔ Container file.now }
{
    refusal::number(messagepack::container(file))
}

// The verdict on a file: 0 if it is accepted, else its refusal, 1 to 24.
#[unsafe(no_mangle)]
pub extern "C" fn mmtf_verdict(file: &[u8]) -> u8
    ensures number { result ≡ verdict_of file.now }
    ensures exactly { (result ≡ 0) ↔ Accepted file.now }
{
    refusal::number(structure::verdict(file))
}

// Opens a file: the set of its named fields, and the start and the length of each one's part; or the refusal, 1 to 24, or 25. C lends one room for
// both buffers. A slice is a pointer and a length, and an array a pointer alone, so that starts is an array; nothing is written to it unless lengths
// has room for every field.
#[unsafe(no_mangle)]
pub extern "C" fn mmtf_fields(
    file: &[u8],
    presence: &mut u64,
    starts: &mut [u64; fields::FIELD_COUNT],
    lengths: &mut [u64],
) -> u8
    ensures answer { result ≡ opened_number (opening_of file.now field_count (length lengths.old)) }
    ensures presence { presence.new ≡ opened_presence (opening_of file.now field_count (length lengths.old)) presence.old }
    ensures starts { starts.new ≡ opened_buffer (opening_of file.now field_count (length lengths.old)) (starts_of file.now) starts.old }
    ensures lengths { lengths.new ≡ opened_buffer (opening_of file.now field_count (length lengths.old)) (lengths_of file.now) lengths.old }
{
    match opening::fields_of(file, starts, lengths) {
        Err(file_refusal) => file_refusal.number(),
        Ok(set) => {
            *presence = set;
            refusal::ACCEPTED
        }
    }
}

// The place of the part of a file that shows an outer key's value; or the refusal, 1 to 11 or 26.
#[unsafe(no_mangle)]
pub extern "C" fn mmtf_view(file: &[u8], name: &[u8], start: &mut u64, length: &mut u64) -> u8
    ensures number { result ≡ view_number file.now name.now }
    ensures exactly { (result ≡ 0) ↔ Viewable file.now name.now }
    ensures start { start.new ≡ view_start (place_of file.now name.now) start.old }
    ensures length { length.new ≡ view_length (place_of file.now name.now) length.old }
{
    match views::find(file, name) {
        Err(view_refusal) => view_refusal.number(),
        Ok(part) => {
            *start = part.at as u64;
            *length = part.count as u64;
            refusal::ACCEPTED
        }
    }
}

// The matrix of a transform, by its assembly's number and its own: four rows of four floats; or the refusal, 1 to 11, 26, 13 or 28.
#[unsafe(no_mangle)]
pub extern "C" fn mmtf_matrix(
    file: &[u8],
    assembly: u64,
    transform: u64,
    rows: &mut [[f32; 4]; 4],
) -> u8
    ensures answer { result ≡ matrix_number file.now assembly transform }
    ensures rows { rows.new ≡ matrix_rows file.now assembly transform rows.old }
{
    match transforms::find(file, assembly, transform) {
        Err(matrix_refusal) => matrix_refusal.number(),
        Ok(floats) => {
            *rows = transforms::rows(floats);
            refusal::ACCEPTED
        }
    }
}

// The integers of an int32 column (codecs 4, 7, 8, 14, 15).
#[unsafe(no_mangle)]
pub extern "C" fn mmtf_decode_int32(column: &[u8], buffer: &mut [i32], count: &mut u64) -> u8
    ensures answer { result ≡ decoded_number (Wanted.Only Kind.Int32) column.now buffer.old }
    ensures count { count.new ≡ decoded_count (Wanted.Only Kind.Int32) column.now buffer.old count.old }
    ensures buffer { buffer.new ≡ number_buffer (decode (Wanted.Only Kind.Int32) column.now) buffer.old }
{
    hand_count(decoding::decode_int32(column, buffer), count)
}

// The integers of an int8 column (codecs 2, 16).
#[unsafe(no_mangle)]
pub extern "C" fn mmtf_decode_int8(column: &[u8], buffer: &mut [i32], count: &mut u64) -> u8
    ensures answer { result ≡ decoded_number (Wanted.Only Kind.Int8) column.now buffer.old }
    ensures count { count.new ≡ decoded_count (Wanted.Only Kind.Int8) column.now buffer.old count.old }
    ensures buffer { buffer.new ≡ number_buffer (decode (Wanted.Only Kind.Int8) column.now) buffer.old }
{
    hand_count(decoding::decode_int8(column, buffer), count)
}

// The integers of an int16 column (codec 3).
#[unsafe(no_mangle)]
pub extern "C" fn mmtf_decode_int16(column: &[u8], buffer: &mut [i32], count: &mut u64) -> u8
    ensures answer { result ≡ decoded_number (Wanted.Only Kind.Int16) column.now buffer.old }
    ensures count { count.new ≡ decoded_count (Wanted.Only Kind.Int16) column.now buffer.old count.old }
    ensures buffer { buffer.new ≡ number_buffer (decode (Wanted.Only Kind.Int16) column.now) buffer.old }
{
    hand_count(decoding::decode_int16(column, buffer), count)
}

// The characters of a column (codec 6), a byte each.
#[unsafe(no_mangle)]
pub extern "C" fn mmtf_decode_chars(column: &[u8], buffer: &mut [u8], count: &mut u64) -> u8
    ensures answer { result ≡ decoded_number (Wanted.Only Kind.Chars) column.now buffer.old }
    ensures count { count.new ≡ decoded_count (Wanted.Only Kind.Chars) column.now buffer.old count.old }
    ensures buffer { buffer.new ≡ byte_buffer (decode (Wanted.Only Kind.Chars) column.now) buffer.old }
{
    hand_count(decoding::decode_chars(column, buffer), count)
}

// The bytes of a column of strings (codec 5); the count is in bytes.
#[unsafe(no_mangle)]
pub extern "C" fn mmtf_decode_strings(column: &[u8], buffer: &mut [u8], count: &mut u64) -> u8
    ensures answer { result ≡ decoded_number (Wanted.Only Kind.Strings) column.now buffer.old }
    ensures count { count.new ≡ decoded_count (Wanted.Only Kind.Strings) column.now buffer.old count.old }
    ensures buffer { buffer.new ≡ byte_buffer (decode (Wanted.Only Kind.Strings) column.now) buffer.old }
{
    hand_count(decoding::decode_strings(column, buffer), count)
}

// The integers and the divisor of a fixed point column (codecs 9 to 13).
#[unsafe(no_mangle)]
pub extern "C" fn mmtf_decode_fixed_point(
    column: &[u8],
    buffer: &mut [i32],
    count: &mut u64,
    divisor: &mut i32,
) -> u8
    ensures answer { result ≡ fixed_number (fixed_of column.now buffer.old) }
    ensures count { count.new ≡ fixed_count (fixed_of column.now buffer.old) count.old }
    ensures divisor { divisor.new ≡ fixed_divisor (fixed_of column.now buffer.old) divisor.old }
    ensures buffer { buffer.new ≡ number_buffer (decode (Wanted.Only Kind.FixedPoint) column.now) buffer.old }
{
    match decoding::decode_fixed_point(column, buffer) {
        Err(column_refusal) => column_refusal.number(),
        Ok((n, d)) => {
            *count = n as u64;
            *divisor = d;
            refusal::ACCEPTED
        }
    }
}

// The floats of a real column (codecs 1, 9 to 13), as their IEEE bits.
#[unsafe(no_mangle)]
pub extern "C" fn mmtf_decode_float32(column: &[u8], buffer: &mut [u32], count: &mut u64) -> u8
    ensures answer { result ≡ floats_number column.now buffer.old }
    ensures count { count.new ≡ floats_count column.now buffer.old count.old }
    ensures buffer { buffer.new ≡ decoded_buffer float_bits (exactly (decode Wanted.Real column.now)) buffer.old }
{
    hand_count(floats::decode_float32(column, buffer), count)
}

// The codec, the length and the parameter of a column of any kind, the parameter 0 where the codec uses none; or the refusal, 14 to 17.
#[unsafe(no_mangle)]
pub extern "C" fn mmtf_header(
    column: &[u8],
    codec: &mut i32,
    length: &mut i32,
    parameter: &mut i32,
) -> u8
    ensures answer { result ≡ header_number (header_of Wanted.Any column.now) }
    ensures codec { codec.new ≡ header_now (header_of Wanted.Any column.now) (signed_at w32 column.now 0) codec.old }
    ensures length { length.new ≡ header_now (header_of Wanted.Any column.now) (signed_at w32 column.now 4) length.old }
    ensures parameter { parameter.new ≡ header_parameter (header_of Wanted.Any column.now) parameter.old }
{
    match columns::read_header(column, Wanted::Any) {
        Err(header_refusal) => header_refusal.number(),
        Ok(header) => {
            *codec = numbers::read_i32(column, 0);
            *length = numbers::read_i32(column, 4);
            *parameter = header.parameter.cast_signed();
            refusal::ACCEPTED
        }
    }
}

// One cell of a column: its kind (1 an integer, 2 a character, 3 a float), and its value in the out parameter of that kind.
#[unsafe(no_mangle)]
pub extern "C" fn mmtf_cell(
    column: &[u8],
    index: u64,
    kind: &mut u8,
    integer: &mut i32,
    real: &mut f32,
) -> u8
    ensures answer { result ≡ cell_number (cell_of (decode Wanted.Any column.now) index) }
    ensures kind { kind.new ≡ cell_kind (cell_of (decode Wanted.Any column.now) index) kind.old }
    ensures integer { integer.new ≡ cell_integer (cell_of (decode Wanted.Any column.now) index) integer.old }
    ensures real { real.new ≡ cell_real (cell_of (decode Wanted.Any column.now) index) real.old }
{
    match cells::cell_at(column, index as usize) {
        Cell::Refused(r) => r,
        Cell::Int(x) => {
            *kind = 1;
            *integer = x;
            refusal::ACCEPTED
        }
        Cell::Char(b) => {
            *kind = 2;
            *integer = i32::from(b);
            refusal::ACCEPTED
        }
        Cell::Float(x) => {
            *kind = 3;
            *real = x;
            refusal::ACCEPTED
        }
    }
}

// A column of integers by codec 4, 7, 8, 14 or 15.
#[unsafe(no_mangle)]
pub extern "C" fn mmtf_encode_int32(
    codec: i32,
    values: &[i32],
    buffer: &mut [u8],
    written: &mut u64,
) -> u8
    ensures answer { result ≡ encoded_number Kind.Int32 codec (pos 0) values.now buffer.old }
    ensures written { written.new ≡ encoded_count Kind.Int32 codec (pos 0) values.now buffer.old written.old }
    ensures buffer { buffer.new ≡ encoded_leaves Kind.Int32 codec (pos 0) values.now buffer.old }
{
    hand_count(encoding::encode_int32(codec, values, buffer), written)
}

// A column of integers by codec 2 or 16.
#[unsafe(no_mangle)]
pub extern "C" fn mmtf_encode_int8(
    codec: i32,
    values: &[i32],
    buffer: &mut [u8],
    written: &mut u64,
) -> u8
    ensures answer { result ≡ encoded_number Kind.Int8 codec (pos 0) values.now buffer.old }
    ensures written { written.new ≡ encoded_count Kind.Int8 codec (pos 0) values.now buffer.old written.old }
    ensures buffer { buffer.new ≡ encoded_leaves Kind.Int8 codec (pos 0) values.now buffer.old }
{
    hand_count(encoding::encode_int8(codec, values, buffer), written)
}

// A column of integers by codec 3.
#[unsafe(no_mangle)]
pub extern "C" fn mmtf_encode_int16(
    codec: i32,
    values: &[i32],
    buffer: &mut [u8],
    written: &mut u64,
) -> u8
    ensures answer { result ≡ encoded_number Kind.Int16 codec (pos 0) values.now buffer.old }
    ensures written { written.new ≡ encoded_count Kind.Int16 codec (pos 0) values.now buffer.old written.old }
    ensures buffer { buffer.new ≡ encoded_leaves Kind.Int16 codec (pos 0) values.now buffer.old }
{
    hand_count(encoding::encode_int16(codec, values, buffer), written)
}

// A column of characters by codec 6.
#[unsafe(no_mangle)]
pub extern "C" fn mmtf_encode_chars(
    codec: i32,
    values: &[u8],
    buffer: &mut [u8],
    written: &mut u64,
) -> u8
    ensures answer { result ≡ encoded_number Kind.Chars codec (pos 0) values.now buffer.old }
    ensures written { written.new ≡ encoded_count Kind.Chars codec (pos 0) values.now buffer.old written.old }
    ensures buffer { buffer.new ≡ encoded_leaves Kind.Chars codec (pos 0) values.now buffer.old }
{
    hand_count(encoding::encode_chars(codec, values, buffer), written)
}

// A column of strings of `size` bytes each by codec 5.
#[unsafe(no_mangle)]
pub extern "C" fn mmtf_encode_strings(
    codec: i32,
    size: i32,
    names: &[u8],
    buffer: &mut [u8],
    written: &mut u64,
) -> u8
    ensures answer { result ≡ encoded_number Kind.Strings codec size names.now buffer.old }
    ensures written { written.new ≡ encoded_count Kind.Strings codec size names.now buffer.old written.old }
    ensures buffer { buffer.new ≡ encoded_leaves Kind.Strings codec size names.now buffer.old }
{
    hand_count(
        encoding::encode_strings(codec, size, names, buffer),
        written,
    )
}

// A column of integers and divisor by codecs 9 to 13.
#[unsafe(no_mangle)]
pub extern "C" fn mmtf_encode_fixed_point(
    codec: i32,
    divisor: i32,
    values: &[i32],
    buffer: &mut [u8],
    written: &mut u64,
) -> u8
    ensures answer { result ≡ encoded_number Kind.FixedPoint codec divisor values.now buffer.old }
    ensures written { written.new
        ≡ encoded_count Kind.FixedPoint codec divisor values.now buffer.old written.old }
    ensures buffer { buffer.new ≡ encoded_leaves Kind.FixedPoint codec divisor values.now buffer.old }
{
    hand_count(
        encoding::encode_fixed_point(codec, divisor, values, buffer),
        written,
    )
}

// A column of floats, given as their IEEE bits, by codec 1.
#[unsafe(no_mangle)]
pub extern "C" fn mmtf_encode_float32(
    codec: i32,
    bits: &[u32],
    buffer: &mut [u8],
    written: &mut u64,
) -> u8
    ensures answer { result ≡ encoded_number Kind.Float32 codec (pos 0) bits.now buffer.old }
    ensures written { written.new ≡ encoded_count Kind.Float32 codec (pos 0) bits.now buffer.old written.old }
    ensures buffer { buffer.new ≡ encoded_leaves Kind.Float32 codec (pos 0) bits.now buffer.old }
{
    hand_count(encoding::encode_float32(codec, bits, buffer), written)
}

// Writes the receipt of a file; or the refusal, 29 for a station or a job out of range, then 25.
#[unsafe(no_mangle)]
pub extern "C" fn mmtf_write_receipt(
    station: u32,
    job: u32,
    file: &[u8],
    buffer: &mut [u8],
    written: &mut u64,
) -> u8
    ensures answer { result ≡ receipt_number station job file.now buffer.old }
    ensures written { written.new ≡ receipt_count station job file.now buffer.old written.old }
    ensures buffer { buffer.new ≡ receipt_buffer station job file.now buffer.old }
    ensures receipt { result ≡ 0 → Receipted station job file.now (take written.new buffer.new) }
{
    match receipt::write(station, job, file, buffer) {
        Err(receipt_refusal) => receipt_refusal.number(),
        Ok(size) => {
            *written = size as u64;
            refusal::ACCEPTED
        }
    }
}

// The ten numbers of a receipt, in the order of its lines; or 29.
#[unsafe(no_mangle)]
pub extern "C" fn mmtf_read_receipt(bytes: &[u8], numbers: &mut [u32; 10]) -> u8
    ensures answer { result ≡ read_number (reading_of bytes.now) }
    ensures numbers { numbers.new ≡ read_numbers (reading_of bytes.now) numbers.old }
{
    match receipt::read(bytes) {
        Err(reading_refusal) => reading_refusal.number(),
        Ok(receipt) => {
            *numbers = in_order(receipt);
            refusal::ACCEPTED
        }
    }
}

// The numbers of a receipt in the order of its lines.
fn in_order(receipt: Receipt) -> [u32; 10]
    ensures { result ≡ numbers_of receipt }
{
    [
        receipt.station,
        receipt.job,
        receipt.verdict,
        receipt.models,
        receipt.chains,
        receipt.groups,
        receipt.atoms,
        receipt.bonds,
        receipt.fields,
        receipt.units,
    ]
}

// The bill of a run of receipts; or the refusal, 1 for a run over the limit, then 29 or 30 of the first receipt at fault, then 25.
#[unsafe(no_mangle)]
pub extern "C" fn mmtf_bill(receipts: &[u8], buffer: &mut [u8], written: &mut u64) -> u8
    ensures answer { result ≡ billed_number receipts.now buffer.old }
    ensures written { written.new ≡ billed_count receipts.now buffer.old written.old }
    ensures buffer { buffer.new ≡ bill_buffer receipts.now buffer.old }
    ensures bill { result ≡ 0 → Billed receipts.now (take written.new buffer.new) }
{
    match bill::bill(receipts, buffer) {
        Err(bill_refusal) => bill_refusal.number(),
        Ok(bytes) => {
            *written = bytes as u64;
            refusal::ACCEPTED
        }
    }
}

// The words of a refusal number; or the refusal, 28 for a number that the table does not have, then 25.
#[unsafe(no_mangle)]
pub extern "C" fn mmtf_meaning(number: u8, buffer: &mut [u8], written: &mut u64) -> u8
    ensures answer { result ≡ meaning_number number buffer.old }
    ensures written { written.new ≡ meaning_count number buffer.old written.old }
    ensures buffer { buffer.new ≡ meaning_buffer number buffer.old }
{
    hand_count(meanings::write(number, buffer), written)
}

// The version of this library.
#[unsafe(no_mangle)]
pub extern "C" fn mmtf_version() -> u32
    ensures { result ≡ version_number }
{
    MAJOR * 10000 + MINOR * 100 + PATCH
}

// Hands on the answer of a call that fills a buffer: the count where it succeeded.
fn hand_count(answer: Result<usize, Refusal>, count: &mut u64) -> u8
    ensures number { result ≡ answer_number (numbered answer) }
    ensures count { count.new ≡ answer_count (numbered answer) count.old }
{
    match answer {
        Err(refusal) => refusal.number(),
        Ok(n) => {
            *count = n as u64;
            refusal::ACCEPTED
        }
    }
}
