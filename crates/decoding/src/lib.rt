// Decoders of columns of numbers, characters and strings into a lent buffer, for any bytes and any buffer: one pass to check, one to
// write. On success the buffer begins with the column and everything beyond is unchanged; on refusal nothing has changed.
#![tactic(auto)]

ghost use Rattle.std.specs.Prelude.{◌≡◌, Ok, true, false, ◌++◌, ◌+◌, ◌≤◌, length, drop, replicate};
ghost use Rattle.refusal.specs.Outcome.{numbered};
ghost use Rattle.columns.specs.Table.{suits};
ghost use Rattle.columns.specs.Decode.{decode, judged_payload};
ghost use Rattle.payloads.specs.Limits.{packed_size};
ghost use Rattle.payloads.specs.Blocks.{NoLimit, HasPlaces, StoredTotals};
ghost use Rattle.payloads.specs.Results.{paste, Filled, HasRoom, HasResults, Covered, Wrote};
ghost use Rattle.columns.specs.Buffer.{decoded_answer};
ghost use Rattle.decoding.specs.Steps.{is_written, is_bytes, has_bytes, HasPlain, WrotePart};
ghost use Rattle.decoding.specs.Calls.{fixed_answer, as_number, as_byte, number_buffer, byte_buffer};

use columns::{HEADER_SIZE, Header, Kind, Wanted};
use refusal::Refusal;
use steps::{Form, Range, Size};

// The integers of an int32 column (codecs 4, 7, 8, 14, 15).
pub fn decode_int32(column: &[u8], buffer: &mut [i32]) -> Result<usize, Refusal>
    ensures answer { numbered result ≡ decoded_answer (decode (Wanted.Only Kind.Int32) column.now) (length buffer.old) }
    ensures buffer { buffer.new ≡ number_buffer (decode (Wanted.Only Kind.Int32) column.now) buffer.old }
{
    decode_integers(column, Wanted::Only(Kind::Int32), buffer)
}

// The integers of an int8 column (codecs 2, 16).
pub fn decode_int8(column: &[u8], buffer: &mut [i32]) -> Result<usize, Refusal>
    ensures answer { numbered result ≡ decoded_answer (decode (Wanted.Only Kind.Int8) column.now) (length buffer.old) }
    ensures buffer { buffer.new ≡ number_buffer (decode (Wanted.Only Kind.Int8) column.now) buffer.old }
{
    decode_integers(column, Wanted::Only(Kind::Int8), buffer)
}

// The integers of an int16 column (codec 3).
pub fn decode_int16(column: &[u8], buffer: &mut [i32]) -> Result<usize, Refusal>
    ensures answer { numbered result ≡ decoded_answer (decode (Wanted.Only Kind.Int16) column.now) (length buffer.old) }
    ensures buffer { buffer.new ≡ number_buffer (decode (Wanted.Only Kind.Int16) column.now) buffer.old }
{
    decode_integers(column, Wanted::Only(Kind::Int16), buffer)
}

// The integers of a fixed point column (codecs 9 to 13): how many were written, and the divisor.
pub fn decode_fixed_point(column: &[u8], buffer: &mut [i32]) -> Result<(usize, i32), Refusal>
    ensures answer { numbered result ≡ fixed_answer (decode (Wanted.Only Kind.FixedPoint) column.now) (length buffer.old) }
    ensures buffer { buffer.new ≡ number_buffer (decode (Wanted.Only Kind.FixedPoint) column.now) buffer.old }
{
    let count = decode_integers(column, Wanted::Only(Kind::FixedPoint), buffer)?;
    Ok((count, numbers::read_i32(column, 8)))
}

// The characters of a column, a byte each (codec 6).
pub fn decode_chars(column: &[u8], buffer: &mut [u8]) -> Result<usize, Refusal>
    ensures answer { numbered result ≡ decoded_answer (decode (Wanted.Only Kind.Chars) column.now) (length buffer.old) }
    ensures buffer { buffer.new ≡ byte_buffer (decode (Wanted.Only Kind.Chars) column.now) buffer.old }
{
    decode_bytes(column, Kind::Chars, buffer)
}

// The bytes of a column of strings, each of the header's size (codec 5).
pub fn decode_strings(column: &[u8], buffer: &mut [u8]) -> Result<usize, Refusal>
    ensures answer { numbered result ≡ decoded_answer (decode (Wanted.Only Kind.Strings) column.now) (length buffer.old) }
    ensures buffer { buffer.new ≡ byte_buffer (decode (Wanted.Only Kind.Strings) column.now) buffer.old }
{
    decode_bytes(column, Kind::Strings, buffer)
}

// The integers of a column that has no names. The header is read from the part that is all of the column: a slice that is handed on as it
// stands is copied through memory first.
fn decode_integers(column: &[u8], wanted: Wanted, buffer: &mut [i32]) -> Result<usize, Refusal>
    requires { suits wanted Kind.Strings ≡ false }
    ensures answer { numbered result ≡ decoded_answer (decode wanted column.now) (length buffer.old) }
    ensures buffer { buffer.new ≡ number_buffer (decode wanted column.now) buffer.old }
{
    let header = columns::read_header(&column[0..], wanted)?;
    integers_in(&column[HEADER_SIZE..], header, buffer)
}

// The integers of a payload whose header passed.
fn integers_in(payload: &[u8], header: Header, buffer: &mut [i32]) -> Result<usize, Refusal>
    requires { is_written header.form header.delta ≡ true }
    ensures answer { numbered result ≡ decoded_answer (judged_payload (Ok header) payload.now) (length buffer.old) }
    ensures buffer { buffer.new ≡ number_buffer (judged_payload (Ok header) payload.now) buffer.old }
{
    let n = header.length;
    payloads::refusal_of(payload, header.form, header.parameter as usize, n)?;
    if buffer.len() < n {
        return Err(Refusal::BufferTooSmall);
    }
    put_integers(payload, header.form, header.delta, n, buffer);
    Ok(n)
}

// Writes the results of a payload, by a loop of its form's own.
fn put_integers(payload: &[u8], form: Form, delta: bool, n: usize, buffer: &mut [i32])
    requires { (is_written form delta ≡ true) × HasResults form payload.now n × (n ≤ length buffer.old) }
    ensures { Wrote as_number form delta payload.now buffer.old buffer.new }
{
    match form {
        Form::Plain(size) => put_plain(payload, size, n, buffer),
        Form::Packed(Size::One) => write_packed(payload, false, delta, buffer),
        Form::Packed(Size::Two) => write_packed(payload, true, delta, buffer),
        Form::Runs(range) if delta => write_sums(payload, range, buffer),
        Form::Runs(range) => write_runs(payload, range, n, buffer),
        // No column of numbers has these.
        Form::Packed(Size::Four) | Form::Names => {}
    }
}

// Writes n plain numbers, by a loop of their size's own.
fn put_plain(payload: &[u8], size: Size, n: usize, buffer: &mut [i32])
    requires { HasResults (Form.Plain size) payload.now n × (n ≤ length buffer.old) }
    ensures { Wrote as_number (Form.Plain size) false payload.now buffer.old buffer.new }
{
    match size {
        Size::One => write_plain(payload, Size::One, n, buffer),
        Size::Two => write_plain(payload, Size::Two, n, buffer),
        Size::Four => write_plain(payload, Size::Four, n, buffer),
    }
}

// How many plain numbers a block has.
const PLAIN_BLOCK: usize = 65536;

// Writes n plain numbers in blocks. The compiler begins the code of a loop within a loop at a multiple of 16 bytes, so that its speed does not
// depend on where the linker puts the function.
fn write_plain(payload: &[u8], size: Size, n: usize, buffer: &mut [i32])
    requires { HasResults (Form.Plain size) payload.now n × (n ≤ length buffer.old) }
    ensures { Wrote as_number (Form.Plain size) false payload.now buffer.old buffer.new }
{
    let mut i: usize = 0;
    while PLAIN_BLOCK <= n - i {
        write_part(payload, size, i, i + PLAIN_BLOCK, buffer);
        i += PLAIN_BLOCK;
    }
    write_part(payload, size, i, n, buffer);
}

// Writes plain numbers from an index to another. Each is read from the part of the payload that it fills, so that no test of room is left,
// and the processor does several at once. The loop counts by hand: it is in this form that its speed is measured.
fn write_part(payload: &[u8], size: Size, from: usize, to: usize, buffer: &mut [i32])
    requires { HasPlain size payload.now to (length buffer.old) × (from ≤ to) }
    ensures { WrotePart size payload.now from to buffer.old buffer.new }
{
    let k = steps::bytes(size);
    let mut i = from;
    while i < to {
        let at = i * k;
        buffer[i] = steps::number_at(&payload[at..at + k], 0, size);
        i += 1;
    }
}

// How many packed numbers a block has.
const PACKED_BLOCK: usize = 16;

// Writes the results of packed numbers of one or two bytes, in blocks and the rest, by one total: of the result that has
// begun, and with delta of those before it too.
fn write_packed(payload: &[u8], two: bool, delta: bool, buffer: &mut [i32])
    requires { HasRoom (Form.Packed (packed_size two)) payload.now (length buffer.old) }
    ensures { Wrote as_number (Form.Packed (packed_size two)) delta payload.now buffer.old buffer.new }
{
    let k = PACKED_BLOCK * steps::bytes(payloads::packed_size(two));
    let mut i: usize = 0;
    let mut o: usize = 0;
    let mut total: i32 = 0;
    while k <= payload.len() - i {
        let block = &payload[i..i + k];
        let limits = payloads::limits_of(block, two);
        total = put_block(block, two, delta, limits == 0, total, o, buffer);
        i += k;
        o += PACKED_BLOCK - limits;
    }
    write_block(&payload[i..], two, delta, false, total, o, buffer);
}

// Writes the results of a block, by a loop of its own where it has no limit. That call is written twice, with delta and without: of two calls
// that differ in `quick` alone the compiler makes one loop, which looks for limits.
fn put_block(
    block: &[u8],
    two: bool,
    delta: bool,
    quick: bool,
    begun: i32,
    from: usize,
    buffer: &mut [i32],
) -> i32
    requires { NoLimit (packed_size two) block.now quick × HasPlaces (packed_size two) block.now from (length buffer.old) }
    ensures { StoredTotals (packed_size two) delta block.now begun from buffer.old buffer.new result }
{
    if !quick {
        return write_block(block, two, delta, false, begun, from, buffer);
    }
    if delta {
        return write_block(block, two, true, true, begun, from, buffer);
    }
    write_block(block, two, false, true, begun, from, buffer)
}

// Writes the results of a block after the total that has begun, and gives the total after it. The total is stored after each number, so that
// no branch depends on limits; a result stays when its last number is read. If `quick`, there is no limit, and none is looked for. The loop
// counts by hand: it is in this form that its speed is measured.
fn write_block(
    block: &[u8],
    two: bool,
    delta: bool,
    quick: bool,
    begun: i32,
    from: usize,
    buffer: &mut [i32],
) -> i32
    requires { NoLimit (packed_size two) block.now quick × HasPlaces (packed_size two) block.now from (length buffer.old) }
    ensures { StoredTotals (packed_size two) delta block.now begun from buffer.old buffer.new result }
{
    let size = payloads::packed_size(two);
    let k = steps::bytes(size);
    let count = block.len() / k;
    let mut i: usize = 0;
    let mut o = from;
    let mut total = begun;
    while i < count {
        let at = k * i;
        let number = steps::number_at(&block[at..at + k], 0, size);
        i += 1;
        let sum = steps::add_delta(total, number);
        buffer[o] = sum;
        let limit = !quick & steps::is_limit(number, size);
        o += payloads::ended_at(limit);
        total = payloads::total_after(sum, limit, delta);
    }
    total
}

// Writes the values of n results in runs.
fn write_runs(payload: &[u8], range: Range, n: usize, buffer: &mut [i32])
    requires { HasResults (Form.Runs range) payload.now n × (n ≤ length buffer.old) }
    ensures { Wrote as_number (Form.Runs range) false payload.now buffer.old buffer.new }
{
    let mut at: usize = 0;
    let mut o: usize = 0;
    while 8 <= payload.len() - at {
        let run = &payload[at..];
        let value = numbers::read_i32(run, 0);
        let count = numbers::read_u32(run, 4);
        at += 8;
        write_run(buffer, o, count, value, n - o);
        o += count as usize;
    }
}

// Writes the sums of runs of deltas.
fn write_sums(payload: &[u8], range: Range, buffer: &mut [i32])
    requires { HasRoom (Form.Runs range) payload.now (length buffer.old) }
    ensures { Wrote as_number (Form.Runs range) true payload.now buffer.old buffer.new }
{
    let mut at: usize = 0;
    let mut o: usize = 0;
    let mut sum: i32 = 0;
    while 8 <= payload.len() - at {
        let run = &payload[at..];
        let value = numbers::read_i32(run, 0);
        let count = numbers::read_u32(run, 4);
        at += 8;
        sum = fill_sums(buffer, o, count as usize, sum, value);
        o += count as usize;
    }
}

// Writes a run from a place on. A short one is written as four cells, where so many are left: the next run is written over them. The first
// test is of the 32 bits that were read, so that they are read at once. `floats` has the same for its own cells: as a public function it would
// test once more that there is room, since every public call is total.
fn write_run(buffer: &mut [i32], from: usize, count: u32, value: i32, left: usize)
    requires { (count ≤ left) × (from + left ≤ length buffer.old) }
    ensures { Covered value buffer.old from count left buffer.new }
{
    if 4 < count {
        buffer[from..from + count as usize].fill(value);
    } else if payloads::is_short(count as usize, left) {
        buffer[from..from + 4].fill(value);
    } else {
        buffer[from..from + count as usize].fill(value);
    }
}

// Writes the sums of a run of deltas from a place on, and gives the last.
fn fill_sums(buffer: &mut [i32], from: usize, count: usize, sum: i32, delta: i32) -> i32
    requires { from + count ≤ length buffer.old }
    ensures { Filled as_number true sum delta buffer.old from count buffer.new result }
{
    let mut x = sum;
    for n in from..from + count {
        x = steps::add_delta(x, delta);
        buffer[n] = x;
    }
    x
}

// The bytes of a column of characters or of strings.
fn decode_bytes(column: &[u8], kind: Kind, buffer: &mut [u8]) -> Result<usize, Refusal>
    requires { is_bytes kind ≡ true }
    ensures answer { numbered result ≡ decoded_answer (decode (Wanted.Only kind) column.now) (length buffer.old) }
    ensures buffer { buffer.new ≡ byte_buffer (decode (Wanted.Only kind) column.now) buffer.old }
{
    let header = columns::read_header(column, Wanted::Only(kind))?;
    bytes_in(&column[HEADER_SIZE..], header, buffer)
}

// The bytes of a payload whose header passed: of names as they stand, of characters run by run.
fn bytes_in(payload: &[u8], header: Header, buffer: &mut [u8]) -> Result<usize, Refusal>
    requires { has_bytes header.form header.delta ≡ true }
    ensures answer { numbered result ≡ decoded_answer (judged_payload (Ok header) payload.now) (length buffer.old) }
    ensures buffer { buffer.new ≡ byte_buffer (judged_payload (Ok header) payload.now) buffer.old }
{
    let n = header.length;
    payloads::refusal_of(payload, header.form, header.parameter as usize, n)?;
    match header.form {
        Form::Names => {
            if buffer.len() < payload.len() {
                return Err(Refusal::BufferTooSmall);
            }
            copy(payload, buffer);
            Ok(payload.len())
        }
        _ => {
            if buffer.len() < n {
                return Err(Refusal::BufferTooSmall);
            }
            write_chars(payload, n, buffer);
            Ok(n)
        }
    }
}

// Writes the characters of n results in runs.
fn write_chars(payload: &[u8], n: usize, buffer: &mut [u8])
    requires { HasResults (Form.Runs Range.Ascii) payload.now n × (n ≤ length buffer.old) }
    ensures { Wrote as_byte (Form.Runs Range.Ascii) false payload.now buffer.old buffer.new }
{
    let mut at: usize = 0;
    let mut o: usize = 0;
    while 8 <= payload.len() - at {
        let run = &payload[at..];
        let byte = numbers::low_byte(numbers::read_u32(run, 0));
        let count = numbers::read_u32(run, 4);
        at += 8;
        write_byte(buffer, o, count as usize, byte, n - o);
        o += count as usize;
    }
}

// Writes a run of characters from a place on: sixteen at once, where so many are left, and those behind them. The next run is written over
// what is too much.
fn write_byte(buffer: &mut [u8], from: usize, count: usize, byte: u8, left: usize)
    requires { (count ≤ left) × (from + left ≤ length buffer.old) }
    ensures { Covered byte buffer.old from count left buffer.new }
{
    if left < 16 {
        buffer[from..from + count].fill(byte);
        return;
    }
    buffer[from..from + 16].fill(byte);
    if 16 < count {
        buffer[from + 16..from + count].fill(byte);
    }
}

// Copies bytes to the buffer's start. The compiler makes one call of the loop, that of the system's library; with `copy_from_slice`, which has
// a loop of its own, a million names of four bytes took 1.27 ms, and with this 1.04 ms.
fn copy(bytes: &[u8], buffer: &mut [u8])
    requires { length bytes.now ≤ length buffer.old }
    ensures { buffer.new ≡ bytes.now ++ drop (length bytes.now) buffer.old }
{
    for i in 0..bytes.len() {
        buffer[i] = bytes[i];
    }
}
