// Real columns as floats: the bits of single precision in a lent buffer, for any bytes and any buffer: one pass to check, one to write.
// Codec 1 keeps its bits; each integer of codecs 9 to 13 is divided once. On success the buffer begins with the column and everything
// beyond is unchanged; on refusal nothing has changed.
#![tactic(auto)]

ghost use Rattle.std.specs.Prelude.{◌≡◌, Ok, true, false, ◌&&◌, ◌+◌, ◌≤◌, length, pos, T};
ghost use Rattle.std.specs.Float.Ieee.Positive.{positive};
ghost use Rattle.refusal.specs.Outcome.{numbered};
ghost use Rattle.columns.specs.Decode.{decode, judged_payload};
ghost use Rattle.payloads.specs.Limits.{packed_size};
ghost use Rattle.payloads.specs.Results.{HasResults, Covered, Wrote};
ghost use Rattle.payloads.specs.Exact.{exact};
ghost use Rattle.columns.specs.Buffer.{decoded_answer, decoded_buffer};
ghost use Rattle.floats.specs.Calls.{kept, exactly, float_bits};
ghost use Rattle.floats.specs.Steps.{bits_by, is_divided, Divisible, DivisibleAlone};

use columns::{HEADER_SIZE, Header, Kind, Wanted};
use refusal::Refusal;
use steps::{Form, Range, Size};

// The floats of a real column (codecs 1, 9 to 13), as their bits.
pub fn decode_float32(column: &[u8], buffer: &mut [u32]) -> Result<usize, Refusal>
    ensures answer { numbered result ≡ decoded_answer (exactly (decode Wanted.Real column.now)) (length buffer.old) }
    ensures buffer { buffer.new ≡ decoded_buffer float_bits (exactly (decode Wanted.Real column.now)) buffer.old }
{
    let header = columns::read_header(column, Wanted::Real)?;
    match header.kind {
        Kind::FixedPoint => quotients_in(&column[HEADER_SIZE..], header, buffer),
        _ => kept_in(&column[HEADER_SIZE..], header, buffer),
    }
}

// Whether cells, of which it is known, and a divisor are exact in single precision.
pub fn are_exact(cells: bool, divisor: u32) -> bool
    ensures { result ≡ (cells && exact (pos divisor)) }
{
    cells && divisor <= payloads::EXACT_LIMIT as u32
}

// The floats of a payload of codec 1 whose header passed.
fn kept_in(payload: &[u8], header: Header, buffer: &mut [u32]) -> Result<usize, Refusal>
    requires { (header.kind ≡ Kind.Float32) × (header.form ≡ Form.Plain Size.Four) × (header.delta ≡ false) }
    ensures answer { numbered result ≡ decoded_answer (exactly (judged_payload (Ok header) payload.now)) (length buffer.old) }
    ensures buffer { buffer.new ≡ decoded_buffer float_bits (exactly (judged_payload (Ok header) payload.now)) buffer.old }
{
    let n = header.length;
    payloads::refusal_of(payload, header.form, header.parameter as usize, n)?;
    if buffer.len() < n {
        return Err(Refusal::BufferTooSmall);
    }
    write_kept(payload, n, buffer);
    Ok(n)
}

// Writes the 32 bits of n numbers. Each is read from the part of the payload that it fills, so that no test of room is left, and the
// processor does several at once. The loop counts by hand: it is in this form that its speed is measured.
fn write_kept(payload: &[u8], n: usize, buffer: &mut [u32])
    requires { HasResults (Form.Plain Size.Four) payload.now n × (n ≤ length buffer.old) }
    ensures { Wrote kept (Form.Plain Size.Four) false payload.now buffer.old buffer.new }
{
    let mut i: usize = 0;
    while i < n {
        let at = i * 4;
        buffer[i] = numbers::read_u32(&payload[at..at + 4], 0);
        i += 1;
    }
}

// The floats of a payload of codecs 9 to 13 whose header passed.
fn quotients_in(payload: &[u8], header: Header, buffer: &mut [u32]) -> Result<usize, Refusal>
    requires { (header.kind ≡ Kind.FixedPoint) × (is_divided header.form header.delta ≡ true) × (1 ≤ header.parameter) }
    ensures answer { numbered result ≡ decoded_answer (exactly (judged_payload (Ok header) payload.now)) (length buffer.old) }
    ensures buffer { buffer.new ≡ decoded_buffer float_bits (exactly (judged_payload (Ok header) payload.now)) buffer.old }
{
    let n = header.length;
    let divisor = header.parameter;
    let exact = payloads::scan(payload, header.form, divisor as usize, header.delta, n)?;
    if !are_exact(exact, divisor) {
        return Err(Refusal::NotExact);
    }
    if buffer.len() < n {
        return Err(Refusal::BufferTooSmall);
    }
    put_quotients(
        payload,
        header.form,
        header.delta,
        divisor as f32,
        n,
        buffer,
    );
    Ok(n)
}

// Writes the quotients of a payload, by a loop of its form's own.
fn put_quotients(
    payload: &[u8],
    form: Form,
    delta: bool,
    divisor: f32,
    n: usize,
    buffer: &mut [u32],
)
    requires divisible { Divisible form delta payload.now (length buffer.old) divisor }
    requires has_results { HasResults form payload.now n × (n ≤ length buffer.old) × (is_divided form delta ≡ true) }
    ensures { Wrote (bits_by divisor) form delta payload.now buffer.old buffer.new }
{
    match form {
        Form::Plain(size) => put_plain(payload, size, divisor, n, buffer),
        Form::Packed(Size::One) => write_packed(payload, false, delta, divisor, buffer),
        Form::Packed(Size::Two) => write_packed(payload, true, delta, divisor, buffer),
        Form::Runs(range) => write_runs(payload, range, divisor, n, buffer),
        // Only columns of numbers have these, and none is divided.
        Form::Packed(Size::Four) | Form::Names => {}
    }
}

// Writes the quotients of n plain numbers, by a loop of their size's own.
fn put_plain(payload: &[u8], size: Size, divisor: f32, n: usize, buffer: &mut [u32])
    requires { DivisibleAlone (Form.Plain size) payload.now n (length buffer.old) divisor }
    ensures { Wrote (bits_by divisor) (Form.Plain size) false payload.now buffer.old buffer.new }
{
    match size {
        Size::One => write_plain(payload, Size::One, divisor, n, buffer),
        Size::Two => write_plain(payload, Size::Two, divisor, n, buffer),
        Size::Four => write_plain(payload, Size::Four, divisor, n, buffer),
    }
}

// Writes the quotients of n plain numbers, each read from the part of the payload that it fills. The loop counts by hand: it is in this form
// that its speed is measured.
fn write_plain(payload: &[u8], size: Size, divisor: f32, n: usize, buffer: &mut [u32])
    requires { DivisibleAlone (Form.Plain size) payload.now n (length buffer.old) divisor }
    ensures { Wrote (bits_by divisor) (Form.Plain size) false payload.now buffer.old buffer.new }
{
    let k = steps::bytes(size);
    let mut i: usize = 0;
    while i < n {
        let at = i * k;
        buffer[i] = quotient_bits(steps::number_at(&payload[at..at + k], 0, size), divisor);
        i += 1;
    }
}

// Writes the quotients of packed numbers of one or two bytes, by one total: of the result that has begun, and with delta of those before
// it too.
fn write_packed(payload: &[u8], two: bool, delta: bool, divisor: f32, buffer: &mut [u32])
    requires { Divisible (Form.Packed (packed_size two)) delta payload.now (length buffer.old) divisor }
    ensures { Wrote (bits_by divisor) (Form.Packed (packed_size two)) delta payload.now buffer.old buffer.new }
{
    let size = payloads::packed_size(two);
    let k = steps::bytes(size);
    let mut i: usize = 0;
    let mut o: usize = 0;
    let mut total: i32 = 0;
    while k <= payload.len() - i {
        let rest = &payload[i..];
        let number = steps::number_at(rest, 0, size);
        i += k;
        total = steps::add_delta(total, number);
        if !steps::is_limit(number, size) {
            buffer[o] = quotient_bits(total, divisor);
            o += 1;
            total = payloads::total_after(total, false, delta);
        }
    }
}

// Writes the quotients of n results in runs, with one division for each run.
fn write_runs(payload: &[u8], range: Range, divisor: f32, n: usize, buffer: &mut [u32])
    requires { DivisibleAlone (Form.Runs range) payload.now n (length buffer.old) divisor }
    ensures { Wrote (bits_by divisor) (Form.Runs range) false payload.now buffer.old buffer.new }
{
    let mut at: usize = 0;
    let mut o: usize = 0;
    while 8 <= payload.len() - at {
        let run = &payload[at..];
        let bits = quotient_bits(numbers::read_i32(run, 0), divisor);
        let count = numbers::read_u32(run, 4);
        at += 8;
        write_run(buffer, o, count, bits, n - o);
        o += count as usize;
    }
}

// Writes a run of floats from a place on. A short one is written as four, where so many are left: the next run is written over them. The
// first test is of the 32 bits that were read, so that they are read at once. `decoding` has the same for its own cells: as a public function
// it would test once more that there is room, since every public call is total.
fn write_run(buffer: &mut [u32], from: usize, count: u32, bits: u32, left: usize)
    requires { (count ≤ left) × (from + left ≤ length buffer.old) }
    ensures { Covered bits buffer.old from count left buffer.new }
{
    if 4 < count {
        buffer[from..from + count as usize].fill(bits);
    } else if payloads::is_short(count as usize, left) {
        buffer[from..from + 4].fill(bits);
    } else {
        buffer[from..from + count as usize].fill(bits);
    }
}

// The bits of a number by a divisor: one division in single precision.
fn quotient_bits(number: i32, divisor: f32) -> u32
    requires { (exact number ≡ true) × T (positive divisor) }
    ensures { result ≡ bits_by divisor number }
{
    f32::to_bits((number as f32) / divisor)
}
