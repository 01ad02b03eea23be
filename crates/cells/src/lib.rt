// One cell of a column of any kind. The payload is read at most twice, and nothing is copied.
#![tactic(auto)]

ghost use Rattle.std.specs.Prelude.{◌≡◌, Ok, true, false};
ghost use Rattle.refusal.specs.Outcome.{numbered};
ghost use Rattle.columns.specs.Table.{is_strings};
ghost use Rattle.columns.specs.Decode.{decode, judged_payload};
ghost use Rattle.cells.specs.Calls.{quotient_cell, value_of, cell_of};
ghost use Rattle.cells.specs.Steps.{is_direct, ResultAt, HasResultAt, as_cell};

use columns::{HEADER_SIZE, Header, Kind, Wanted};
use refusal::Refusal;
use steps::{Form, Range, Size};

// A whole number, a letter, a float, or the refusal.
#[derive(Clone, Copy)]
pub enum Cell {
    Int(i32),
    Char(u8),
    Float(f32),
    Refused(u8),
}

// The cell at an index: the column's own refusals 14 to 19, then 15 for strings, 28 past the end, and 27 by this cell or the divisor.
pub fn cell_at(column: &[u8], index: usize) -> Cell
    ensures { result ≡ cell_of (decode Wanted.Any column.now) index }
{
    match cell_or_refusal(column, index) {
        Ok(cell) => cell,
        Err(refused) => Cell::Refused(refused.number()),
    }
}

// The cell at an index, or why there is none.
fn cell_or_refusal(column: &[u8], index: usize) -> Result<Cell, Refusal>
    ensures { as_cell (numbered result) ≡ cell_of (decode Wanted.Any column.now) index }
{
    let header = columns::read_header(column, Wanted::Any)?;
    cell_in(&column[HEADER_SIZE..], header, index)
}

// The cell of a payload whose header passed.
fn cell_in(payload: &[u8], header: Header, index: usize) -> Result<Cell, Refusal>
    requires { is_strings header.kind ≡ false → is_direct header.form header.delta ≡ true }
    ensures { as_cell (numbered result) ≡ cell_of (judged_payload (Ok header) payload.now) index }
{
    payloads::refusal_of(
        payload,
        header.form,
        header.parameter as usize,
        header.length,
    )?;
    if header.kind == Kind::Strings {
        return Err(Refusal::CodecUnknown);
    }
    if header.length <= index {
        return Err(Refusal::NoSuchEntry);
    }
    let number = number_in(payload, header.form, header.delta, index);
    value_of(header.kind, header.parameter, number)
}

// The result at an index of a payload that has one there.
fn number_in(payload: &[u8], form: Form, delta: bool, index: usize) -> i32
    requires { HasResultAt form payload.now index × (is_direct form delta ≡ true) }
    ensures { ResultAt form delta payload.now index result }
{
    match form {
        Form::Plain(size) => steps::number_at(payload, index * steps::bytes(size), size),
        // A call for each size: the compiler makes a loop of it that has the size as a constant.
        Form::Packed(Size::One) => packed_at(payload, Size::One, delta, index),
        Form::Packed(Size::Two) => packed_at(payload, Size::Two, delta, index),
        Form::Packed(Size::Four) => packed_at(payload, Size::Four, delta, index),
        Form::Runs(_) => run_at(payload, delta, index),
        Form::Names => 0,
    }
}

// The result at an index of packed numbers that have one there. `left` is how many results come before it, and `total` the sum of the
// result that has begun, with delta of those before it too. Each number is read from the part that it fills, so that no test of room is left.
fn packed_at(payload: &[u8], size: Size, delta: bool, index: usize) -> i32
    ensures { ResultAt (Form.Packed size) delta payload.now index result }
{
    let k = steps::bytes(size);
    let mut at: usize = 0;
    let mut left = index;
    let mut total: i32 = 0;
    while k <= payload.len() - at {
        let part = &payload[at..at + k];
        let number = steps::number_at(part, 0, size);
        at += k;
        total = steps::add_delta(total, number);
        if !steps::is_limit(number, size) {
            if left == 0 {
                return total;
            }
            left -= 1;
            total = payloads::total_after(total, false, delta);
        }
    }
    0
}

// The result at an index of runs that have one there. `left` is how many results come before it, and `sum` the last result.
fn run_at(payload: &[u8], delta: bool, index: usize) -> i32
    ensures { (range : Range) → ResultAt (Form.Runs range) delta payload.now index result }
{
    let mut at: usize = 0;
    let mut left = index;
    let mut sum: i32 = 0;
    while 8 <= payload.len() - at {
        let run = &payload[at..];
        let value = numbers::read_i32(run, 0);
        let count = numbers::read_u32(run, 4) as usize;
        at += 8;
        if left < count {
            return payloads::after_run(sum, value, left + 1, delta);
        }
        left -= count;
        sum = payloads::after_run(sum, value, count, delta);
    }
    0
}

// A column's number as a cell.
fn value_of(kind: Kind, m: u32, x: i32) -> Result<Cell, Refusal>
    ensures { as_cell (numbered result) ≡ value_of kind m x }
{
    match kind {
        Kind::Float32 => Ok(Cell::Float(numbers::of_bits(x.cast_unsigned()))),
        Kind::FixedPoint => quotient_cell(x, m),
        Kind::Int8 | Kind::Int16 | Kind::Int32 => Ok(Cell::Int(x)),
        Kind::Strings => Err(Refusal::CodecUnknown),
        Kind::Chars => Ok(Cell::Char(numbers::low_byte(x.cast_unsigned()))),
    }
}

// A number by a divisor: one division in single precision, where both are exact.
fn quotient_cell(x: i32, divisor: u32) -> Result<Cell, Refusal>
    ensures { as_cell (numbered result) ≡ quotient_cell divisor x }
{
    if floats::are_exact(payloads::is_exact(x), divisor) {
        return Ok(Cell::Float((x as f32) / (divisor as f32)));
    }
    Err(Refusal::NotExact)
}
