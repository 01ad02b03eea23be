// The encoders of MMTF columns: the cells of a column to its bytes, the header and the payload in the writer's form, with the refusals
// 15, 16, 18 and 25 in this order. Every call is total: where it refuses, it changes nothing.
#![tactic(auto)]

ghost use Rattle.std.specs.Prelude.{◌≡◌, true, ◌+◌, ◌≤◌, length};
ghost use Rattle.std.specs.Int.{w32};
ghost use Rattle.std.proofs.Common.{of_z};
ghost use Rattle.columns.specs.declared.Wanted.TheVariants.{Only};
ghost use Rattle.columns.specs.Header.{header_bytes, header_size};
ghost use Rattle.refusal.specs.Outcome.{numbered};
ghost use Rattle.columns.specs.Encode.{results, whole_results, plan_of, encode};
ghost use Rattle.writers.specs.Placed.{over, placed_cells, laid_cells};
ghost use Rattle.encoding.specs.Calls.{encoded_answer, encoded_buffer};
ghost use Rattle.encoding.specs.Demand.{encoder_says, encoder_leaves};
ghost use Rattle.encoding.specs.Steps.{NumberKind, NumberForm};

use columns::{Kind, Plan, Wanted};
use refusal::Refusal;
use steps::Form;

// The refusal of a parameter, of elements or of a length that a header cannot have.
const OUT_OF_RANGE: Refusal = Refusal::HeaderRange;

// A column of 32-bit numbers.
pub fn encode_int32(codec: i32, values: &[i32], buffer: &mut [u8]) -> Result<usize, Refusal>
    ensures answer { numbered result ≡ encoder_says Kind.Int32 (of_z w32 codec) 0 values.now (length buffer.old) }
    ensures buffer { buffer.new ≡ encoder_leaves Kind.Int32 (of_z w32 codec) 0 values.now buffer.old }
{
    encode_numbers(Kind::Int32, codec, 0, values, buffer)
}

// A column of 16-bit numbers.
pub fn encode_int16(codec: i32, values: &[i32], buffer: &mut [u8]) -> Result<usize, Refusal>
    ensures answer { numbered result ≡ encoder_says Kind.Int16 (of_z w32 codec) 0 values.now (length buffer.old) }
    ensures buffer { buffer.new ≡ encoder_leaves Kind.Int16 (of_z w32 codec) 0 values.now buffer.old }
{
    encode_numbers(Kind::Int16, codec, 0, values, buffer)
}

// A column of 8-bit numbers.
pub fn encode_int8(codec: i32, values: &[i32], buffer: &mut [u8]) -> Result<usize, Refusal>
    ensures answer { numbered result ≡ encoder_says Kind.Int8 (of_z w32 codec) 0 values.now (length buffer.old) }
    ensures buffer { buffer.new ≡ encoder_leaves Kind.Int8 (of_z w32 codec) 0 values.now buffer.old }
{
    encode_numbers(Kind::Int8, codec, 0, values, buffer)
}

// A column of integers and their divisor.
pub fn encode_fixed_point(
    codec: i32,
    divisor: i32,
    values: &[i32],
    buffer: &mut [u8],
) -> Result<usize, Refusal>
    ensures answer { numbered result ≡ encoder_says Kind.FixedPoint (of_z w32 codec) (of_z w32 divisor) values.now (length buffer.old) }
    ensures buffer { buffer.new ≡ encoder_leaves Kind.FixedPoint (of_z w32 codec) (of_z w32 divisor) values.now buffer.old }
{
    encode_numbers(
        Kind::FixedPoint,
        codec,
        divisor.cast_unsigned(),
        values,
        buffer,
    )
}

// A column of characters.
pub fn encode_chars(codec: i32, values: &[u8], buffer: &mut [u8]) -> Result<usize, Refusal>
    ensures answer { numbered result ≡ encoder_says Kind.Chars (of_z w32 codec) 0 values.now (length buffer.old) }
    ensures buffer { buffer.new ≡ encoder_leaves Kind.Chars (of_z w32 codec) 0 values.now buffer.old }
{
    let number = codec.cast_unsigned();
    let plan = make_plan(number, 0, values.len(), Wanted::Only(Kind::Chars))?;
    let placed = writers::runs::place_chars(values, buffer, columns::HEADER_SIZE)?;
    Ok(finish(placed, number, plan, buffer))
}

// A column of strings of `size` bytes each, one after the other.
pub fn encode_strings(
    codec: i32,
    size: i32,
    names: &[u8],
    buffer: &mut [u8],
) -> Result<usize, Refusal>
    ensures answer { numbered result ≡ encoder_says Kind.Strings (of_z w32 codec) (of_z w32 size) names.now (length buffer.old) }
    ensures buffer { buffer.new ≡ encoder_leaves Kind.Strings (of_z w32 codec) (of_z w32 size) names.now buffer.old }
{
    let number = codec.cast_unsigned();
    let bytes = size.cast_unsigned();
    let plan = make_plan(number, bytes, names.len(), Wanted::Only(Kind::Strings))?;
    let placed = writers::plain::place_names(names, bytes as usize, buffer, columns::HEADER_SIZE)?;
    Ok(finish(placed, number, plan, buffer))
}

// A column of floats, by their bits.
pub fn encode_float32(codec: i32, bits: &[u32], buffer: &mut [u8]) -> Result<usize, Refusal>
    ensures answer { numbered result ≡ encoder_says Kind.Float32 (of_z w32 codec) 0 bits.now (length buffer.old) }
    ensures buffer { buffer.new ≡ encoder_leaves Kind.Float32 (of_z w32 codec) 0 bits.now buffer.old }
{
    let number = codec.cast_unsigned();
    let plan = make_plan(number, 0, bits.len(), Wanted::Only(Kind::Float32))?;
    let placed = writers::plain::place_floats(bits, buffer, columns::HEADER_SIZE)?;
    Ok(finish(placed, number, plan, buffer))
}

// A column of numbers of any kind.
fn encode_numbers(
    kind: Kind,
    codec: i32,
    parameter: u32,
    values: &[i32],
    buffer: &mut [u8],
) -> Result<usize, Refusal>
    requires { NumberKind kind }
    ensures answer { numbered result ≡ encoded_answer (encode (Only kind) (of_z w32 codec) parameter values.now) (length buffer.old) }
    ensures buffer { buffer.new ≡ encoded_buffer (encode (Only kind) (of_z w32 codec) parameter values.now) buffer.old }
{
    let number = codec.cast_unsigned();
    let plan = make_plan(number, parameter, values.len(), Wanted::Only(kind))?;
    let placed = place(values, plan.form, plan.delta, buffer)?;
    Ok(finish(placed, number, plan, buffer))
}

// The payload of numbers in a form, after the header's place.
fn place(values: &[i32], form: Form, delta: bool, buffer: &mut [u8]) -> Result<usize, Refusal>
    requires { NumberForm form delta }
    ensures answer { numbered result ≡ placed_cells form 0 delta values.now (length buffer.old) header_size }
    ensures buffer { buffer.new ≡ laid_cells form 0 delta values.now buffer.old header_size }
{
    match form {
        Form::Plain(size) => writers::plain::place_numbers(
            values,
            size,
            buffer,
            columns::HEADER_SIZE,
        ),
        Form::Packed(size) => writers::packed::place_numbers(
            values,
            size,
            delta,
            buffer,
            columns::HEADER_SIZE,
        ),
        Form::Runs(range) => writers::runs::place_numbers(
            values,
            range,
            delta,
            buffer,
            columns::HEADER_SIZE,
        ),
        Form::Names => Err(Refusal::NumberNotAllowed),
    }
}

// The refusals 15 and 16, and what is to be written.
fn make_plan(codec: u32, parameter: u32, elements: usize, wanted: Wanted) -> Result<Plan, Refusal>
    ensures { numbered result ≡ plan_of wanted codec parameter elements }
{
    let Some(row) = columns::codec_of(codec) else {
        return Err(Refusal::CodecUnknown);
    };
    if !columns::is_wanted(wanted, row.kind) {
        return Err(Refusal::CodecUnknown);
    }
    if !columns::parameter_ok(row.parameter, parameter) {
        return Err(OUT_OF_RANGE);
    }
    if !whole_results(row.form, parameter as usize, elements) {
        return Err(OUT_OF_RANGE);
    }
    let n = count_results(row.form, parameter as usize, elements);
    if (columns::LENGTH_LIMIT as usize) < n {
        return Err(OUT_OF_RANGE);
    }
    Ok(Plan {
        form: row.form,
        delta: row.delta,
        length: n as u32,
        parameter: columns::used_parameter(row.parameter, parameter),
    })
}

// The results of so many elements.
fn count_results(form: Form, parameter: usize, elements: usize) -> usize
    ensures { result ≡ results form parameter elements }
{
    match form {
        Form::Plain(_) | Form::Packed(_) | Form::Runs(_) => elements,
        Form::Names if parameter == 0 => 0,
        Form::Names => elements / parameter,
    }
}

// Whether so many elements are whole results.
fn whole_results(form: Form, parameter: usize, elements: usize) -> bool
    ensures { result ≡ whole_results form parameter elements }
{
    match form {
        Form::Plain(_) | Form::Packed(_) | Form::Runs(_) => true,
        Form::Names if parameter == 0 => elements == 0,
        Form::Names => elements % parameter == 0,
    }
}

// Puts the header before a payload of so many bytes, and gives the number of both.
fn finish(placed: usize, codec: u32, plan: Plan, buffer: &mut [u8]) -> usize
    requires { header_size + placed ≤ length buffer.old }
    ensures count { result ≡ header_size + placed }
    ensures buffer { buffer.new ≡ over buffer.old 0 (header_bytes codec plan.length plan.parameter) }
{
    write_header(buffer, codec, plan.length, plan.parameter);
    columns::HEADER_SIZE + placed
}

// The bytes of the header.
fn write_header(buffer: &mut [u8], codec: u32, count: u32, parameter: u32)
    requires { header_size ≤ length buffer.old }
    ensures { buffer.new ≡ over buffer.old 0 (header_bytes codec count parameter) }
{
    numbers::write_u32(buffer, 0, codec);
    numbers::write_u32(buffer, 4, count);
    numbers::write_u32(buffer, 8, parameter);
}
