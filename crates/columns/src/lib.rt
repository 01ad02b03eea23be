// Columns: the table of the sixteen codecs, and a column's header with its refusals 14 to 17. specs/ has what a column decodes to
// and what its cells encode to, once for all codecs.
#![tactic(auto)]

ghost use Rattle.std.specs.Prelude.{◌≡◌, ◌≤◌};
ghost use Rattle.refusal.specs.Outcome.{numbered};
ghost use Rattle.columns.specs.Table.{codec_with, codec_of, is_real, suits, length_limit, parameter_ok, used, size_right};
ghost use Rattle.columns.specs.Header.{judged, header_of};

use refusal::Refusal;
use steps::{Form, Range, Size};

// The most results of a column.
pub const LENGTH_LIMIT: u32 = 16_777_216;

// The bytes of a header; the payload follows.
pub const HEADER_SIZE: usize = 12;

// The most bytes of a name.
pub const NAME_LIMIT: u32 = 255;

// The largest divisor.
const DIVISOR_LIMIT: u32 = numbers::INTEGER_LIMIT as u32;

// The kinds of columns (paper 01: real by codec 1, real by codecs 9 to 13, small, short, whole, names, letters).
#[derive(Clone, Copy, PartialEq, Eq)]
pub enum Kind {
    Float32,
    FixedPoint,
    Int8,
    Int16,
    Int32,
    Strings,
    Chars,
}

// What a caller asks for: one kind, real columns of either kind, or any.
#[derive(Clone, Copy)]
pub enum Wanted {
    Only(Kind),
    Real,
    Any,
}

// What the header's parameter is.
#[derive(Clone, Copy)]
pub enum Parameter {
    Unused,
    Divisor,
    NameSize,
}

// A row of the table of codecs.
#[derive(Clone, Copy)]
pub struct Codec {
    pub kind: Kind,
    // the form of the payload
    pub form: Form,
    // whether delta follows
    pub delta: bool,
    // what the header's parameter is
    pub parameter: Parameter,
}

// A header that passes.
#[derive(Clone, Copy)]
pub struct Header {
    // how many results the column has
    pub length: usize,
    // the parameter as the codec uses it
    pub parameter: u32,
    pub kind: Kind,
    pub form: Form,
    pub delta: bool,
}

// What an encoder will do: the form of the payload, delta, and length and parameter as they are written.
#[derive(Clone, Copy)]
pub struct Plan {
    pub form: Form,
    pub delta: bool,
    pub length: u32,
    pub parameter: u32,
}

// The header of a column of the kind that is wanted, with the refusals 14 to 17.
pub fn read_header(column: &[u8], wanted: Wanted) -> Result<Header, Refusal>
    ensures { numbered result ≡ header_of wanted column.now }
{
    if column.len() < HEADER_SIZE {
        return Err(Refusal::ColumnShort);
    }
    let codec = numbers::read_u32(column, 0);
    let length = numbers::read_u32(column, 4);
    let parameter = numbers::read_u32(column, 8);
    judge(
        codec_of(codec),
        length,
        parameter,
        column.len() - HEADER_SIZE,
        wanted,
    )
}

// What the parameter is for, as the table of codecs has it.
const UNUSED: Parameter = Parameter::Unused;

const DIVISOR: Parameter = Parameter::Divisor;

// The codec of a number.
pub fn codec_of(number: u32) -> Option<Codec>
    ensures { result ≡ codec_of number }
{
    match number {
        1 => row(Kind::Float32, Form::Plain(Size::Four), false, UNUSED),
        2 => row(Kind::Int8, Form::Plain(Size::One), false, UNUSED),
        3 => row(Kind::Int16, Form::Plain(Size::Two), false, UNUSED),
        4 => row(Kind::Int32, Form::Plain(Size::Four), false, UNUSED),
        5 => row(Kind::Strings, Form::Names, false, Parameter::NameSize),
        6 => row(Kind::Chars, Form::Runs(Range::Ascii), false, UNUSED),
        7 => row(Kind::Int32, Form::Runs(Range::Int32), false, UNUSED),
        8 => row(Kind::Int32, Form::Runs(Range::Int32), true, UNUSED),
        9 => row(Kind::FixedPoint, Form::Runs(Range::Int32), false, DIVISOR),
        10 => row(Kind::FixedPoint, Form::Packed(Size::Two), true, DIVISOR),
        11 => row(Kind::FixedPoint, Form::Plain(Size::Two), false, DIVISOR),
        12 => row(Kind::FixedPoint, Form::Packed(Size::Two), false, DIVISOR),
        13 => row(Kind::FixedPoint, Form::Packed(Size::One), false, DIVISOR),
        14 => row(Kind::Int32, Form::Packed(Size::Two), false, UNUSED),
        15 => row(Kind::Int32, Form::Packed(Size::One), false, UNUSED),
        16 => row(Kind::Int8, Form::Runs(Range::Int8), false, UNUSED),
        _ => None,
    }
}

// A row of the table.
fn row(kind: Kind, form: Form, delta: bool, parameter: Parameter) -> Option<Codec>
    ensures { result ≡ codec_with kind form delta parameter }
{
    Some(Codec {
        kind,
        form,
        delta,
        parameter,
    })
}

// Whether a kind is the one that is wanted.
pub fn is_wanted(wanted: Wanted, kind: Kind) -> bool
    ensures { result ≡ suits wanted kind }
{
    match wanted {
        Wanted::Only(k) => k == kind,
        Wanted::Real => is_real(kind),
        Wanted::Any => true,
    }
}

// Whether a parameter is one that the codec may have.
pub fn parameter_ok(parameter: Parameter, value: u32) -> bool
    ensures { result ≡ parameter_ok parameter value }
{
    match parameter {
        Parameter::Unused => true,
        Parameter::Divisor => 1 <= value && value <= DIVISOR_LIMIT,
        Parameter::NameSize => 1 <= value && value <= NAME_LIMIT,
    }
}

// The parameter as a codec uses it: 0 where the codec uses none.
pub fn used_parameter(parameter: Parameter, value: u32) -> u32
    ensures { result ≡ used parameter value }
{
    match parameter {
        Parameter::Unused => 0,
        Parameter::Divisor | Parameter::NameSize => value,
    }
}

// The rules 15 to 17 of a header.
fn judge(
    codec: Option<Codec>,
    length: u32,
    parameter: u32,
    bytes: usize,
    wanted: Wanted,
) -> Result<Header, Refusal>
    ensures { numbered result ≡ judged wanted codec length parameter bytes }
{
    let Some(codec) = codec else {
        return Err(Refusal::CodecUnknown);
    };
    if !is_wanted(wanted, codec.kind) {
        return Err(Refusal::CodecUnknown);
    }
    if LENGTH_LIMIT < length || !parameter_ok(codec.parameter, parameter) {
        return Err(Refusal::HeaderRange);
    }
    if !size_ok(codec.form, length as usize, parameter as usize, bytes) {
        return Err(Refusal::PayloadSize);
    }
    Ok(Header {
        length: length as usize,
        parameter: used_parameter(codec.parameter, parameter),
        kind: codec.kind,
        form: codec.form,
        delta: codec.delta,
    })
}

// Whether a payload has the right size.
fn size_ok(form: Form, length: usize, parameter: usize, bytes: usize) -> bool
    requires { (length ≤ length_limit) × (parameter ≤ 4294967295) }
    ensures { result ≡ size_right form length parameter bytes }
{
    match form {
        Form::Plain(size) => bytes == length * steps::bytes(size),
        Form::Packed(size) => bytes % steps::bytes(size) == 0,
        Form::Runs(_) => bytes % 8 == 0,
        Form::Names => bytes == length * parameter,
    }
}

// Whether a column of a kind may be asked for as floats.
fn is_real(kind: Kind) -> bool
    ensures { result ≡ is_real kind }
{
    matches!(kind, Kind::Float32 | Kind::FixedPoint)
}
