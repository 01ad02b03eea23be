// A transform's matrix: four rows of four floats, by the number of its assembly in bioAssemblyList and its own number in that. Of the file the
// container is judged, and the type of bioAssemblyList, and no other field.
#![tactic(auto)]

ghost use Rattle.std.specs.Prelude.{◌≡◌, true, ◌+◌, ◌≤◌, take, drop, Some};
ghost use Rattle.refusal.specs.Outcome.{number_of, numbered};
ghost use Rattle.std.proofs.Math.Option.{some};
ghost use Rattle.messagepack.specs.Document.{count};
ghost use Rattle.values.specs.Parts.{bits_of, items_of};
ghost use Rattle.values.specs.Walked.{Walked, WalkedAll};
ghost use Rattle.fields.specs.Tests.{typed};
ghost use Rattle.transforms.specs.Matrix.{nth, assemblies_type, matrix_number, floats_of, zeros, matrix_floats, rows_of, matrix_of};
ghost use Rattle.transforms.specs.Steps.{FoundSays, WalkedPast, floats_or_zeros, answer_of};

use heads::Kind;
use refusal::Refusal;

// The matrix of a transform, four rows of four; all zero on refusal.
pub fn matrix(file: &[u8], assembly: u64, transform: u64) -> [[f32; 4]; 4]
    ensures { result ≡ matrix_of file.now assembly transform }
{
    match find(file, assembly, transform) {
        Ok(floats) => rows(floats),
        Err(_) => rows(no_floats()),
    }
}

// The refusal of a transform's matrix, 1 to 11, 26, 13 or 28, where there is no such matrix.
pub fn matrix_refusal(file: &[u8], assembly: u64, transform: u64) -> Result<(), Refusal>
    ensures { number_of result ≡ matrix_number file.now assembly transform }
{
    find(file, assembly, transform)?;
    Ok(())
}

// The sixteen floats of a transform's matrix in order, or its refusal, from one reading of the file.
pub fn find(file: &[u8], assembly: u64, transform: u64) -> Result<[f32; 16], Refusal>
    ensures number { number_of result ≡ matrix_number file.now assembly transform }
    ensures floats { floats_or_zeros result ≡ matrix_floats file.now assembly transform }
{
    messagepack::container(file)?;
    let at = values::keys::find(file, 0, b"bioAssemblyList");
    if at == 0 {
        return Err(Refusal::NoSuchField);
    }
    if !fields::is_typed(file, at, fields::BIO_ASSEMBLY_LIST) {
        return Err(Refusal::FieldType);
    }
    transform_in(file, at, assembly, transform)
}

// Sixteen floats as four rows of four.
pub fn rows(floats: [f32; 16]) -> [[f32; 4]; 4]
    ensures { result ≡ rows_of floats }
{
    [
        row(floats, 0),
        row(floats, 4),
        row(floats, 8),
        row(floats, 12),
    ]
}

// Four of the floats, from one on.
fn row(floats: [f32; 16], i: usize) -> [f32; 4]
    requires { i + 4 ≤ 16 }
    ensures { result ≡ take 4 (drop i floats) }
{
    [floats[i], floats[i + 1], floats[i + 2], floats[i + 3]]
}

// Sixteen zeros.
fn no_floats() -> [f32; 16]
    ensures { result ≡ zeros }
{
    [0.0f32; 16]
}

// The transform of an assembly in bioAssemblyList, which is at a place and has its type.
fn transform_in(file: &[u8], at: usize, assembly: u64, transform: u64) -> Result<[f32; 16], Refusal>
    ensures { Walked file.now at (λ x e. typed assemblies_type x ≡ true → numbered result ≡ answer_of assembly transform (some x)) }
{
    let a = item(file, at, assembly).ok_or(Refusal::NoSuchEntry)?;
    let list = values::keys::find(file, a, b"transformList");
    let t = item(file, list, transform).ok_or(Refusal::NoSuchEntry)?;
    let floats = floats_at(file, values::keys::find(file, t, b"matrix"));
    Ok(floats)
}

// The value with a number in the array at a place.
fn item(file: &[u8], at: usize, number: u64) -> Option<usize>
    ensures { Walked file.now at (λ x e. FoundSays file.now result (nth number (items_of x))) }
{
    let part = values::items_at(file, at);
    let n = number as usize;
    if part.count <= n {
        return None;
    }
    Some(past(file, part.at, n))
}

// The place after n values from a place on.
fn past(file: &[u8], at: usize, n: usize) -> usize
    ensures { WalkedPast file.now at n (λ ds. FoundSays file.now (Some result) (nth n ds)) }
{
    let mut p = at;
    for _i in 0..n {
        p = values::skip(file, p);
    }
    p
}

// The floats of the array at a place that has sixteen values.
fn floats_at(file: &[u8], at: usize) -> [f32; 16]
    ensures { Walked file.now at (λ x e. count (items_of x) ≡ 16 → result ≡ floats_of (items_of x)) }
{
    let part = values::items_at(file, at);
    floats_from(file, part.at)
}

// The floats of sixteen values from a place on.
fn floats_from(file: &[u8], at: usize) -> [f32; 16]
    ensures { WalkedAll file.now 16 at (λ ds e. result ≡ floats_of ds) }
{
    let mut floats = no_floats();
    let mut p = at;
    for float in &mut floats {
        *float = numbers::of_bits(bits_at(file, p));
        p = values::skip(file, p);
    }
    floats
}

// The bits of the float at a place; of another value 0. `views::plain::bits_at` says the same by heads, for any bytes and by a table of its own; this
// one promises the bits of the document that stands there, so that both stay.
fn bits_at(file: &[u8], at: usize) -> u32
    ensures { Walked file.now at (λ x e. result ≡ bits_of x) }
{
    let Some(head) = heads::head_at(file, at) else {
        return 0;
    };
    match heads::kind_at(file, at) {
        Kind::Float => (head.number % 4294967296) as u32,
        _ => 0,
    }
}
