// The shape of the value under an outer key: whether it can be shown as text, and how.
ghost use Rattle.std.specs.Prelude.{◌≡◌, Some};
ghost use Rattle.values.specs.Walked.{Walked, WalkedAll};
ghost use Rattle.values.specs.Parts.{items_of};
ghost use Rattle.views.specs.Shapes.{is_plain, all_plain, kind_shape, shape_of, shape_under};

use heads::Kind;

// A plain value, a binary, an array of plain values, or a value that holds others.
#[derive(Clone, Copy)]
pub enum Shape {
    Integer,
    Float,
    String,
    Binary,
    Flat,
    Nested,
}

// The shape of the value under an outer key; none where the file is no container or has no such key.
pub fn shape_of(file: &[u8], name: &[u8]) -> Option<Shape>
    ensures { result ≡ shape_under file.now name.now }
{
    let at = crate::value_under(file, name);
    if at == 0 {
        return None;
    }
    shape_at(file, at)
}

// The shape of the value at a place.
fn shape_at(file: &[u8], at: usize) -> Option<Shape>
    ensures { Walked file.now at (λ x e. result ≡ Some (shape_of x)) }
{
    let part = values::items_at(file, at);
    let flat = all_plain(file, part.count, part.at);
    by_kind(heads::kind_at(file, at), flat)
}

// The shape of a value by its kind, and by whether the values of an array are all plain.
fn by_kind(kind: Kind, flat: bool) -> Option<Shape>
    ensures { result ≡ kind_shape kind flat }
{
    match kind {
        Kind::Unsigned | Kind::Signed => Some(Shape::Integer),
        Kind::Float => Some(Shape::Float),
        Kind::Str => Some(Shape::String),
        Kind::Bin => Some(Shape::Binary),
        Kind::Array => Some(if flat { Shape::Flat } else { Shape::Nested }),
        Kind::Map => Some(Shape::Nested),
        Kind::Outside | Kind::Missing => None,
    }
}

// Whether the n values from a place on are plain.
fn all_plain(file: &[u8], n: usize, at: usize) -> bool
    ensures { WalkedAll file.now n at (λ ds e. result ≡ all_plain ds) }
{
    let mut p = at;
    for _i in 0..n {
        if !is_plain(heads::kind_at(file, p)) {
            return false;
        }
        p = values::skip(file, p);
    }
    true
}

// Whether a value of a kind is an integer, a float or a string.
fn is_plain(kind: Kind) -> bool
    ensures { result ≡ is_plain kind }
{
    matches!(
        kind,
        Kind::Unsigned | Kind::Signed | Kind::Float | Kind::Str
    )
}
