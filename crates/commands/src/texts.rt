// The value of a field as text: how it is shown, and the line of a plain value.
ghost use Rattle.std.specs.Prelude.{◌≡◌};
ghost use Rattle.text.specs.Put.{Put};
ghost use Rattle.commands.specs.Texts.{way_of, item_text, item_end};

use heads::Kind;
use sentences::OfPart;
use views::shapes::Shape;

// How a value is shown: as one line, as the line of a string, as a line for each value of an array; or not, and what is said.
#[derive(Clone, Copy)]
pub enum Way {
    One,
    Text,
    Each,
    Not(OfPart),
}

// How a value of a shape is shown; where there is no such value, what is said of that.
pub fn way_of(shape: Option<Shape>) -> Way
    ensures { result ≡ way_of shape }
{
    match shape {
        Some(Shape::Integer | Shape::Float) => Way::One,
        Some(Shape::String) => Way::Text,
        Some(Shape::Flat) => Way::Each,
        Some(Shape::Binary) => Way::Not(OfPart::IsBinary),
        Some(Shape::Nested) => Way::Not(OfPart::Nested),
        None => Way::Not(OfPart::NoField),
    }
}

// Puts the line of the plain value at a place.
pub fn put_item(buffer: &mut [u8], at: usize, value: &[u8], p: usize) -> usize
    ensures { Put buffer.old at (item_text value.now p) buffer.new result }
{
    match views::plain::kind_at(value, p) {
        Kind::Str => lines::single::put_string(buffer, at, views::plain::text_at(value, p)),
        Kind::Float => lines::single::put_float(buffer, at, views::plain::bits_at(value, p)),
        _ => lines::single::put_integer(buffer, at, views::plain::integer_at(value, p)),
    }
}

// Where the plain value at a place ends.
pub fn item_end(value: &[u8], p: usize) -> usize
    ensures { result ≡ item_end value.now p }
{
    match views::plain::kind_at(value, p) {
        Kind::Str => views::plain::text_end(value, p),
        _ => views::plain::head_end(value, p),
    }
}
