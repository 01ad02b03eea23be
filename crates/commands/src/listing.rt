// What a field is: its kind by the head of its value, the codec of a column, and its length.
ghost use Rattle.std.specs.Prelude.{◌≡◌};
ghost use Rattle.columns.specs.declared.Wanted.{Wanted};
ghost use Rattle.columns.specs.Header.{header_of};
ghost use Rattle.commands.specs.Listing.{count_of, what_of, binary_what, what_at};

use columns::Wanted;
use heads::Kind;
use lines::single::Sort;

// What a field is, the codec of a column, and the length.
#[derive(Clone, Copy)]
pub struct What {
    pub sort: Sort,
    pub codec: Option<u32>,
    pub length: Option<u32>,
}

// What the value at a place is.
pub fn what_at(file: &[u8], at: usize) -> What
    ensures { result ≡ what_at file.now at }
{
    let length = count_of(views::plain::number_at(file, at));
    match views::plain::kind_at(file, at) {
        Kind::Unsigned | Kind::Signed => of_sort(Sort::Integer, None),
        Kind::Float => of_sort(Sort::Float, None),
        Kind::Str => of_sort(Sort::String, length),
        Kind::Bin => binary(views::plain::text_at(file, at), length),
        Kind::Array => of_sort(Sort::Array, length),
        Kind::Map => of_sort(Sort::Map, length),
        Kind::Outside | Kind::Missing => of_sort(Sort::Binary, None),
    }
}

// What a value is that is no column.
fn of_sort(sort: Sort, length: Option<u32>) -> What
    ensures { result ≡ what_of sort length }
{
    What {
        sort,
        codec: None,
        length,
    }
}

// What a binary is: a column, if its header passes.
fn binary(body: &[u8], length: Option<u32>) -> What
    ensures { result ≡ binary_what (header_of Wanted.Any body.now) body.now length }
{
    match columns::read_header(body, Wanted::Any) {
        Ok(header) => What {
            sort: Sort::Column,
            codec: Some(numbers::read_u32(body, 0)),
            length: count_of(header.length),
        },
        Err(_) => of_sort(Sort::Binary, length),
    }
}

// A number, or none where 32 bits do not hold it.
fn count_of(n: usize) -> Option<u32>
    ensures { result ≡ count_of n }
{
    u32::try_from(n).ok()
}
