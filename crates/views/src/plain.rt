// What stands at a place of a file, by its head: each call takes any bytes and any place, and supposes nothing of them.
ghost use Rattle.std.specs.Prelude.{◌≡◌};
ghost use Rattle.heads.specs.Head.{kind_at};
ghost use Rattle.views.specs.Plain.{number_at, head_end, text_at, text_end, integer_at, bits_at};

use heads::Kind;

// The kind of the value at a place.
pub fn kind_at(file: &[u8], at: usize) -> Kind
    ensures { result ≡ kind_at file.now at }
{
    heads::kind_at(file, at)
}

// The number of the head at a place: the bytes of a string or a binary, the values of an array, the entries of a map. 0 where it is cut short.
pub fn number_at(file: &[u8], at: usize) -> usize
    ensures { result ≡ number_at file.now at }
{
    match heads::head_at(file, at) {
        Some(head) => head.number,
        None => 0,
    }
}

// The place after the head at a place: where an integer or a float ends, and where the first value of an array stands. 0 where it is cut short.
pub fn head_end(file: &[u8], at: usize) -> usize
    ensures { result ≡ head_end file.now at }
{
    match heads::head_at(file, at) {
        Some(head) => head.end,
        None => 0,
    }
}

// The bytes of the string or the binary at a place; none of another value, or of one that is cut short.
pub fn text_at<'a>(file: &'a [u8], at: usize) -> &'a [u8]
    ensures { result.now ≡ text_at file.now at }
{
    let part = values::text_at(file, at);
    &file[part.at..part.at + part.count]
}

// Where the string or the binary at a place ends, which for a key is where its value stands; 0 for another value, or for one that is cut short.
pub fn text_end(file: &[u8], at: usize) -> usize
    ensures { result ≡ text_end file.now at }
{
    let part = values::text_at(file, at);
    part.at + part.count
}

// The integer at a place; 0 for another value, for one above 2,147,483,647 and for one that is cut short.
pub fn integer_at(file: &[u8], at: usize) -> i32
    ensures { result ≡ integer_at file.now at }
{
    values::integer_at(file, at)
}

// The bits of the float at a place; of another value 0.
pub fn bits_at(file: &[u8], at: usize) -> u32
    ensures { result ≡ bits_at file.now at }
{
    let Some(head) = heads::head_at(file, at) else {
        return 0;
    };
    match heads::kind_at(file, at) {
        Kind::Float => (head.number % 4294967296) as u32,
        _ => 0,
    }
}
