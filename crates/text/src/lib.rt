// Bytes as text: whether two strings of bytes are the same, whether a word stands at a place, text put into a lent buffer, one piece after the
// other, and decimal words read as numbers. Every call is total: of what goes beyond the buffer's end nothing is put.
#![tactic(auto)]

ghost use Rattle.std.specs.Prelude.{◌≡◌, [], ◌∷◌, length, drop};
ghost use Rattle.text.specs.Equal.{equal, begins};
ghost use Rattle.text.specs.Put.{Put};
ghost use Rattle.text.specs.Decimal.{glyph, decimal, with_digit, number_in};

// Whether two strings of bytes are the same. It gives `==` in the words of the definition `equal`, by which names and keys are told apart.
pub fn same_bytes(x: &[u8], y: &[u8]) -> bool
    ensures { result ≡ equal x.now y.now }
{
    x == y
}

// Whether a word stands at a place of bytes.
pub fn stands_at(bytes: &[u8], at: usize, word: &[u8]) -> bool
    ensures { result ≡ begins word.now (drop at bytes.now) }
{
    bytes[at.min(bytes.len())..].starts_with(word)
}

// Puts a byte at a place, and gives the place after it.
pub fn put_byte(buffer: &mut [u8], at: usize, byte: u8) -> usize
    ensures { Put buffer.old at (byte ∷ []) buffer.new result }
{
    if at < buffer.len() {
        buffer[at] = byte;
        return at + 1;
    }
    at
}

// Puts bytes at a place, and gives the place after them.
pub fn put(buffer: &mut [u8], at: usize, bytes: &[u8]) -> usize
    ensures { Put buffer.old at bytes.now buffer.new result }
{
    let mut next = at;
    for byte in bytes {
        next = put_byte(buffer, next, *byte);
    }
    next
}

// Puts a number in decimal at a place, and gives the place after it.
pub fn put_decimal(buffer: &mut [u8], at: usize, number: u32) -> usize
    ensures { Put buffer.old at (decimal number) buffer.new result }
{
    if number < 10 {
        return put_byte(buffer, at, digit(number));
    }
    let next = put_decimal(buffer, at, number / 10);
    put_byte(buffer, next, digit(number % 10))
}

// How many digits a number has in decimal. A `while`: what is left is divided, and a range would count up to what is sought.
pub fn digit_count(number: u32) -> usize
    ensures { result ≡ length (decimal number) }
{
    let mut rest = number;
    let mut count: usize = 1;
    while 10 <= rest {
        rest /= 10;
        count += 1;
    }
    count
}

// The last digit of a number in base 16, in ASCII.
pub fn digit(number: u32) -> u8
    ensures { result ≡ glyph number }
{
    let d = (number % 16) as u8;
    if d < 10 { 48 + d } else { 87 + d }
}

// The number that a word of decimal digits says; the largest of 32 bits where it is larger.
pub fn number_of(word: &[u8]) -> Option<u32>
    ensures { result ≡ number_in word.now }
{
    if word.is_empty() {
        return None;
    }
    let mut number: u32 = 0;
    for byte in word {
        if !byte.is_ascii_digit() {
            return None;
        }
        number = with_digit(number, *byte - b'0');
    }
    Some(number)
}

// A number with a digit more; the largest of 32 bits where that is larger.
pub fn with_digit(number: u32, digit: u8) -> u32
    ensures { result ≡ with_digit number digit }
{
    number.saturating_mul(10).saturating_add(u32::from(digit))
}
