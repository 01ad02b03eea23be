// The exact decimal of a finite float: its digits in an array, the lowest first, made by multiplying, and put as text from the highest on.
ghost use Rattle.std.specs.Prelude.{◌≡◌, [], ◌∷◌, ℕ, ◌+◌, ◌-◌, ◌*◌, ◌^◌, ◌<◌, ◌≤◌, length, take, drop};
ghost use Rattle.text.specs.Decimal.{decimal_in};
ghost use Rattle.text.specs.Put.{Put};
ghost use Rattle.lines.specs.Figures.{figures, value_of, glyphs, trimmed};
ghost use Rattle.lines.specs.Decimals.{scaled_text, binary_text, exact_text};

// Room for the digits of a float: 149 after the point, and 39 before it.
const ROOM: usize = 192;

// Puts the exact decimal of a finite float by its exponent and its fraction.
pub(crate) fn put_exact(buffer: &mut [u8], at: usize, exponent: u32, fraction: u32) -> usize
    requires exponent_bound { exponent < 255 }
    requires fraction_bound { fraction < 0x80_0000 }
    ensures { Put buffer.old at (exact_text exponent fraction) buffer.new result }
{
    if exponent == 0 {
        return put_binary(buffer, at, fraction, 1);
    }
    put_binary(buffer, at, 0x80_0000 + fraction, exponent)
}

// Puts m * 2 ^ (exponent - 150).
fn put_binary(buffer: &mut [u8], at: usize, m: u32, exponent: u32) -> usize
    requires m_bound { m < 0x100_0000 }
    requires le_exponent { (1 ≤ exponent) × (exponent < 255) }
    ensures { Put buffer.old at (binary_text m exponent) buffer.new result }
{
    let mut row = blank();
    if exponent < 150 {
        let k = (150 - exponent) as usize;
        let end = k + 39;
        write_power(&mut row[..end], m, 5, k);
        return put_scaled(buffer, at, &row[..end], k);
    }
    write_power(&mut row[..39], m, 2, (exponent - 150) as usize);
    put_scaled(buffer, at, &row[..39], 0)
}

// An array with no digits in it.
fn blank() -> [u8; ROOM]
    ensures { length result ≡ 192 }
{
    [0u8; ROOM]
}

// Writes the digits of m times a power of a factor.
fn write_power(row: &mut [u8], m: u32, factor: u32, count: usize)
    requires m_bound { m < 0x100_0000 }
    requires factor_bound { factor ≤ 10 }
    ensures { row.new ≡ figures (length row.old) (m * factor ^ count) }
{
    times(row, 0, m);
    for _ in 0..count {
        times(row, factor, 0);
    }
}

// Multiplies a number by a factor and adds to it, from its lowest digit on. Digits above the array's end are left out.
fn times(row: &mut [u8], factor: u32, more: u32)
    requires factor_bound { factor ≤ 10 }
    requires more_bound { more < 0x100_0000 }
    ensures { row.new ≡ figures (length row.old) (value_of row.old * factor + more) }
{
    let mut carry = more;
    for digit in row.iter_mut() {
        let sum = u32::from(*digit) * factor + carry;
        *digit = (sum % 10) as u8;
        carry = sum / 10;
    }
}

// Puts a number over 10 ^ k by its digits, of which 39 stand before the point.
fn put_scaled(buffer: &mut [u8], at: usize, row: &[u8], k: usize) -> usize
    requires { length row.now ≡ k + 39 }
    ensures { (n : ℕ) → row.now ≡ figures (k + 39) n → n < 10 ^ (k + 39) → Put buffer.old at (scaled_text k n) buffer.new result }
{
    let end = k + whole_count(&row[k..]);
    let point = put_row(buffer, at, &row[k..end]);
    let first = text::put_byte(buffer, point, b'.');
    put_places(buffer, first, &row[..k])
}

// How many digits a whole number has: one at least.
fn whole_count(row: &[u8]) -> usize
    requires { 1 ≤ length row.now }
    ensures within { result ≤ length row.now }
    ensures text { (n : ℕ) → row.now ≡ figures (length row.now) n → n < 10 ^ length row.now
        → decimal_in (length row.now - 1) n ≡ glyphs (take result row.now) }
{
    for i in (1..row.len()).rev() {
        if row[i] != 0 {
            return i + 1;
        }
    }
    1
}

// Puts the digits after a point, without the zeros at their end.
fn put_places(buffer: &mut [u8], at: usize, row: &[u8]) -> usize
    ensures { Put buffer.old at (trimmed row.now) buffer.new result }
{
    let zeros = zeros_of(row);
    if zeros == row.len() {
        return text::put_byte(buffer, at, b'0');
    }
    put_row(buffer, at, &row[zeros..])
}

// How many of the lowest digits are 0.
fn zeros_of(row: &[u8]) -> usize
    ensures within { result ≤ length row.now }
    ensures zeros { result ≡ length row.now → trimmed row.now ≡ 48 ∷ [] }
    ensures digits { result < length row.now → trimmed row.now ≡ glyphs (drop result row.now) }
{
    for (i, digit) in row.iter().enumerate() {
        if *digit != 0 {
            return i;
        }
    }
    row.len()
}

// Puts digits, the highest first.
fn put_row(buffer: &mut [u8], at: usize, row: &[u8]) -> usize
    ensures { Put buffer.old at (glyphs row.now) buffer.new result }
{
    let mut next = at;
    for i in (0..row.len()).rev() {
        next = text::put_byte(buffer, next, text::digit(u32::from(row[i])));
    }
    next
}
