// A column's payload, read in one pass: whether its numbers are allowed (18) and as many as the header says (19), and whether its results
// are exact in single precision. A run of any length costs one turn, so that time is linear in the bytes.
#![tactic(auto)]

ghost use Rattle.std.specs.Prelude.{◌≡◌, Ok, Err, ◌+◌, ◌*◌, ◌/◌, ◌<◌, ◌≤◌, true, false, not, ◌&&◌, ◌||◌, length, pos, if◌then◌else◌, ◌==◌, nat_le};
ghost use Rattle.std.specs.Int.{w8};
ghost use Rattle.std.proofs.Common.{to_z};
ghost use Rattle.refusal.specs.Table.{length_differs};
ghost use Rattle.refusal.specs.Outcome.{number_of, numbered};
ghost use Rattle.steps.specs.Delta.{advance, plus_times, after_run};
ghost use Rattle.steps.specs.Width.{size_of};
ghost use Rattle.steps.specs.Packing.{is_limit};
ghost use Rattle.steps.specs.Payload.{read_in, held_in};
ghost use Rattle.columns.specs.Table.{elements};
ghost use Rattle.payloads.specs.Exact.{exact};
ghost use Rattle.payloads.specs.Results.{ResultsJudged};
ghost use Rattle.payloads.specs.Scan.{scan_of, judges_exact, refusal_of};
ghost use Rattle.payloads.specs.Limits.{packed_size, limit_at, limits_in, ends_at_limit, RowsWithin, most_limits, exact_limits, block_row};
ghost use Rattle.payloads.specs.Blocks.{count_in};
ghost use Rattle.payloads.specs.Items.{item_at, outcome_refusal};

use refusal::Refusal;
use steps::{Form, Range, Size, Turn};

// The largest whole number up to which all are exact in single precision.
pub const EXACT_LIMIT: i32 = 16_777_216;

// What stands at a place: a value, how many times it stands there, and where the rest starts; what is not allowed; or nothing more. An enum,
// since these are three.
#[derive(Clone, Copy)]
pub enum Item {
    Run(i32, usize, usize),
    Wrong,
    End,
}

// Scans a payload that should have `length` results: whether they are of a form that is judged, and exact; or the refusal. Names have `size`
// bytes each; other forms have no use for it.
pub fn scan(
    payload: &[u8],
    form: Form,
    size: usize,
    delta: bool,
    length: usize,
) -> Result<bool, Refusal>
    ensures { numbered result ≡ scan_of form delta (elements form length size) (held_in form size payload.now) }
{
    match form {
        Form::Plain(width) => scan_plain(payload, width, delta, length),
        Form::Packed(Size::One) => scan_totals(payload, false, delta, length),
        Form::Packed(Size::Two) => scan_totals(payload, true, delta, length),
        Form::Packed(Size::Four) => scan_packed(payload, Size::Four, delta, length),
        Form::Runs(range) => scan_ranged(payload, range, delta, length),
        Form::Names => scan_names(payload, size, length),
    }
}

// The refusal of a payload that should have `length` results, where it has one. Names have `size` bytes each; other forms have no use for it.
// Calls get the part that is all of the payload: a slice that is handed on as it stands is copied through memory first, for every form.
pub fn refusal_of(payload: &[u8], form: Form, size: usize, length: usize) -> Result<(), Refusal>
    ensures { number_of result ≡ refusal_of (elements form length size) (held_in form size payload.now) }
{
    match form {
        Form::Packed(Size::One) => count_packed(&payload[0..], false, length),
        Form::Packed(Size::Two) => count_packed(&payload[0..], true, length),
        Form::Packed(Size::Four) => refusal_in(scan_packed(
            &payload[0..],
            Size::Four,
            false,
            length,
        )),
        Form::Runs(range) => runs_refusal(payload, range, length),
        Form::Plain(width) => refusal_in(scan_plain(payload, width, false, length)),
        Form::Names => names_refusal(&payload[0..], size, length),
    }
}

// Whether a number is exact in single precision.
pub fn is_exact(number: i32) -> bool
    ensures { result ≡ exact number }
{
    -EXACT_LIMIT <= number && number <= EXACT_LIMIT
}

// The result after `sum`, by a value.
pub fn next_result(sum: i32, value: i32, delta: bool) -> i32
    ensures { result ≡ advance delta sum value }
{
    if delta {
        steps::add_delta(sum, value)
    } else {
        value
    }
}

// The result after `count` values, where `sum` was the one before.
pub fn after_run(sum: i32, value: i32, count: usize, delta: bool) -> i32
    ensures { result ≡ after_run delta sum value count }
{
    if delta {
        add_times(sum, value, count)
    } else {
        value
    }
}

// sum + count * value, modulo 2^32 into the signed range.
fn add_times(sum: i32, value: i32, count: usize) -> i32
    ensures { result ≡ plus_times sum value count }
{
    let a = u64::from(sum.cast_unsigned());
    let d = u64::from(value.cast_unsigned());
    let k = (count % 4294967296) as u64;
    (((a + k * d) % 4294967296) as u32).cast_signed()
}

// The item at a place of a payload.
pub fn item_at(payload: &[u8], at: usize, form: Form) -> Item
    ensures { result ≡ item_at form payload.now at }
{
    if payload.len() <= at {
        return Item::End;
    }
    match form {
        Form::Plain(size) => plain_item(payload, at, size),
        Form::Packed(size) => packed_item(payload, at, size),
        Form::Runs(range) => run_item(payload, at, range),
        Form::Names => name_item(payload, at),
    }
}

// Scans plain numbers: their count is the payload's size.
fn scan_plain(payload: &[u8], size: Size, delta: bool, length: usize) -> Result<bool, Refusal>
    ensures { numbered result ≡ scan_of (Form.Plain size) delta length (read_in (Form.Plain size) payload.now) }
{
    let k = steps::bytes(size);
    if payload.len() / k != length {
        return Err(Refusal::LengthDiffers);
    }
    Ok(judges_exact(Form::Plain(size), delta))
}

// Scans names, which are never judged to be exact.
fn scan_names(payload: &[u8], size: usize, length: usize) -> Result<bool, Refusal>
    ensures { numbered result ≡ scan_of Form.Names false (elements Form.Names length size) (held_in Form.Names size payload.now) }
{
    names_refusal(payload, size, length)?;
    Ok(false)
}

// Scans packed numbers, number by number. A `while`, since the place moves by a number's size.
fn scan_packed(payload: &[u8], size: Size, delta: bool, length: usize) -> Result<bool, Refusal>
    ensures { numbered result ≡ scan_of (Form.Packed size) delta length (read_in (Form.Packed size) payload.now) }
{
    let k = steps::bytes(size);
    let mut i: usize = 0;
    let mut part: i32 = 0;
    let mut begun = false;
    let mut count: usize = 0;
    let mut sum: i32 = 0;
    let mut exact = true;
    while k <= payload.len() - i {
        let number = steps::number_at(payload, i, size);
        i += k;
        match steps::unpack_one(part, number, size) {
            Turn::More(s) => {
                part = s;
                begun = true;
            }
            Turn::Done(s) => {
                sum = next_result(sum, s, delta);
                exact &= is_exact(sum);
                count += 1;
                part = 0;
                begun = false;
            }
            Turn::Wrong => {
                return Err(Refusal::NumberNotAllowed);
            }
        }
    }
    if begun {
        return Err(Refusal::NumberNotAllowed);
    }
    if count != length {
        return Err(Refusal::LengthDiffers);
    }
    Ok(exact)
}

// Scans packed numbers of one or two bytes: their refusal first, and then whether their results are exact, as all are without delta where the
// limits stand in short rows. Each size is a constant there, so that it has a loop of its own.
fn scan_totals(payload: &[u8], two: bool, delta: bool, length: usize) -> Result<bool, Refusal>
    ensures { numbered result ≡ scan_of (Form.Packed (packed_size two)) delta length (read_in (Form.Packed (packed_size two)) payload.now) }
{
    count_packed(payload, two, length)?;
    if !delta && has_short_rows(payload, two, length) {
        return Ok(true);
    }
    if two {
        return Ok(are_exact(payload, true, delta));
    }
    Ok(are_exact(payload, false, delta))
}

// Whether it is known that each result without delta is exact: there are few limits, or none of them stand in a long row. A number that is no
// limit ends a result, so the limits are the numbers less the results.
fn has_short_rows(payload: &[u8], two: bool, length: usize) -> bool
    ensures { result ≡ true → 0 ≡ refusal_of length (read_in (Form.Packed (packed_size two)) payload.now) → ResultsJudged (packed_size two) false payload.now true }
{
    let count = count_of(payload.len(), two);
    count.saturating_sub(length) <= exact_limits(two) || !has_row(payload, two, count)
}

// Whether the results of packed numbers are exact, by one total: of the result that has begun, and with delta of those before it too. A
// `while`, since the place moves by a number's size; `|`, since it has no branch.
fn are_exact(payload: &[u8], two: bool, delta: bool) -> bool
    ensures { ResultsJudged (packed_size two) delta payload.now result }
{
    let size = packed_size(two);
    let k = steps::bytes(size);
    let mut i: usize = 0;
    let mut total: i32 = 0;
    let mut exact = true;
    while k <= payload.len() - i {
        let number = steps::number_at(payload, i, size);
        i += k;
        let sum = steps::add_delta(total, number);
        let limit = steps::is_limit(number, size);
        exact &= limit | is_exact(sum);
        total = total_after(sum, limit, delta);
    }
    exact
}

// What a scan refuses, without what it says of results that it does not refuse.
fn refusal_in(scanned: Result<bool, Refusal>) -> Result<(), Refusal>
    ensures { number_of result ≡ outcome_refusal (numbered scanned) }
{
    scanned?;
    Ok(())
}

// The refusal of a payload of `length` names of a size each, in one pass.
fn names_refusal(payload: &[u8], size: usize, length: usize) -> Result<(), Refusal>
    ensures { number_of result ≡ refusal_of (elements Form.Names length size) (held_in Form.Names size payload.now) }
{
    if !steps::are_names(payload, size) {
        return Err(Refusal::NumberNotAllowed);
    }
    if !is_product(payload.len(), length, size) {
        return Err(Refusal::LengthDiffers);
    }
    Ok(())
}

// Whether a length is n times a size; the product itself may be too large.
fn is_product(length: usize, n: usize, size: usize) -> bool
    ensures { result ≡ (length == n * size) }
{
    if size == 0 {
        return length == 0;
    }
    length % size == 0 && length / size == n
}

// The refusal of packed numbers of one or two bytes.
fn count_packed(payload: &[u8], two: bool, length: usize) -> Result<(), Refusal>
    ensures { number_of result ≡ refusal_of length (read_in (Form.Packed (packed_size two)) payload.now) }
{
    let count = count_of(payload.len(), two);
    let limits = count_limits(payload, two, count);
    if !sums_fit(payload, two, count, limits) {
        return refusal_in(scan_packed(payload, packed_size(two), false, length));
    }
    if ends_at_limit(payload, two, count) {
        return Err(Refusal::NumberNotAllowed);
    }
    if count - limits != length {
        return Err(Refusal::LengthDiffers);
    }
    Ok(())
}

// Whether it is known that no sum leaves 32 bits: there are few limits, or none of them stand in a long row.
fn sums_fit(payload: &[u8], two: bool, count: usize, limits: usize) -> bool
    requires { (size_of (packed_size two) * count ≤ length payload.now) × (limits ≡ limits_in (packed_size two) payload.now 0 count) }
    ensures { result ≡ true → RowsWithin (most_limits two) two payload.now count }
{
    limits <= most_limits(two) || !has_row(payload, two, count)
}

// Whether one of the blocks is all limits. If none is, a row of limits is shorter than two blocks. A `while`, since it goes by blocks.
fn has_row(payload: &[u8], two: bool, count: usize) -> bool
    requires { size_of (packed_size two) * count ≤ length payload.now }
    ensures { result ≡ false → RowsWithin block_row two payload.now count }
{
    let mut i: usize = 0;
    while 256 <= count - i {
        if limits_in(payload, two, place_of(two, i), 256) == 256 {
            return true;
        }
        i += 256;
    }
    false
}

// Whether the last of `count` numbers is a limit.
fn ends_at_limit(payload: &[u8], two: bool, count: usize) -> bool
    requires { size_of (packed_size two) * count ≤ length payload.now }
    ensures { result ≡ ends_at_limit (packed_size two) payload.now count }
{
    if count == 0 {
        return false;
    }
    let size = packed_size(two);
    steps::is_limit(
        steps::number_at(payload, place_of(two, count - 1), size),
        size,
    )
}

// How many packed numbers of one or two bytes are limits.
pub fn limits_of(packed: &[u8], two: bool) -> usize
    ensures { result ≡ limits_in (packed_size two) packed.now 0 (count_in (packed_size two) packed.now) }
{
    count_limits(packed, two, count_of(packed.len(), two))
}

// How many of `count` numbers are limits: in blocks, and in the rest. A `while`, since the place after the last block is asked for.
fn count_limits(payload: &[u8], two: bool, count: usize) -> usize
    requires { size_of (packed_size two) * count ≤ length payload.now }
    ensures { result ≡ limits_in (packed_size two) payload.now 0 count }
{
    let mut i: usize = 0;
    let mut limits: usize = 0;
    while 256 <= count - i {
        limits += limits_in(payload, two, place_of(two, i), 256) as usize;
        i += 256;
    }
    limits + limits_in(payload, two, place_of(two, i), count - i) as usize
}

// How many of so few numbers are limits, by a loop of their size's own.
fn limits_in(payload: &[u8], two: bool, at: usize, count: usize) -> u16
    requires { (at + size_of (packed_size two) * count ≤ length payload.now) × (count ≤ 256) }
    ensures { result ≡ limits_in (packed_size two) payload.now at count }
{
    if two {
        return add_limits(payload, true, at, count);
    }
    add_limits(payload, false, at, count)
}

// The same, number by number. The processor counts many at a time, in 16 bits each.
fn add_limits(payload: &[u8], two: bool, at: usize, count: usize) -> u16
    requires { (at + size_of (packed_size two) * count ≤ length payload.now) × (count ≤ 256) }
    ensures { result ≡ limits_in (packed_size two) payload.now at count }
{
    let mut limits: u16 = 0;
    for k in 0..count {
        limits += limit_at(payload, two, at + place_of(two, k));
    }
    limits
}

// 1 where a number is a limit, else 0.
fn limit_at(payload: &[u8], two: bool, at: usize) -> u16
    requires { at + size_of (packed_size two) ≤ length payload.now }
    ensures { result ≡ limit_at (packed_size two) payload.now at }
{
    if two {
        return two_at_limit(payload, at);
    }
    byte_at_limit(payload[at])
}

// 1 where a number of two bytes is a limit, else 0. Its bytes are taken as the processor loads them, the lower first; the sum is there
// because only bits with a single use are loaded at once. Here and for a byte the two tests stand apart, since the loop that counts
// many numbers at once was measured in this shape.
fn two_at_limit(payload: &[u8], at: usize) -> u16
    requires { at + 2 ≤ length payload.now }
    ensures { result ≡ limit_at Size.Two payload.now at }
{
    let bits = u16::from(payload[at + 1]) * 256 + u16::from(payload[at]);
    let moved = bits.wrapping_add(129);
    if moved == 0 {
        return 1;
    }
    if moved == 257 { 1 } else { 0 }
}

// 1 where a byte is a limit, else 0.
fn byte_at_limit(bits: u8) -> u16
    ensures { result ≡ (if is_limit 127 128 (to_z w8 bits) then 1 else 0) }
{
    if bits == 127 {
        return 1;
    }
    if bits == 128 { 1 } else { 0 }
}

// The size of packed numbers: two bytes, or one. A flag and not a `Size` says which, since numbers of four bytes take another way.
pub fn packed_size(two: bool) -> Size
    ensures { result ≡ packed_size two }
{
    if two { Size::Two } else { Size::One }
}

// How many packed numbers so many bytes hold.
fn count_of(bytes: usize, two: bool) -> usize
    ensures { result ≡ bytes / size_of (packed_size two) }
{
    if two { bytes / 2 } else { bytes }
}

// Where the packed number at an index stands.
fn place_of(two: bool, index: usize) -> usize
    requires { size_of (packed_size two) * index < 18446744073709551616 }
    ensures { result ≡ size_of (packed_size two) * index }
{
    if two { 2 * index } else { index }
}

// So many limits of a size, and a number after them, cannot lead a sum out of 32 bits.
fn most_limits(two: bool) -> usize
    ensures { result ≡ most_limits two }
{
    if two { 65534 } else { 16777214 }
}

// So many limits of a size, and a number after them, have a sum that is exact in single precision.
fn exact_limits(two: bool) -> usize
    ensures { result ≡ exact_limits two }
{
    if two { 510 } else { 131070 }
}

// The total after a number: after a limit, and with delta, it goes on. `|`, since it has no branch.
pub fn total_after(total: i32, limit: bool, delta: bool) -> i32
    ensures { result ≡ (if limit || delta then total else pos 0) }
{
    if limit | delta { total } else { 0 }
}

// How many results end at a number: none at a limit.
pub fn ended_at(limit: bool) -> usize
    ensures { result ≡ (if limit then 0 else 1) }
{
    if limit { 0 } else { 1 }
}

// Whether a run is short, and four results are left to be written: so many are then written for it.
pub fn is_short(count: usize, left: usize) -> bool
    ensures { result ≡ (nat_le count 4 && nat_le 4 left) }
{
    count <= 4 && 4 <= left
}

// Scans runs, by a loop of their range's own.
fn scan_ranged(payload: &[u8], range: Range, delta: bool, length: usize) -> Result<bool, Refusal>
    ensures { numbered result ≡ scan_of (Form.Runs range) delta length (read_in (Form.Runs range) payload.now) }
{
    match range {
        Range::Int8 => scan_runs(payload, Range::Int8, delta, length),
        Range::Int16 => scan_runs(payload, Range::Int16, delta, length),
        Range::Int32 => scan_runs(payload, Range::Int32, delta, length),
        Range::Ascii => scan_runs(payload, Range::Ascii, delta, length),
    }
}

// Scans runs. A `loop`, since each item says where the next stands.
fn scan_runs(payload: &[u8], range: Range, delta: bool, length: usize) -> Result<bool, Refusal>
    ensures { numbered result ≡ scan_of (Form.Runs range) delta length (read_in (Form.Runs range) payload.now) }
{
    let mut at: usize = 0;
    let mut left = length;
    let mut over = false;
    let mut exact = !delta;
    loop {
        match run_item(payload, at, range) {
            Item::Run(value, count, next) => {
                over |= left < count;
                left = left.saturating_sub(count);
                exact &= is_exact(value);
                at = next;
            }
            Item::Wrong => {
                return Err(Refusal::NumberNotAllowed);
            }
            Item::End => {
                return judged(over, left, exact);
            }
        }
    }
}

// The refusal of runs, by a loop of their range's own.
fn runs_refusal(payload: &[u8], range: Range, length: usize) -> Result<(), Refusal>
    ensures { number_of result ≡ refusal_of length (read_in (Form.Runs range) payload.now) }
{
    match range {
        Range::Int8 => count_runs(payload, Range::Int8, length),
        Range::Int16 => count_runs(payload, Range::Int16, length),
        Range::Int32 => count_runs(payload, Range::Int32, length),
        Range::Ascii => count_runs(payload, Range::Ascii, length),
    }
}

// The refusal of runs: a scan that says nothing of the results, and so has less to do for each run.
fn count_runs(payload: &[u8], range: Range, length: usize) -> Result<(), Refusal>
    ensures { number_of result ≡ refusal_of length (read_in (Form.Runs range) payload.now) }
{
    let mut at: usize = 0;
    let mut left = length;
    let mut over = false;
    loop {
        match run_item(payload, at, range) {
            Item::Run(_, count, next) => {
                over |= left < count;
                left = left.saturating_sub(count);
                at = next;
            }
            Item::Wrong => return Err(Refusal::NumberNotAllowed),
            Item::End => return refusal_in(judged(over, left, false)),
        }
    }
}

// What is left of the results and whether there were too many, at the payload's end.
fn judged(over: bool, left: usize, exact: bool) -> Result<bool, Refusal>
    ensures { numbered result ≡ (if over || not (left == 0) then Err length_differs else Ok exact) }
{
    if over || left != 0 {
        return Err(Refusal::LengthDiffers);
    }
    Ok(exact)
}

// The forms whose results are judged to be exact.
fn judges_exact(form: Form, delta: bool) -> bool
    ensures { result ≡ judges_exact form delta }
{
    match form {
        Form::Plain(Size::One | Size::Two) | Form::Runs(_) => !delta,
        Form::Plain(Size::Four) | Form::Names => false,
        Form::Packed(_) => true,
    }
}

// One plain number.
fn plain_item(payload: &[u8], at: usize, size: Size) -> Item
    requires { at ≤ length payload.now }
    ensures { result ≡ item_at (Form.Plain size) payload.now at }
{
    let k = steps::bytes(size);
    if payload.len() - at < k {
        return Item::End;
    }
    Item::Run(steps::number_at(payload, at, size), 1, at + k)
}

// One byte of a name.
fn name_item(payload: &[u8], at: usize) -> Item
    requires { at < length payload.now }
    ensures { result ≡ item_at Form.Names payload.now at }
{
    let value = steps::number_at(payload, at, Size::One);
    if steps::is_in(value, Range::Ascii) {
        return Item::Run(value, 1, at + 1);
    }
    Item::Wrong
}

// One packed result. A `while`, since the place moves by a number's size.
fn packed_item(payload: &[u8], at: usize, size: Size) -> Item
    requires { at ≤ length payload.now }
    ensures { result ≡ item_at (Form.Packed size) payload.now at }
{
    let k = steps::bytes(size);
    let mut i = at;
    let mut sum: i32 = 0;
    while k <= payload.len() - i {
        let number = steps::number_at(payload, i, size);
        let j = i + k;
        match steps::unpack_one(sum, number, size) {
            Turn::More(s) => {
                sum = s;
            }
            Turn::Done(s) => {
                return Item::Run(s, 1, j);
            }
            Turn::Wrong => {
                return Item::Wrong;
            }
        }
        i = j;
    }
    if at < i {
        return Item::Wrong;
    }
    Item::End
}

// One run. Both numbers are read from the part that begins with them, so that room is tested once.
fn run_item(payload: &[u8], at: usize, range: Range) -> Item
    requires { at ≤ length payload.now }
    ensures { result ≡ item_at (Form.Runs range) payload.now at }
{
    if payload.len() - at < 8 {
        return Item::End;
    }
    let run = &payload[at..];
    let value = numbers::read_i32(run, 0);
    let count = numbers::read_i32(run, 4);
    if count < 1 {
        return Item::Wrong;
    }
    if steps::is_in(value, range) {
        return Item::Run(value, count.cast_unsigned() as usize, at + 8);
    }
    Item::Wrong
}
