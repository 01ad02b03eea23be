// A column of a named field judged all at once, with nothing copied: its refusal and its length, whether its cells lie between two
// numbers, and sums over tables by its cells.
ghost use Rattle.std.specs.Prelude.{◌≡◌, ℕ, ◌+◌, ◌-◌, ◌*◌, ◌<◌, ◌≤◌, true, false, ◌&&◌, replicate, nat_le};
ghost use Rattle.std.specs.Int.{w32};
ghost use Rattle.std.proofs.Common.{of_z};
ghost use Rattle.refusal.specs.Outcome.{numbered};
ghost use Rattle.numbers.specs.Ranges.{between, all_between};
ghost use Rattle.steps.specs.Delta.{results_from, last_from};
ghost use Rattle.steps.specs.Payload.{read_in, held_in};
ghost use Rattle.columns.specs.Table.{elements, length_limit};
ghost use Rattle.columns.specs.Decode.{decode};
ghost use Rattle.file_columns.specs.Field.{other_size, other_names, field_column, checked_of};
ghost use Rattle.file_columns.specs.Cells.{cells_pass, sums_of};
ghost use Rattle.file_columns.specs.Passing.{held_pass, Reaches, ahead_of, held_sums, to_come, sums_in, Hold, Sound, Adds, AddsRun};

use columns::{Codec, HEADER_SIZE, Kind, Parameter, Wanted};
use payloads::Item;
use refusal::Refusal;
use steps::{Form, Size};

// The most group types, and so the rows of a table over them.
pub const TYPE_LIMIT: usize = 4_096;

// The bytes of a name in a named field.
pub const FIELD_NAME_SIZE: u32 = 4;

// The length and the parameter of a column that decodes.
#[derive(Clone, Copy)]
pub struct Checked {
    pub length: usize,
    pub parameter: u32,
}

// The sums of two tables over cells that are all indices of them.
#[derive(Clone, Copy)]
pub struct Sums {
    pub atoms: u64,
    pub bonds: u64,
}

// The cells to come, the sums over those before them, and the last of these.
#[derive(Clone, Copy)]
struct Tally {
    left: usize,
    atoms: u64,
    bonds: u64,
    last: i32,
}

// The length and the parameter of a column of a named field, where names have 4 bytes; or its refusal, 14 to 19.
pub fn check(column: &[u8], wanted: Wanted) -> Result<Checked, Refusal>
    ensures { numbered result ≡ checked_of (field_column wanted column.now) }
{
    if has_other_names(column, wanted) {
        return Err(Refusal::HeaderRange);
    }
    let header = columns::read_header(column, wanted)?;
    payloads::refusal_of(
        &column[HEADER_SIZE..],
        header.form,
        header.parameter as usize,
        header.length,
    )?;
    Ok(Checked {
        length: header.length,
        parameter: header.parameter,
    })
}

// Whether a column of the kind that is wanted decodes, and all its cells lie between two numbers.
pub fn all_between(column: &[u8], wanted: Wanted, low: i32, high: i32) -> bool
    ensures { result ≡ cells_pass (between low high) (decode wanted column.now) }
{
    match columns::read_header(column, wanted) {
        Err(_) => false,
        Ok(header) => results_between(
            &column[HEADER_SIZE..],
            header.form,
            header.parameter as usize,
            header.delta,
            header.length,
            low,
            high,
        ),
    }
}

// The sums of the entries of two tables over the cells of an int32 column, where it decodes, the tables have `types` entries and all its cells
// are indices of these; else none.
pub fn totals(column: &[u8], types: usize, atoms: &[u32], bonds: &[u32]) -> Option<Sums>
    ensures { result ≡ sums_of types atoms.now bonds.now (decode (Wanted.Only Kind.Int32) column.now) }
{
    if !hold(types, atoms.len(), bonds.len()) {
        return None;
    }
    let header = columns::read_header(column, Wanted::Only(Kind::Int32)).ok()?;
    sums_of(
        &column[HEADER_SIZE..],
        header.form,
        header.delta,
        header.length,
        types,
        atoms,
        bonds,
    )
}

// Whether two tables have so many entries.
fn hold(types: usize, atoms: usize, bonds: usize) -> bool
    ensures { result ≡ (nat_le types atoms && nat_le types bonds) }
{
    types <= atoms && types <= bonds
}

// Whether a column has names of another size than a named field has.
fn has_other_names(column: &[u8], wanted: Wanted) -> bool
    ensures { result ≡ other_names wanted column.now }
{
    if column.len() < HEADER_SIZE {
        return false;
    }
    let codec = columns::codec_of(numbers::read_u32(column, 0));
    is_other_size(codec, numbers::read_u32(column, 8), wanted)
}

// Whether a codec has names, and the parameter is another size than a named field has.
fn is_other_size(codec: Option<Codec>, parameter: u32, wanted: Wanted) -> bool
    ensures { result ≡ other_size wanted codec parameter }
{
    let Some(codec) = codec else {
        return false;
    };
    columns::is_wanted(wanted, codec.kind)
        && match codec.parameter {
            Parameter::NameSize => parameter != FIELD_NAME_SIZE,
            _ => false,
        }
}

// Whether a payload holds n results that all lie between two numbers, by a loop of its form's own; names have `size` bytes each.
fn results_between(
    payload: &[u8],
    form: Form,
    size: usize,
    delta: bool,
    n: usize,
    low: i32,
    high: i32,
) -> bool
    ensures { result ≡ held_pass (between low high) (elements form n size) delta (held_in form size payload.now) }
{
    match form {
        // An arm for each size, so that the compiler makes a loop for each.
        Form::Plain(Size::One) if !delta => plain_between(payload, Size::One, n, low, high),
        Form::Plain(Size::Two) if !delta => plain_between(payload, Size::Two, n, low, high),
        Form::Plain(Size::Four) if !delta => plain_between(payload, Size::Four, n, low, high),
        Form::Names => names_between(payload, size, delta, n, low, high),
        _ => items_between(payload, form, delta, n, low, high),
    }
}

// Whether a payload holds n plain numbers that all lie between two numbers.
fn plain_between(payload: &[u8], size: Size, n: usize, low: i32, high: i32) -> bool
    ensures { result ≡ held_pass (between low high) n false (read_in (Form.Plain size) payload.now) }
{
    let k = steps::bytes(size);
    let mut at: usize = 0;
    let mut fine = payload.len() / k == n;
    // A `while`, since the place goes on by a number's size; `&`, since it has no branch, so that several numbers are tested at once.
    while k <= payload.len() - at {
        let number = steps::number_at(payload, at, size);
        fine &= numbers::is_between(number, low, high);
        at += k;
    }
    fine
}

// Whether a payload holds n names of a size each whose bytes all lie between two numbers.
fn names_between(payload: &[u8], size: usize, delta: bool, n: usize, low: i32, high: i32) -> bool
    ensures { result ≡ held_pass (between low high) (elements Form.Names n size) delta (held_in Form.Names size payload.now) }
{
    payloads::refusal_of(payload, Form::Names, size, n).is_ok()
        && items_between(payload, Form::Names, delta, payload.len(), low, high)
}

// Whether n results are read of a payload, item by item, that all lie between two numbers. `left` are still to come.
fn items_between(payload: &[u8], form: Form, delta: bool, n: usize, low: i32, high: i32) -> bool
    ensures { result ≡ held_pass (between low high) n delta (read_in form payload.now) }
{
    let mut at: usize = 0;
    let mut last: i32 = 0;
    let mut left = n;
    loop {
        match payloads::item_at(payload, at, form) {
            Item::Run(value, count, next) => {
                if left < count {
                    return false;
                }
                let Some(x) = run_between(last, value, count, delta, low, high) else {
                    return false;
                };
                last = x;
                left -= count;
                at = next;
            }
            Item::Wrong => return false,
            Item::End => return left == 0,
        }
    }
}

// Whether the results of a run lie between two numbers, where `sum` is the result before it.
fn run_between(sum: i32, value: i32, count: usize, delta: bool, low: i32, high: i32) -> Option<i32>
    requires { 1 ≤ count }
    ensures { Reaches (between low high) (results_from delta sum (replicate count value)) (last_from delta sum (replicate count value)) result }
{
    if delta {
        return sums_between(sum, value, count, low, high);
    }
    same_between(value, low, high)
}

// Whether a result that stands there over and over lies between two numbers.
fn same_between(res: i32, low: i32, high: i32) -> Option<i32>
    ensures { (k : ℕ) → 1 ≤ k → Reaches (between low high) (replicate k res) res result }
{
    if numbers::is_between(res, low, high) {
        return Some(res);
    }
    None
}

// Whether the sums of a run lie between two numbers: the first and those that are left after it.
fn sums_between(sum: i32, value: i32, count: usize, low: i32, high: i32) -> Option<i32>
    requires { 1 ≤ count }
    ensures { Reaches (between low high) (results_from true sum (replicate count value)) (last_from true sum (replicate count value)) result }
{
    let first = steps::add_delta(sum, value);
    if !numbers::is_between(first, low, high) {
        return None;
    }
    if !stays_between(first, value, count - 1, low, high) {
        return None;
    }
    Some(payloads::after_run(sum, value, count, true))
}

// Whether `count` sums after one that lies between two numbers do too. A step, upwards or downwards, that is no longer than the way around
// outside cannot pass over it, so that the room on the way inside decides.
fn stays_between(sum: i32, value: i32, count: usize, low: i32, high: i32) -> bool
    requires { between low high sum ≡ true }
    ensures { result ≡ all_between low high (results_from true sum (replicate count value)) }
{
    let above = ahead(sum, high);
    let below = ahead(low, sum);
    let outside = 4294967295 - above - below;
    let up = value.cast_unsigned() as usize;
    let down = 4294967296 - up;
    if up <= outside {
        return has_room(count, up, above);
    }
    if down <= outside {
        return has_room(count, down, below);
    }
    if up == down {
        return turns_between(sum, value, count, low, high);
    }
    each_between(sum, value, count, low, high)
}

// How far a number is ahead of another, upwards and modulo 2^32.
fn ahead(from: i32, to: i32) -> usize
    ensures { result ≡ ahead_of from to }
{
    to.cast_unsigned().wrapping_sub(from.cast_unsigned()) as usize
}

// Whether there is room for so many steps.
fn has_room(count: usize, step: usize, room: usize) -> bool
    requires { (step ≤ 4294967296) × (room < 4294967296) }
    ensures { result ≡ nat_le (count * step) room }
{
    step == 0 || count <= room && count * step <= room
}

// Whether sums by steps of 2^31, which are two numbers by turns, lie between two numbers, where the one before them does.
fn turns_between(sum: i32, value: i32, count: usize, low: i32, high: i32) -> bool
    requires { (of_z w32 value ≡ 2147483648) × (between low high sum ≡ true) }
    ensures { result ≡ all_between low high (results_from true sum (replicate count value)) }
{
    count == 0 || numbers::is_between(steps::add_delta(sum, value), low, high)
}

// Whether the sums of a run lie between two numbers, one after the other.
fn each_between(sum: i32, value: i32, count: usize, low: i32, high: i32) -> bool
    ensures { result ≡ all_between low high (results_from true sum (replicate count value)) }
{
    let mut x = sum;
    for _ in 0..count {
        x = steps::add_delta(x, value);
        if !numbers::is_between(x, low, high) {
            return false;
        }
    }
    true
}

// The tally before the first of n cells.
fn to_come(n: usize) -> Tally
    ensures { result ≡ to_come n }
{
    Tally {
        left: n,
        atoms: 0,
        bonds: 0,
        last: 0,
    }
}

// The sums of a tally to which no cell is to come; none where one is.
fn sums_in(tally: Tally) -> Option<Sums>
    ensures { result ≡ sums_in tally }
{
    if tally.left != 0 {
        return None;
    }
    Some(Sums {
        atoms: tally.atoms,
        bonds: tally.bonds,
    })
}

// The sums over the n results of a payload; plain numbers have a loop of their own. It is not made part of its callers, so that its loops keep
// their sums in registers.
#[inline(never)]
fn sums_of(
    payload: &[u8],
    form: Form,
    delta: bool,
    n: usize,
    types: usize,
    atoms: &[u32],
    bonds: &[u32],
) -> Option<Sums>
    requires { Hold types atoms.now bonds.now × (n ≤ length_limit) }
    ensures { result ≡ held_sums types atoms.now bonds.now n delta (read_in form payload.now) }
{
    match form {
        // An arm for each size, so that the compiler makes a loop for each.
        Form::Plain(Size::One) if !delta => sum_plain(payload, Size::One, n, types, atoms, bonds),
        Form::Plain(Size::Two) if !delta => sum_plain(payload, Size::Two, n, types, atoms, bonds),
        Form::Plain(Size::Four) if !delta => sum_plain(payload, Size::Four, n, types, atoms, bonds),
        _ => sum_items(payload, form, delta, n, types, atoms, bonds),
    }
}

// The sums over n plain numbers.
fn sum_plain(
    payload: &[u8],
    size: Size,
    n: usize,
    types: usize,
    atoms: &[u32],
    bonds: &[u32],
) -> Option<Sums>
    requires { Hold types atoms.now bonds.now × (n ≤ length_limit) }
    ensures { result ≡ held_sums types atoms.now bonds.now n false (read_in (Form.Plain size) payload.now) }
{
    let k = steps::bytes(size);
    let mut at: usize = 0;
    let mut tally = to_come(n);
    // A `while`, since the place goes on by a number's size.
    while k <= payload.len() - at {
        let number = steps::number_at(payload, at, size);
        tally = add_cells(tally, number, 1, types, atoms, bonds)?;
        at += k;
    }
    sums_in(tally)
}

// The sums over n results, item by item.
#[inline(never)]
fn sum_items(
    payload: &[u8],
    form: Form,
    delta: bool,
    n: usize,
    types: usize,
    atoms: &[u32],
    bonds: &[u32],
) -> Option<Sums>
    requires { Hold types atoms.now bonds.now × (n ≤ length_limit) }
    ensures { result ≡ held_sums types atoms.now bonds.now n delta (read_in form payload.now) }
{
    let mut at: usize = 0;
    let mut tally = to_come(n);
    loop {
        match payloads::item_at(payload, at, form) {
            Item::Run(value, count, next) => {
                tally = add_run(tally, value, count, delta, types, atoms, bonds)?;
                at = next;
            }
            Item::Wrong => return None,
            Item::End => return sums_in(tally),
        }
    }
}

// The tally with a run more.
fn add_run(
    tally: Tally,
    value: i32,
    count: usize,
    delta: bool,
    types: usize,
    atoms: &[u32],
    bonds: &[u32],
) -> Option<Tally>
    requires { (1 ≤ count) × Hold types atoms.now bonds.now × Sound tally }
    ensures { AddsRun types atoms.now bonds.now tally delta value count result }
{
    if delta {
        if value == 0 {
            return add_cells(tally, tally.last, count, types, atoms, bonds);
        }
        return add_sums(tally, value, count, types, atoms, bonds);
    }
    add_cells(tally, value, count, types, atoms, bonds)
}

// The tally with a run of sums more, one after the other up to the first that is no index: each adds an entry of its own. Where the value is
// not 0 there are at most as many indices in a run as there are types.
fn add_sums(
    tally: Tally,
    value: i32,
    count: usize,
    types: usize,
    atoms: &[u32],
    bonds: &[u32],
) -> Option<Tally>
    requires { Hold types atoms.now bonds.now × Sound tally }
    ensures { AddsRun types atoms.now bonds.now tally true value count result }
{
    let mut t = tally;
    for _ in 0..count {
        let x = steps::add_delta(t.last, value);
        t = add_cells(t, x, 1, types, atoms, bonds)?;
    }
    Some(t)
}

// The tally with a cell more, so many times.
fn add_cells(
    tally: Tally,
    cell: i32,
    count: usize,
    types: usize,
    atoms: &[u32],
    bonds: &[u32],
) -> Option<Tally>
    requires { (1 ≤ count) × Hold types atoms.now bonds.now × Sound tally }
    ensures { Adds types atoms.now bonds.now tally (replicate count cell) cell result }
{
    if cell < 0 {
        return None;
    }
    let i = cell.cast_unsigned() as usize;
    if types <= i || tally.left < count {
        return None;
    }
    Some(Tally {
        left: tally.left - count,
        atoms: add_entry(tally.atoms, atoms[i], count, tally.left),
        bonds: add_entry(tally.bonds, bonds[i], count, tally.left),
        last: cell,
    })
}

// The sum over cells with an entry more, so many times, where so many cells are to come.
fn add_entry(sum: u64, entry: u32, count: usize, left: usize) -> u64
    requires { (count ≤ left) × (sum + left * 4294967295 ≤ length_limit * 4294967295) }
    ensures { (result ≡ sum + entry * count) × (result + (left - count) * 4294967295 ≤ length_limit * 4294967295) }
{
    sum + u64::from(entry) * count as u64
}
