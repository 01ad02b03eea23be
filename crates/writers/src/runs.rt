// The writers of runs, of numbers and of characters. Every call is total, and where it refuses it changes nothing.
ghost use Rattle.std.specs.Prelude.{◌≡◌, ◌+◌, ◌*◌, ◌%◌, ◌<◌, ◌≤◌, false, ◌++◌, map, length, pos, if◌then◌else◌, nat_eq, nat_le};
ghost use Rattle.numbers.specs.BigEndian.{bytes_of};
ghost use Rattle.steps.specs.Numbers.{bytes_for};
ghost use Rattle.steps.specs.Delta.{deltas_if};
ghost use Rattle.steps.specs.RunLength.{runs_of};
ghost use Rattle.refusal.specs.Outcome.{numbered};
ghost use Rattle.writers.specs.Placed.{over, placed_cells, laid_cells};
ghost use Rattle.writers.specs.Bits.{CellAfter, BegunIn};

use refusal::Refusal;
use steps::{Form, Range, Size};

// The payload of runs.
pub fn place_numbers(
    values: &[i32],
    range: Range,
    delta: bool,
    buffer: &mut [u8],
    at: usize,
) -> Result<usize, Refusal>
    ensures answer { numbered result ≡ placed_cells (Form.Runs range) 0 delta values.now (length buffer.old) at }
    ensures buffer { buffer.new ≡ laid_cells (Form.Runs range) 0 delta values.now buffer.old at }
{
    if !crate::all_in(values, range) {
        return Err(Refusal::NumberNotAllowed);
    }
    let n = count_numbers(values, delta);
    if !runs_fit(n, buffer.len(), at) {
        return Err(Refusal::BufferTooSmall);
    }
    write_numbers(values, delta, buffer, at);
    Ok(n * 8)
}

// The payload of runs of characters.
pub fn place_chars(values: &[u8], buffer: &mut [u8], at: usize) -> Result<usize, Refusal>
    ensures answer { numbered result ≡ placed_cells (Form.Runs Range.Ascii) 0 false (map pos values.now) (length buffer.old) at }
    ensures buffer { buffer.new ≡ laid_cells (Form.Runs Range.Ascii) 0 false (map pos values.now) buffer.old at }
{
    if !crate::all_ascii(values) {
        return Err(Refusal::NumberNotAllowed);
    }
    let n = count_chars(values);
    if !runs_fit(n, buffer.len(), at) {
        return Err(Refusal::BufferTooSmall);
    }
    write_chars(values, buffer, at);
    Ok(n * 8)
}

// How many cells a block has: few enough for their runs to be counted in 32 bits.
const BLOCK: usize = 65536;

// How many runs there are: one, one more if the second cell begins another, and one more for each later cell that does. The later ones are
// counted in blocks; `i` is two before the next cell to be counted.
fn count_numbers(values: &[i32], delta: bool) -> usize
    ensures { result * 2 ≡ length (runs_of (deltas_if delta values.now)) }
{
    if values.len() == 0 {
        return 0;
    }
    if values.len() == 1 {
        return 1;
    }
    let first = crate::delta_if(0, values[0], delta).cast_unsigned();
    let last = values.len() - 2;
    let mut n = begun(cell_after(values, delta, 0), first) as usize;
    let mut i: usize = 0;
    while BLOCK <= last - i {
        n += begun_in(values, delta, i, BLOCK) as usize;
        i += BLOCK;
    }
    n + begun_in(values, delta, i, last - i) as usize + 1
}

// How many of `count` cells begin a run; the first of them is the cell at `from` + 2. Each is compared with the one before it in memory, so that
// the processor compares several at once; 32 bits are enough for the count. A hot loop: it stays in the form that was measured.
fn begun_in(values: &[i32], delta: bool, from: usize, count: usize) -> u32
    requires { (from + count + 2 ≤ length values.now) × (count ≤ 65536) }
    ensures { BegunIn delta values.now from count result }
{
    let mut n: u32 = 0;
    let mut k: usize = 0;
    while k < count {
        let i = from + k;
        n += begun(
            cell_after(values, delta, i + 1),
            cell_after(values, delta, i),
        );
        k += 1;
    }
    n
}

// What a payload holds for the cell after a place, by its bits.
fn cell_after(values: &[i32], delta: bool, i: usize) -> u32
    requires { i + 1 < length values.now }
    ensures { CellAfter delta values.now i result }
{
    crate::delta_if(values[i], values[i + 1], delta).cast_unsigned()
}

// The runs from `start` on.
fn write_numbers(values: &[i32], delta: bool, buffer: &mut [u8], start: usize)
    requires { start + length (bytes_for Size.Four (runs_of (deltas_if delta values.now))) ≤ length buffer.old }
    ensures { buffer.new ≡ over buffer.old start (bytes_for Size.Four (runs_of (deltas_if delta values.now))) }
{
    if values.len() == 0 {
        return;
    }
    let mut before = values[0];
    let mut v = crate::delta_if(0, before, delta).cast_unsigned();
    let mut n: usize = 1;
    let mut at = start;
    // A `while`: after a `for` over the cells the two arms join before the next cell, and the proof did not close.
    let mut i: usize = 1;
    while i < values.len() {
        let x = values[i];
        let y = crate::delta_if(before, x, delta).cast_unsigned();
        before = x;
        i += 1;
        if y == v {
            n += 1;
        } else {
            put_run(buffer, at, v, n);
            at += 8;
            v = y;
            n = 1;
        }
    }
    put_run(buffer, at, v, n);
}

// How many runs of characters there are.
fn count_chars(values: &[u8]) -> usize
    ensures { result * 2 ≡ length (runs_of (map pos values.now)) }
{
    if values.len() == 0 {
        return 0;
    }
    let mut v = values[0] as u32;
    let mut n: usize = 1;
    for i in 1..values.len() {
        let x = values[i] as u32;
        n += begun(x, v) as usize;
        v = x;
    }
    n
}

// The runs of characters from `start` on.
fn write_chars(values: &[u8], buffer: &mut [u8], start: usize)
    requires { start + length (bytes_for Size.Four (runs_of (map pos values.now))) ≤ length buffer.old }
    ensures { buffer.new ≡ over buffer.old start (bytes_for Size.Four (runs_of (map pos values.now))) }
{
    if values.len() == 0 {
        return;
    }
    let mut v = values[0] as u32;
    let mut n: usize = 1;
    let mut at = start;
    // A `while` as in `write_numbers`.
    let mut i: usize = 1;
    while i < values.len() {
        let x = values[i] as u32;
        i += 1;
        if x == v {
            n += 1;
        } else {
            put_run(buffer, at, v, n);
            at += 8;
            v = x;
            n = 1;
        }
    }
    put_run(buffer, at, v, n);
}

// How many runs a cell begins after another.
fn begun(cell: u32, last: u32) -> u32
    ensures { (result ≡ (if nat_eq cell last then 0 else 1)) × (result ≤ 1) }
{
    if cell == last { 0 } else { 1 }
}

// Whether n runs from `at` on are inside a buffer.
fn runs_fit(n: usize, length: usize, at: usize) -> bool
    ensures { result ≡ nat_le (at + n * 8) length }
{
    at <= length && n <= (length - at) / 8
}

// One run: its value and its count.
fn put_run(buffer: &mut [u8], at: usize, bits: u32, count: usize)
    requires { at + 8 ≤ length buffer.old }
    ensures { buffer.new ≡ over buffer.old at (bytes_of 4 bits ++ bytes_of 4 count) }
{
    crate::put_four(buffer, at, bits);
    crate::put_four(buffer, at + 4, (count % 4294967296) as u32);
}
