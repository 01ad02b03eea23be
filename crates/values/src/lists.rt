// Arrays of integers at places of a file: their sum, how many they are, and whether they lie between two numbers or inside a table. Each function takes any bytes and any place, and
// promises a meaning for a file that has been walked; a document that is no array has no integers.
ghost use Rattle.std.specs.Prelude.{◌≡◌, true, ℕ, ◌+◌, ◌≤◌, ◌<◌, pos, length, get_or, IfSome};
ghost use Rattle.numbers.specs.Ranges.{between, all_between, all_below};
ghost use Rattle.values.specs.Parts.{integer_of, items_of};
ghost use Rattle.values.specs.Walked.{Short, Walked, WalkedAll, WalkedPlace};
ghost use Rattle.values.specs.Integers.{integers_of, integers_in, list_in, summed, array_length};

// An integer, and where it ends.
#[derive(Clone, Copy)]
pub struct Integer {
    pub value: i32,
    pub end: usize,
}

// The sum of the integers of the array at a place; none where one of them is negative.
pub fn sum_at(file: &[u8], at: usize) -> Option<u64>
    ensures { Short file.now → Walked file.now at (λ x e. result ≡ summed (integers_of (items_of x))) }
{
    let part = crate::items_at(file, at);
    sum_from(file, part.count, part.at)
}

// The sum of n integers from a place on, likewise. A file has no more values than bytes.
fn sum_from(file: &[u8], n: usize, at: usize) -> Option<u64>
    ensures { Short file.now → WalkedAll file.now n at (λ ds e. result ≡ summed (integers_of ds)) }
{
    if messagepack::FILE_LIMIT < n {
        return None;
    }
    let mut total: u64 = 0;
    let mut p = at;
    for _i in 0..n {
        let next = next_integer(file, p);
        if next.value < 0 {
            return None;
        }
        total += u64::from(next.value.cast_unsigned());
        p = next.end;
    }
    Some(total)
}

// The integer at a place, as `crate::integer_at` has it, and where the value ends. The commonest, those in their lead byte and
// those of two bytes after it, are found first.
fn next_integer(file: &[u8], at: usize) -> Integer
    ensures { Walked file.now at (λ x e. (result.value ≡ integer_of x) × (result.end ≡ e)) }
{
    if at < file.len() {
        let b = file[at];
        if b < 0x80 {
            return Integer {
                value: i32::from(b),
                end: at + 1,
            };
        }
        if b == 0xcd && 3 <= file.len() - at {
            let n = usize::from(numbers::read_u16(file, at + 1));
            return Integer {
                value: crate::unsigned(n),
                end: at + 3,
            };
        }
    }
    Integer {
        value: crate::integer_at(file, at),
        end: crate::skip(file, at),
    }
}

// Whether the integers of the array at a place lie between two numbers.
pub fn all_between(file: &[u8], at: usize, low: i32, high: i32) -> bool
    ensures { Walked file.now at (λ x e. result ≡ all_between low high (integers_of (items_of x))) }
{
    let part = crate::items_at(file, at);
    if crate::all_low(file, part.at, part.count)
        && low_between(file, part.at, part.count, low, high)
    {
        return true;
    }
    between_from(file, part.count, part.at, low, high)
}

// Whether n integers in their lead bytes lie between two numbers, by their bytes.
fn low_between(file: &[u8], at: usize, n: usize, low: i32, high: i32) -> bool
    requires { at + n ≤ length file.now }
    ensures { result ≡ true → (i : ℕ) → i < n → between low high (pos (get_or file.now (at + i) 0)) ≡ true }
{
    file[at..at + n]
        .iter()
        .all(|b| numbers::is_between(i32::from(*b), low, high))
}

// Whether n integers from a place on lie between two numbers.
fn between_from(file: &[u8], n: usize, at: usize, low: i32, high: i32) -> bool
    ensures { WalkedAll file.now n at (λ ds e. result ≡ all_between low high (integers_of ds)) }
{
    let mut p = at;
    for _i in 0..n {
        let next = next_integer(file, p);
        if !numbers::is_between(next.value, low, high) {
            return false;
        }
        p = next.end;
    }
    true
}

// Whether the integers of the array at a place are indices of a table of n entries; a place 0 has none.
pub fn inside(file: &[u8], at: usize, n: usize) -> bool
    ensures { WalkedPlace file.now at (λ o. result ≡ all_below n (list_in (integers_in o))) }
{
    at == 0 || all_between(file, at, 0, numbers::last_index(n))
}

// How many values the array at a place has; none where the place is 0, which has no array.
pub fn length_at(file: &[u8], at: usize) -> Option<usize>
    ensures few { IfSome result (λ n. n ≤ length file.now) }
    ensures is { WalkedPlace file.now at (λ o. result ≡ array_length o) }
{
    if at == 0 {
        return None;
    }
    Some(crate::items_at(file, at).count)
}
