// Values at places of a file: where one ends, and what it holds. Each function takes any bytes and any place, and promises a meaning for a
// file that has been walked (specs/Walked.antt). The commonest lead bytes are looked at before the table of lead bytes, since files are mostly
// made of them: `text_at` says so by a case of its definition.
#![tactic(auto)]

pub mod keys;
pub mod lists;

ghost use Rattle.std.specs.Prelude.{◌≡◌, ◌↔◌, true, ℕ, ◌+◌, ◌-◌, ◌≤◌, ◌<◌, length};
ghost use Rattle.heads.specs.Table.{lead_table};
ghost use Rattle.values.specs.Parts.{integer_of};
ghost use Rattle.values.specs.Places.{TextAt, ItemsAt, EntriesAt, last_of, half_of, unsigned_by, signed_by};
ghost use Rattle.values.specs.Heads.{body_part, items_part, integer_by, text_by, text_by_table, items_by, entries_by};
ghost use Rattle.values.specs.Standing.{past_over, pairs_over, LowRun, Sized, ItemsOver, Stepped};
ghost use Rattle.values.specs.Walked.{Walked, WalkedOver};

use heads::Kind;

// A place, and how many bytes, values or entries stand from there on.
#[derive(Clone, Copy)]
pub struct Part {
    pub at: usize,
    pub count: usize,
}

// A step over a value: where it goes on, and how many values are inside.
#[derive(Clone, Copy)]
pub struct Step {
    pub next: usize,
    pub inside: usize,
}

// Where the value at a place ends. Each value inside takes a byte at least, so that a count that cannot be true ends the loop. It stays a `while`,
// since the values that are left grow by those inside.
pub fn skip(file: &[u8], at: usize) -> usize
    ensures { WalkedOver file.now at (λ e. result ≡ e) }
{
    let mut left: usize = 1;
    let mut p = at;
    while 0 < left {
        let Some(step) = step_over(file, p) else {
            return p;
        };
        if step.next <= p || file.len() < step.next {
            return p;
        }
        let others = left - 1;
        let room = file.len() - step.next;
        if room < others || room - others < step.inside {
            return p;
        }
        left = others + step.inside;
        p = step.next;
    }
    p
}

// Whether the n values from a place on are integers in their lead bytes: it goes through all of them, so that several are compared at a time.
pub fn all_low(file: &[u8], at: usize, n: usize) -> bool
    ensures { (result ≡ true) ↔ LowRun file.now at n }
{
    if file.len() < at || file.len() - at < n {
        return false;
    }
    let mut most: u8 = 0;
    for b in &file[at..at + n] {
        most = most.max(*b);
    }
    most < 0x80
}

// A step over the value at a place: the commonest, floats, and integers and strings whose head is their lead byte, are found with no table.
fn step_over(file: &[u8], at: usize) -> Option<Step>
    ensures { Stepped file.now at result }
{
    if at < file.len() {
        let b = file[at];
        if b < 0x80 {
            return Some(Step {
                next: at + 1,
                inside: 0,
            });
        }
        if b < 0xa0 {
            return step_by_table(file, at);
        }
        if b < 0xc0 {
            return past(file, usize::from(b - 0xa0), at + 1);
        }
        if b == 0xca {
            return past(file, 4, at + 1);
        }
    }
    step_by_table(file, at)
}

// A step over the head of the value at a place, and the body of a string or a binary, by the table of lead bytes.
fn step_by_table(file: &[u8], at: usize) -> Option<Step>
    ensures { Stepped file.now at result }
{
    let head = heads::head_at(file, at)?;
    match heads::kind_at(file, at) {
        Kind::Missing | Kind::Outside => None,
        Kind::Unsigned | Kind::Signed | Kind::Float => Some(Step {
            next: head.end,
            inside: 0,
        }),
        Kind::Str | Kind::Bin => past(file, head.number, head.end),
        Kind::Array => over_items(file, head.number, head.end),
        Kind::Map => pairs(file, head.number, head.end),
    }
}

// A step over n bytes.
fn past(file: &[u8], n: usize, p: usize) -> Option<Step>
    ensures { result ≡ past_over (length file.now) n p }
{
    if file.len() < p || file.len() - p < n {
        return None;
    }
    Some(Step {
        next: p + n,
        inside: 0,
    })
}

// A step to n values, or over all of them where they are integers in their lead bytes, or past those at the start that have one lead byte.
fn over_items(file: &[u8], n: usize, p: usize) -> Option<Step>
    ensures { ItemsOver file.now n p result }
{
    if all_low(file, p, n) {
        return Some(Step {
            next: p + n,
            inside: 0,
        });
    }
    over_first(file, n, p)
}

// A step past those at the start of n values that are integers of one, two or four bytes after the same lead byte, if the first is one.
fn over_first(file: &[u8], n: usize, p: usize) -> Option<Step>
    ensures { ItemsOver file.now n p result }
{
    if file.len() <= p {
        return Some(Step { next: p, inside: n });
    }
    match file[p] {
        0xcc => over_run(file, n, p, 0xcc, 2),
        0xcd => over_run(file, n, p, 0xcd, 3),
        0xce => over_run(file, n, p, 0xce, 5),
        _ => Some(Step { next: p, inside: n }),
    }
}

// A step past those at the start of n values that have a lead byte and its size; the compiler makes a loop for each size.
fn over_run(file: &[u8], n: usize, p: usize, lead: u8, size: usize) -> Option<Step>
    requires { (p ≤ length file.now) × Sized lead size }
    ensures { ItemsOver file.now n p result }
{
    let mut q = p;
    for i in 0..n {
        if file.len() - q < size || file[q] != lead {
            return Some(Step {
                next: q,
                inside: n - i,
            });
        }
        q += size;
    }
    Some(Step { next: q, inside: 0 })
}

// A step to n keys and their values.
fn pairs(file: &[u8], n: usize, p: usize) -> Option<Step>
    ensures { result ≡ pairs_over (length file.now) n p }
{
    if file.len() < p || (file.len() - p) / 2 < n {
        return None;
    }
    Some(Step {
        next: p,
        inside: n + n,
    })
}

// The integer at a place; of another value 0.
pub fn integer_at(file: &[u8], at: usize) -> i32
    ensures table { result ≡ integer_by lead_table file.now at }
    ensures says { Walked file.now at (λ x e. result ≡ integer_of x) }
{
    let Some(head) = heads::head_at(file, at) else {
        return 0;
    };
    match heads::kind_at(file, at) {
        Kind::Unsigned => unsigned(head.number),
        Kind::Signed => signed(head.number, head.end.saturating_sub(at)),
        _ => 0,
    }
}

// The integer of an unsigned head.
fn unsigned(n: usize) -> i32
    ensures { result ≡ unsigned_by n }
{
    if n <= numbers::INTEGER_LIMIT {
        return n as i32;
    }
    0
}

// The integer of a signed head of a size, lead byte included.
fn signed(n: usize, size: usize) -> i32
    ensures { result ≡ signed_by n size }
{
    if n < half(size) {
        return n as i32;
    }
    !(last_of(size).saturating_sub(n) as i32)
}

// The first number of a signed head of a size that stands for a negative integer.
fn half(size: usize) -> usize
    ensures { result ≡ half_of size }
{
    match size {
        1 => 0,
        2 => 128,
        3 => 32768,
        _ => 2147483648,
    }
}

// The last number that a signed head of a size holds.
fn last_of(size: usize) -> usize
    ensures { result ≡ last_of size }
{
    match size {
        1 => 31,
        2 => 255,
        3 => 65535,
        _ => 4294967295,
    }
}

// The bytes of the string or the binary at a place; of another value none. The commonest, strings whose head is their lead byte, are found
// with no table.
pub fn text_at(file: &[u8], at: usize) -> Part
    ensures inside { result.at + result.count ≤ length file.now }
    ensures table { result ≡ text_by lead_table file.now at }
    ensures says { Walked file.now at (λ x e. TextAt file.now x e result) }
{
    if at < file.len() {
        let b = file[at];
        if b < 0xa0 {
            return text_by_table(file, at);
        }
        if b < 0xc0 {
            return body(file, usize::from(b - 0xa0), at + 1);
        }
    }
    text_by_table(file, at)
}

// The bytes of the string or the binary at a place, as `text_at` has them: a loop over keys finds short ones with no call.
pub fn key_at(file: &[u8], at: usize) -> Part
    ensures inside { result.at + result.count ≤ length file.now }
    ensures table { result ≡ text_by lead_table file.now at }
    ensures says { Walked file.now at (λ x e. TextAt file.now x e result) }
{
    if at < file.len() {
        let b = file[at];
        if 0xa0 <= b && b < 0xc0 {
            let n = usize::from(b - 0xa0);
            if n < file.len() - at {
                return Part {
                    at: at + 1,
                    count: n,
                };
            }
        }
    }
    text_at(file, at)
}

// The bytes of the string or the binary at a place, by the table of lead bytes.
fn text_by_table(file: &[u8], at: usize) -> Part
    ensures inside { result.at + result.count ≤ length file.now }
    ensures table { result ≡ text_by_table lead_table file.now at }
    ensures says { Walked file.now at (λ x e. TextAt file.now x e result) }
{
    let Some(head) = heads::head_at(file, at) else {
        return Part { at: 0, count: 0 };
    };
    match heads::kind_at(file, at) {
        Kind::Str | Kind::Bin => body(file, head.number, head.end),
        _ => Part { at: 0, count: 0 },
    }
}

// The n bytes from p on, or none where they are not all inside.
fn body(file: &[u8], n: usize, p: usize) -> Part
    ensures { result ≡ body_part (length file.now) n p }
{
    if file.len() < p || file.len() - p < n {
        return Part { at: 0, count: 0 };
    }
    Part { at: p, count: n }
}

// The values of the array at a place; of another value none.
pub fn items_at(file: &[u8], at: usize) -> Part
    ensures inside { result.count ≤ length file.now }
    ensures table { result ≡ items_by lead_table file.now at }
    ensures says { Walked file.now at (λ x e. ItemsAt file.now x result) }
{
    let Some(head) = heads::head_at(file, at) else {
        return Part { at: 0, count: 0 };
    };
    match heads::kind_at(file, at) {
        Kind::Array => values_from(file, head.number, head.end),
        _ => Part { at: 0, count: 0 },
    }
}

// The n values from p on, or none where they cannot be inside.
fn values_from(file: &[u8], n: usize, p: usize) -> Part
    ensures { result ≡ items_part (length file.now) n p }
{
    if file.len() < n {
        return Part { at: 0, count: 0 };
    }
    Part { at: p, count: n }
}

// The entries of the map at a place; of another value none.
pub fn entries_at(file: &[u8], at: usize) -> Part
    ensures table { result ≡ entries_by lead_table file.now at }
    ensures says { Walked file.now at (λ x e. EntriesAt file.now x result) }
{
    let Some(head) = heads::head_at(file, at) else {
        return Part { at: 0, count: 0 };
    };
    match heads::kind_at(file, at) {
        Kind::Map => Part {
            at: head.end,
            count: head.number,
        },
        _ => Part { at: 0, count: 0 },
    }
}
