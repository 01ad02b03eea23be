// Whether bytes are UTF-8 by RFC 3629: the encodings of Unicode scalar values one after another, up to 10FFFF, without
// surrogates, each in its shortest form. The check goes a step at a time and refuses at the first fault.
#![tactic(auto)]

ghost use Rattle.std.specs.Prelude.{◌≡◌, true, ◌↔◌, ℕ, suc, ◌+◌, ◌<◌, ◌≤◌, length, drop, get_or};
ghost use Rattle.utf8.specs.Utf8.{Utf8};
ghost use Rattle.utf8.specs.Check.{is_utf8, due, following, is_ascii};
ghost use Rattle.utf8.specs.Check.{lowest as lowestOf, highest as highestOf};
ghost use Rattle.utf8.specs.Step.{onward, Forward, LeadAt};

// Whether `bytes` are UTF-8.
pub fn is_utf8(bytes: &[u8]) -> bool
    ensures value { result ≡ is_utf8 bytes.now }
    ensures variant { (result ≡ true) ↔ Utf8 bytes.now }
{
    let mut at: usize = 0;
    while at < bytes.len() {
        let Some(next) = advance(bytes, at) else {
            return false;
        };
        at = next;
    }
    true
}

// Whether every byte is below 80: a quick answer for short strings.
pub fn is_ascii(bytes: &[u8]) -> bool
    ensures { result ≡ is_ascii bytes.now }
{
    bytes.iter().all(|byte| *byte < 0x80)
}

// A step over the character at `at`, or over a run of characters of one byte each.
fn advance(bytes: &[u8], at: usize) -> Option<usize>
    requires { at < length bytes.now }
    ensures bytes_value { is_utf8 (drop at bytes.now) ≡ onward 0 bytes.now result }
    ensures forward { Forward at (length bytes.now) result }
{
    let lead = bytes[at];
    if lead < 0x80 {
        return Some(ascii(bytes, at));
    }
    if lead < 0xe0 {
        return two(bytes, at, lead);
    }
    if lead < 0xf0 {
        return three(bytes, at, lead);
    }
    four(bytes, at, lead)
}

// A step over the character of two bytes at `at`.
fn two(bytes: &[u8], at: usize, lead: u8) -> Option<usize>
    requires { LeadAt bytes.now at lead 0x80 0xe0 }
    ensures bytes_value { is_utf8 (drop at bytes.now) ≡ onward 0 bytes.now result }
    ensures forward { Forward at (length bytes.now) result }
{
    if lead < 0xc2 {
        return None;
    }
    second(bytes, at, lead)
}

// A step over the character of three bytes at `at`.
fn three(bytes: &[u8], at: usize, lead: u8) -> Option<usize>
    requires { LeadAt bytes.now at lead 0xe0 0xf0 }
    ensures bytes_value { is_utf8 (drop at bytes.now) ≡ onward 0 bytes.now result }
    ensures forward { Forward at (length bytes.now) result }
{
    let Some(third) = second(bytes, at, lead) else {
        return None;
    };
    follow(bytes, third, 0x80, 0xbf)
}

// A step over the character of four bytes at `at`.
fn four(bytes: &[u8], at: usize, lead: u8) -> Option<usize>
    requires { LeadAt bytes.now at lead 0xf0 0x100 }
    ensures bytes_value { is_utf8 (drop at bytes.now) ≡ onward 0 bytes.now result }
    ensures forward { Forward at (length bytes.now) result }
{
    if 0xf4 < lead {
        return None;
    }
    let Some(third) = second(bytes, at, lead) else {
        return None;
    };
    let Some(fourth) = follow(bytes, third, 0x80, 0xbf) else {
        return None;
    };
    follow(bytes, fourth, 0x80, 0xbf)
}

// A step over `lead`, the byte at `at`, and the byte after it.
fn second(bytes: &[u8], at: usize, lead: u8) -> Option<usize>
    requires { LeadAt bytes.now at lead 0xc2 0xf5 }
    ensures by_index { (k : ℕ) → following lead ≡ suc k → is_utf8 (drop at bytes.now) ≡ onward k bytes.now result }
    ensures forward { Forward at (length bytes.now) result }
{
    follow(bytes, at + 1, lowest(lead), highest(lead))
}

// A step over the byte at `at`, which is to be there and from `lo` to `hi`.
fn follow(bytes: &[u8], at: usize, lo: u8, hi: u8) -> Option<usize>
    ensures by_index { (k : ℕ) → due (suc k) lo hi (drop at bytes.now) ≡ onward k bytes.now result }
    ensures forward { Forward at (length bytes.now) result }
{
    if bytes.len() <= at {
        return None;
    }
    let b = bytes[at];
    if b < lo || hi < b {
        return None;
    }
    Some(at + 1)
}

// The least byte that may follow `lead`.
fn lowest(lead: u8) -> u8
    ensures { result ≡ lowestOf lead }
{
    match lead {
        0xe0 => 0xa0,
        0xf0 => 0x90,
        _ => 0x80,
    }
}

// The greatest byte that may follow `lead`.
fn highest(lead: u8) -> u8
    ensures { result ≡ highestOf lead }
{
    match lead {
        0xed => 0x9f,
        0xf4 => 0x8f,
        _ => 0xbf,
    }
}

// The place after the byte below 80 at `at`; where `at` is a multiple of eight, after all such bytes from there on. Wide blocks go first,
// for speed: with the width known, a block's loop becomes a few vector instructions.
fn ascii(bytes: &[u8], at: usize) -> usize
    requires { (at < length bytes.now) × (get_or bytes.now at 0 < 0x80) }
    ensures bytes_value { is_utf8 (drop at bytes.now) ≡ is_utf8 (drop result bytes.now) }
    ensures lower_bound { (at < result) × (result ≤ length bytes.now) }
{
    if at % 8 != 0 {
        return at + 1;
    }
    let wide = blocks(bytes, at, 64);
    let narrow = blocks(bytes, wide, 16);
    let next = blocks(bytes, narrow, 1);
    if next == at {
        return at + 1;
    }
    next
}

// The place after the blocks of `width` bytes below 80 from `from` on.
fn blocks(bytes: &[u8], from: usize, width: usize) -> usize
    requires { (from ≤ length bytes.now) × (0 < width) }
    ensures bytes_value { is_utf8 (drop from bytes.now) ≡ is_utf8 (drop result bytes.now) }
    ensures lower_bound { (from ≤ result) × (result ≤ length bytes.now) }
{
    let mut at = from;
    while width <= bytes.len() - at {
        if 0x80 <= bits(bytes, at, width) {
            return at;
        }
        at += width;
    }
    at
}

// The bits that any of the `width` bytes at `at` has: they are below 80 only if each byte is.
fn bits(bytes: &[u8], at: usize, width: usize) -> u8
    requires { at + width ≤ length bytes.now }
    ensures { result < 0x80 → (i : ℕ) → i < width → get_or bytes.now (at + i) 0 < 0x80 }
{
    let mut all: u8 = 0;
    for byte in &bytes[at..at + width] {
        all |= *byte;
    }
    all
}
