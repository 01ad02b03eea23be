// The container of a file: one walk from the first byte, which refuses with the numbers 1 to 11 in the order of paper 01, or finds that the
// file is a writing of a map within the limits. Values, arrays and maps are walked by functions that call each other, the levels left falling.
// The keys of the maps that are open stand in two tables that are made once for a walk: where each starts, and a print of it to compare first.
// The places of the outer keys are handed over, so that nothing walks a file again to find them.
#![tactic(auto)]

ghost use Rattle.std.specs.Prelude.{◌≡◌, ℕ, ◌+◌, ◌*◌, ◌<◌, ◌≤◌, true, false, ◌↔◌, length, take, drop, ◌≢◌, slice_index};
ghost use Rattle.refusal.specs.Outcome.{number_of, numbered, answered};
ghost use Rattle.refusal.specs.Answer.{leaves};
ghost use Rattle.numbers.specs.BigEndian.{unsigned_at};
ghost use Rattle.text.specs.Equal.{equal};
ghost use Rattle.utf8.specs.Check.{is_ascii};
ghost use Rattle.heads.specs.Head.{kind_at};
ghost use Rattle.messagepack.specs.Limits.{file_limit, entry_limit};
ghost use Rattle.messagepack.specs.Rules.{Container};
ghost use Rattle.messagepack.specs.Walk.{body_at, text_at, key_at, integer_at, plain_at, binary_at, string_at, among, container_number};
ghost use Rattle.messagepack.specs.Keys.{print_of, key_here, keys_in, KeyThere, table_length, Free, KeyNoted};
ghost use Rattle.messagepack.specs.Keys.{ValueWalked, ItemsWalked, EntriesWalked, ValueNoted, EntriesNoted, Rows, Sought};
ghost use Rattle.messagepack.specs.Outer.{outer_levels, keys_answer, keys_leave};
ghost use Rattle.messagepack.specs.Quick.{leaf_of, leaf_at, QuickSays, ShortSays, RunSays};

use heads::Kind;
use refusal::Refusal;

// The most bytes of a file.
pub const FILE_LIMIT: usize = 67_108_864;

// The most levels of arrays and maps, the outer map being the first.
pub const NESTING_LIMIT: usize = 12;

// The most entries of a map.
pub const ENTRY_LIMIT: usize = 256;

// The rows of a table of keys: those of the largest map for each level.
const KEY_ROWS: usize = NESTING_LIMIT * ENTRY_LIMIT;

// The first row of the outer map, which is the last level that the table has.
const OUTER_ROWS: usize = KEY_ROWS - ENTRY_LIMIT;

// A string: the place of its first byte, and how many bytes it has.
#[derive(Clone, Copy)]
pub struct Text {
    pub at: usize,
    pub count: usize,
}

// A value that holds no others, by its end; or that it holds others, and which: these are three cases.
#[derive(Clone, Copy)]
pub enum Leaf {
    End(usize),
    Array,
    Map,
}

// A place, and how many values are left from there on.
#[derive(Clone, Copy)]
pub struct Run {
    pub at: usize,
    pub left: usize,
}

// The refusal of a file as a container, 1 to 11, if it is none.
pub fn container(file: &[u8]) -> Result<(), Refusal>
    ensures number { number_of result ≡ container_number file.now }
    ensures exactly { (number_of result ≡ 0) ↔ Container file.now }
{
    let mut places = no_places();
    keys(file, &mut places)?;
    Ok(())
}

// Walks a file, and puts the places of its outer keys, in their order, into a buffer: how many there are, the container's refusal, or 25.
pub fn keys(file: &[u8], places: &mut [u32]) -> Result<usize, Refusal>
    ensures answer { numbered result ≡ keys_answer file.now (length places.old) }
    ensures places { places.new ≡ keys_leave file.now places.old }
{
    if FILE_LIMIT < file.len() {
        return Err(Refusal::FileOverLimit);
    }
    match heads::kind_at(file, 0) {
        Kind::Missing => Err(Refusal::CutShort),
        Kind::Outside => Err(Refusal::LeadByteUnknown),
        Kind::Map => outer(file, places),
        Kind::Unsigned | Kind::Signed | Kind::Float | Kind::Str | Kind::Bin | Kind::Array => {
            Err(Refusal::OuterNotMap)
        }
    }
}

// The n bytes from p on.
fn body_at(file: &[u8], n: usize, p: usize) -> Result<usize, Refusal>
    ensures { numbered result ≡ body_at file.now n p }
{
    if file.len() < p || file.len() - p < n {
        return Err(Refusal::CutShort);
    }
    Ok(p + n)
}

// The string whose head is at a place.
fn text_at(file: &[u8], at: usize) -> Result<Text, Refusal>
    ensures { numbered result ≡ text_at file.now at }
{
    let Some(head) = heads::head_at(file, at) else {
        return Err(Refusal::CutShort);
    };
    let end = body_at(file, head.number, head.end)?;
    if utf8::is_utf8(&file[head.end..end]) {
        Ok(Text {
            at: head.end,
            count: head.number,
        })
    } else {
        Err(Refusal::StringNotUtf8)
    }
}

// The key that starts at a place.
fn key_at(file: &[u8], at: usize) -> Result<Text, Refusal>
    ensures { numbered result ≡ key_at file.now at }
{
    if let Some(text) = short_at::<true>(file, at) {
        return Ok(text);
    }
    match heads::kind_at(file, at) {
        Kind::Missing => Err(Refusal::CutShort),
        Kind::Outside => Err(Refusal::LeadByteUnknown),
        Kind::Str => text_at(file, at),
        Kind::Unsigned | Kind::Signed | Kind::Float | Kind::Bin | Kind::Array | Kind::Map => {
            Err(Refusal::KeyNotString)
        }
    }
}

// A value at a place that is an integer in its lead byte, a float, or a short string of bytes below 80: the commonest, found with no table.
fn quick_at(file: &[u8], at: usize) -> Option<usize>
    ensures { QuickSays file.now at result }
{
    if file.len() <= at {
        return None;
    }
    let b = file[at];
    if b < 0x80 {
        return Some(at + 1);
    }
    if b == 0xca {
        return float_at(file, at);
    }
    let text = short_at::<false>(file, at)?;
    Some(text.at + text.count)
}

// The float at a place, by its lead byte.
fn float_at(file: &[u8], at: usize) -> Option<usize>
    requires { (at < length file.now) × (slice_index file.now at ≡ 0xca) }
    ensures { QuickSays file.now at result }
{
    if file.len() - at < 5 {
        return None;
    }
    Some(at + 5)
}

// A string of at most 31 bytes, its length in its lead byte, if its bytes are found to be below 0x80. Those of a key are looked at four at a time,
// and a key of no bytes is found at once; for the strings that are values neither is faster.
fn short_at<const KEY: bool>(file: &[u8], at: usize) -> Option<Text>
    ensures { ShortSays file.now at result }
{
    if file.len() <= at {
        return None;
    }
    let b = file[at];
    if b < 0xa0 || 0xc0 <= b {
        return None;
    }
    let p = at + 1;
    if KEY && b == 0xa0 {
        return Some(Text { at: p, count: 0 });
    }
    let n = usize::from(b - 0xa0);
    if file.len() - p < n {
        return None;
    }
    let bytes = &file[p..p + n];
    let low = if KEY {
        all_low(bytes)
    } else {
        utf8::is_ascii(bytes)
    };
    if low {
        return Some(Text { at: p, count: n });
    }
    None
}

// True only if all bytes are below 0x80: they are looked at four at a time, and the last four may overlap others.
fn all_low(bytes: &[u8]) -> bool
    ensures { result ≡ true → is_ascii bytes.now ≡ true }
{
    if bytes.len() < 4 {
        return utf8::is_ascii(bytes);
    }
    let last = bytes.len() - 4;
    let mut i: usize = 0;
    // A `for` with a step of four is no plainer.
    while i < last {
        if !low_word(bytes, i) {
            return false;
        }
        i += 4;
    }
    low_word(bytes, last)
}

// True only if the four bytes from a place on are below 0x80: the compiler makes one test of the word that they are.
fn low_word(bytes: &[u8], at: usize) -> bool
    requires { at + 4 ≤ length bytes.now }
    ensures { result ≡ true → (i : ℕ) → i < 4 → slice_index bytes.now (at + i) < 0x80 }
{
    let four = word(bytes, at);
    let high = four / 256 / 256;
    if 0x80 <= four % 256 || 0x80 <= four / 256 % 256 || 0x80 <= high % 256 {
        return false;
    }
    high / 256 < 0x80
}

// Whether the lead byte at a place begins an array or a map and has its count in it: a quick look before the table.
fn holds_few(file: &[u8], at: usize) -> bool
    ensures { result ≡ true → (0x80 ≤ slice_index file.now at) × (slice_index file.now at < 0xa0) }
{
    at < file.len() && 0x80 <= file[at] && file[at] < 0xa0
}

// The value at a place if it holds no others.
fn leaf_at(file: &[u8], at: usize) -> Result<Leaf, Refusal>
    ensures { numbered result ≡ leaf_at file.now at }
{
    match heads::kind_at(file, at) {
        Kind::Missing => Err(Refusal::CutShort),
        Kind::Outside => Err(Refusal::LeadByteUnknown),
        Kind::Unsigned => as_leaf(integer_at(file, at)),
        Kind::Signed | Kind::Float => as_leaf(plain_at(file, at)),
        Kind::Bin => as_leaf(binary_at(file, at)),
        Kind::Str => as_leaf(string_at(file, at)),
        Kind::Array => Ok(Leaf::Array),
        Kind::Map => Ok(Leaf::Map),
    }
}

// The answer of a walk as a leaf's.
fn as_leaf(walk: Result<usize, Refusal>) -> Result<Leaf, Refusal>
    ensures { numbered result ≡ leaf_of (numbered walk) }
{
    walk.map(Leaf::End)
}

// An integer by an unsigned head.
fn integer_at(file: &[u8], at: usize) -> Result<usize, Refusal>
    ensures { numbered result ≡ integer_at file.now at }
{
    let Some(head) = heads::head_at(file, at) else {
        return Err(Refusal::CutShort);
    };
    if head.number <= numbers::INTEGER_LIMIT {
        Ok(head.end)
    } else {
        Err(Refusal::UnsignedTooLarge)
    }
}

// A value that is its head alone: an integer by a signed head, or a float.
fn plain_at(file: &[u8], at: usize) -> Result<usize, Refusal>
    ensures { numbered result ≡ plain_at file.now at }
{
    let Some(head) = heads::head_at(file, at) else {
        return Err(Refusal::CutShort);
    };
    Ok(head.end)
}

fn binary_at(file: &[u8], at: usize) -> Result<usize, Refusal>
    ensures { numbered result ≡ binary_at file.now at }
{
    let Some(head) = heads::head_at(file, at) else {
        return Err(Refusal::CutShort);
    };
    body_at(file, head.number, head.end)
}

fn string_at(file: &[u8], at: usize) -> Result<usize, Refusal>
    ensures { numbered result ≡ string_at file.now at }
{
    let text = text_at(file, at)?;
    Ok(text.at + text.count)
}

// The walk of the outer map, with the tables of keys, and nothing after it; then the places of its keys are handed over.
fn outer(file: &[u8], places: &mut [u32]) -> Result<usize, Refusal>
    requires { (length file.now ≤ file_limit) × (kind_at file.now 0 ≡ Kind.Map) }
    ensures answer { numbered result ≡ keys_answer file.now (length places.old) }
    ensures places { places.new ≡ keys_leave file.now places.old }
{
    let Some(head) = heads::head_at(file, 0) else {
        return Err(Refusal::CutShort);
    };
    let mut starts = no_keys();
    let mut prints = no_keys();
    let end = value(file, 0, NESTING_LIMIT, &mut starts, &mut prints)?;
    if end != file.len() {
        return Err(Refusal::BytesAfter);
    }
    hand_over(&starts, head.number, places)
}

// Puts the first n rows of the outer map into a buffer.
fn hand_over(starts: &[u32; KEY_ROWS], n: usize, places: &mut [u32]) -> Result<usize, Refusal>
    requires { (length starts.now ≡ table_length) × (n ≤ entry_limit) }
    ensures answer { numbered result ≡ answered n (length places.old) }
    ensures places { places.new ≡ leaves (take n (drop (outer_levels * entry_limit) starts.now)) places.old }
{
    if places.len() < n {
        return Err(Refusal::BufferTooSmall);
    }
    places[..n].copy_from_slice(&starts[OUTER_ROWS..OUTER_ROWS + n]);
    Ok(n)
}

// Room for the places of the outer keys: proofs know its length, and not the zeros in it.
fn no_places() -> [u32; ENTRY_LIMIT]
    ensures { length result ≡ entry_limit }
{
    [0u32; ENTRY_LIMIT]
}

// A table of keys with nothing in it; here too proofs know only its length.
fn no_keys() -> [u32; KEY_ROWS]
    ensures { length result ≡ table_length }
{
    [0u32; KEY_ROWS]
}

// The value at a place, with so many levels left. It leaves alone the rows of the maps that are open. After a map, its own rows have the places of its keys.
#[cycle(array_element_map_value)]
fn value(
    file: &[u8],
    at: usize,
    depth: usize,
    starts: &mut [u32; KEY_ROWS],
    prints: &mut [u32; KEY_ROWS],
) -> Result<usize, Refusal>
    requires { Free file.now depth starts.old prints.old }
    ensures walked { ValueWalked file.now depth at starts.old prints.old (numbered result) starts.new prints.new }
    ensures noted { ValueNoted file.now depth at (numbered result) starts.new }
{
    match heads::kind_at(file, at) {
        Kind::Missing => Err(Refusal::CutShort),
        Kind::Outside => Err(Refusal::LeadByteUnknown),
        Kind::Unsigned => integer_at(file, at),
        Kind::Signed | Kind::Float => plain_at(file, at),
        Kind::Bin => binary_at(file, at),
        Kind::Str => string_at(file, at),
        Kind::Array => {
            if depth == 0 {
                return Err(Refusal::NestedTooDeep);
            }
            match heads::head_at(file, at) {
                None => Err(Refusal::CutShort),
                Some(h) => array(file, h.number, h.end, depth - 1, starts, prints),
            }
        }
        Kind::Map => {
            if depth == 0 {
                return Err(Refusal::NestedTooDeep);
            }
            match heads::head_at(file, at) {
                None => Err(Refusal::CutShort),
                Some(h) => map(file, h.number, h.end, depth - 1, starts, prints),
            }
        }
    }
}

// The value at a place, as `value` has it; one that holds no others is walked with no step into the recursion.
#[cycle(array_element_map_value)]
fn element(
    file: &[u8],
    at: usize,
    depth: usize,
    starts: &mut [u32; KEY_ROWS],
    prints: &mut [u32; KEY_ROWS],
) -> Result<usize, Refusal>
    requires { Free file.now depth starts.old prints.old }
    ensures { ValueWalked file.now depth at starts.old prints.old (numbered result) starts.new prints.new }
{
    if let Some(end) = quick_at(file, at) {
        return Ok(end);
    }
    if holds_few(file, at) {
        return value(file, at, depth, starts, prints);
    }
    match leaf_at(file, at)? {
        Leaf::End(end) => Ok(end),
        Leaf::Array | Leaf::Map => value(file, at, depth, starts, prints),
    }
}

// The n values of an array from a place on, each with so many levels left.
#[cycle(array_element_map_value)]
fn array(
    file: &[u8],
    n: usize,
    at: usize,
    depth: usize,
    starts: &mut [u32; KEY_ROWS],
    prints: &mut [u32; KEY_ROWS],
) -> Result<usize, Refusal>
    requires { Free file.now depth starts.old prints.old }
    ensures { ItemsWalked file.now depth n at starts.old prints.old (numbered result) starts.new prints.new }
{
    let first = leaves(file, at, n);
    let mut left = first.left;
    let mut p = first.at;
    // `left` falls by more than one value a turn.
    while 0 < left {
        let end = value(file, p, depth, starts, prints)?;
        let next = leaves(file, end, left - 1);
        p = next.at;
        left = next.left;
    }
    Ok(p)
}

// Past the first of n values from a place on that hold no others.
fn leaves(file: &[u8], at: usize, n: usize) -> Run
    ensures { RunSays file.now at n result.at result.left }
{
    let mut left = n;
    let mut p = at;
    // Tried as `for i in 0..n`, and slower: 8 % more instructions for a walk of many small maps.
    while 0 < left {
        let Some(end) = leaf_end(file, p) else {
            return Run { at: p, left };
        };
        p = end;
        left -= 1;
    }
    Run { at: p, left }
}

// The end of a value at a place that holds no others and is not refused.
fn leaf_end(file: &[u8], at: usize) -> Option<usize>
    ensures { QuickSays file.now at result }
{
    if let Some(end) = quick_at(file, at) {
        return Some(end);
    }
    if holds_few(file, at) {
        return None;
    }
    match leaf_at(file, at) {
        Ok(Leaf::End(end)) => Some(end),
        Ok(Leaf::Array | Leaf::Map) | Err(_) => None,
    }
}

// The n entries of a map from a place on, each value with so many levels left. Its keys stand in the rows from depth * ENTRY_LIMIT on.
#[cycle(array_element_map_value)]
fn map(
    file: &[u8],
    n: usize,
    at: usize,
    depth: usize,
    starts: &mut [u32; KEY_ROWS],
    prints: &mut [u32; KEY_ROWS],
) -> Result<usize, Refusal>
    requires { Free file.now (depth + 1) starts.old prints.old }
    ensures walked { EntriesWalked file.now depth n at starts.old prints.old (numbered result) starts.new prints.new }
    ensures noted { EntriesNoted file.now depth n at (numbered result) starts.new }
{
    if ENTRY_LIMIT < n {
        return Err(Refusal::TooManyEntries);
    }
    let base = depth * ENTRY_LIMIT;
    let mut p = at;
    for row in base..base + n {
        p = new_key(file, p, base, row, starts, prints)?;
        p = element(file, p, depth, starts, prints)?;
    }
    Ok(p)
}

// The key at a place, which is none of those in the rows from base up to end, and now stands in the row after them.
fn new_key(
    file: &[u8],
    at: usize,
    base: usize,
    end: usize,
    starts: &mut [u32; KEY_ROWS],
    prints: &mut [u32; KEY_ROWS],
) -> Result<usize, Refusal>
    requires { Rows file.now base end starts.old prints.old }
    ensures { KeyNoted file.now at base end starts.old prints.old (numbered result) starts.new prints.new }
{
    let key = key_at(file, at)?;
    let print = print_of(file, key.at, key.count);
    if seen(file, starts, prints, base, end, at, print) {
        return Err(Refusal::KeyRepeated);
    }
    starts[end] = at as u32;
    prints[end] = print;
    Ok(key.at + key.count)
}

// Is the key at a place, whose print is given, among those in the rows from base up to end?
fn seen(
    file: &[u8],
    starts: &[u32; KEY_ROWS],
    prints: &[u32; KEY_ROWS],
    base: usize,
    end: usize,
    at: usize,
    print: u32,
) -> bool
    requires { Sought file.now base end starts.now prints.now at print }
    ensures { result ≡ among (key_here file.now at) (keys_in file.now starts.now base end) }
{
    if hits(prints, base, end, print) == 0 {
        return false;
    }
    for i in (base..end).rev() {
        if prints[i] == print && same_key(file, at, starts[i] as usize) {
            return true;
        }
    }
    false
}

// How many rows from base up to end have a print: it goes through all of them, so that several are compared at a time.
fn hits(prints: &[u32; KEY_ROWS], base: usize, end: usize, print: u32) -> u32
    requires { (base ≤ end) × (end ≤ table_length) }
    ensures { result ≡ 0 → (i : ℕ) → base ≤ i → i < end → slice_index prints.now i ≢ print }
{
    let mut n: u32 = 0;
    for i in base..end {
        if prints[i] == print {
            n += 1;
        }
    }
    n
}

// Are the keys at two places the same?
fn same_key(file: &[u8], at: usize, other: usize) -> bool
    requires { KeyThere file.now at × KeyThere file.now other }
    ensures { result ≡ equal (key_here file.now at) (key_here file.now other) }
{
    let Some(a) = heads::head_at(file, at) else {
        return false;
    };
    let Some(b) = heads::head_at(file, other) else {
        return false;
    };
    text::same_bytes(
        &file[a.end..a.end + a.number],
        &file[b.end..b.end + b.number],
    )
}

// The print of the m bytes from a: a number of how many they are and of the first and the last of them.
fn print_of(file: &[u8], a: usize, m: usize) -> u32
    requires { a + m ≤ length file.now }
    ensures { result ≡ print_of (take m (drop a file.now)) }
{
    let size = ((m % 65536) as u32) * 65536;
    if m < 2 {
        return size;
    }
    if m < 4 {
        let last = u32::from(half_word(file, a + m - 2));
        return size.wrapping_add(last);
    }
    let first = word(file, a);
    let last = word(file, a + m - 4);
    size.wrapping_add(first.wrapping_add(last))
}

// The number in the four bytes from a place on, with no test of its own that they are there.
fn word(bytes: &[u8], at: usize) -> u32
    requires { at + 4 ≤ length bytes.now }
    ensures { result ≡ unsigned_at 4 bytes.now at }
{
    numbers::read_u32(&bytes[at..at + 4], 0)
}

// The number in the two bytes from a place on, likewise.
fn half_word(bytes: &[u8], at: usize) -> u16
    requires { at + 2 ≤ length bytes.now }
    ensures { result ≡ unsigned_at 2 bytes.now at }
{
    numbers::read_u16(&bytes[at..at + 2], 0)
}
