// Heads of MessagePack values: the lead byte's kind, and the number that lead byte and the bytes after it hold.
// Kind and head size stand in two constant tables of 256 rows, one for each lead byte. Any bytes and any place are taken.
#![tactic(auto)]

ghost use Rattle.std.specs.Prelude.{◌≡◌, ◌+◌, ◌≤◌, ◌<◌, length};
ghost use Rattle.heads.specs.Lead.{held_by};
ghost use Rattle.heads.specs.Table.{kind_table, size_table, lead_table, kind_from, kind_by, sized_number, head_by};
ghost use Rattle.heads.specs.Head.{kind_at, head_at};

// The kind of the value that starts at a place. No `Option`: each of the nine is told apart by who asks.
#[derive(Clone, Copy)]
pub enum Kind {
    Unsigned,
    Signed,
    Float,
    Str,
    Bin,
    Array,
    Map,
    // The lead byte is not in the subset.
    Outside,
    // There is no byte.
    Missing,
}

// A head: the number that it holds, and the place after it.
#[derive(Clone, Copy)]
pub struct Head {
    pub number: usize,
    pub end: usize,
}

// The table of lead bytes: for each one, eight times its kind plus the size of its head. `kind_at` and `head_at` answer by it, and look into
// the two that it joins.
pub fn leads() -> [u8; 256]
    ensures { result ≡ lead_table }
{
    let kinds = kinds();
    let sizes = head_sizes();
    let mut rows = [0u8; 256];
    for i in 0..256 {
        rows[i] = kinds[i] * 8 + sizes[i];
    }
    rows
}

// The kind of the value that starts at a place of a file.
pub fn kind_at(file: &[u8], at: usize) -> Kind
    ensures table { result ≡ kind_by lead_table file.now at }
    ensures rule { result ≡ kind_at file.now at }
{
    if at < file.len() {
        kind_of(kinds()[usize::from(file[at])])
    } else {
        Kind::Missing
    }
}

// The head at a place of a file; none where it is cut short.
pub fn head_at(file: &[u8], at: usize) -> Option<Head>
    ensures table { result ≡ head_by lead_table file.now at }
    ensures rule { result ≡ head_at file.now at }
{
    if file.len() <= at {
        return None;
    }
    let b = file[at];
    let size = size_of(head_sizes()[usize::from(b)]);
    if file.len() - at < size {
        return None;
    }
    Some(Head {
        number: number(file, b, at, size),
        end: at + size,
    })
}

// The table of kinds.
fn kinds() -> &'static [u8; 256]
    ensures { result.now ≡ kind_table }
{
    &KINDS
}

// The table of head sizes.
fn head_sizes() -> &'static [u8; 256]
    ensures { result.now ≡ size_table }
{
    &HEAD_SIZES
}

// The kind in a row of the table of kinds.
fn kind_of(row: u8) -> Kind
    ensures { result ≡ kind_from row }
{
    match row {
        1 => Kind::Unsigned,
        2 => Kind::Signed,
        3 => Kind::Float,
        4 => Kind::Str,
        5 => Kind::Bin,
        6 => Kind::Array,
        7 => Kind::Map,
        _ => Kind::Outside,
    }
}

// The head size in a row of the table of head sizes.
fn size_of(row: u8) -> usize
    ensures { result ≡ row }
{
    usize::from(row)
}

// The number of a head of some size, whose lead byte b is at a place.
fn number(file: &[u8], b: u8, at: usize, size: usize) -> usize
    requires { (at < length file.now) × (at + size ≤ length file.now) }
    ensures { result ≡ sized_number file.now b at size }
{
    let p = at + 1;
    match size {
        1 => held(b),
        2 => usize::from(file[p]),
        3 => usize::from(numbers::read_u16(file, p)),
        _ => numbers::read_u32(file, p) as usize,
    }
}

// The number that a lead byte itself holds: its place in its row of paper 01.
fn held(b: u8) -> usize
    ensures { result ≡ held_by b }
{
    match b {
        0x00..=0x7f => usize::from(b),
        0x80..=0x9f => usize::from(b % 16),
        0xa0..=0xbf | 0xe0..=0xff => usize::from(b % 32),
        0xc0..=0xdf => 0,
    }
}

// The kind of each lead byte: 1 unsigned, 2 signed, 3 float, 4 string, 5 binary, 6 array, 7 map, and 0 for a byte that is not in the subset.
static KINDS: [u8; 256] = [
    // 00 to 7f: unsigned
    1, 1, 1, 1, 1, 1, 1, 1, 1, 1, 1, 1, 1, 1, 1, 1, 1, 1, 1, 1, 1, 1, 1, 1, 1, 1, 1, 1, 1, 1, 1, 1,
    1, 1, 1, 1, 1, 1, 1, 1, 1, 1, 1, 1, 1, 1, 1, 1, 1, 1, 1, 1, 1, 1, 1, 1, 1, 1, 1, 1, 1, 1, 1, 1,
    1, 1, 1, 1, 1, 1, 1, 1, 1, 1, 1, 1, 1, 1, 1, 1, 1, 1, 1, 1, 1, 1, 1, 1, 1, 1, 1, 1, 1, 1, 1, 1,
    1, 1, 1, 1, 1, 1, 1, 1, 1, 1, 1, 1, 1, 1, 1, 1, 1, 1, 1, 1, 1, 1, 1, 1, 1, 1, 1, 1, 1, 1, 1, 1,
    // 80 to 8f: map
    7, 7, 7, 7, 7, 7, 7, 7, 7, 7, 7, 7, 7, 7, 7, 7,
    // 90 to 9f: array
    6, 6, 6, 6, 6, 6, 6, 6, 6, 6, 6, 6, 6, 6, 6, 6,
    // a0 to bf: string
    4, 4, 4, 4, 4, 4, 4, 4, 4, 4, 4, 4, 4, 4, 4, 4, 4, 4, 4, 4, 4, 4, 4, 4, 4, 4, 4, 4, 4, 4, 4, 4,
    // c0 to df, one by one
    0, // c0: not in the subset
    0, // c1: not in the subset
    0, // c2: not in the subset
    0, // c3: not in the subset
    5, // c4: binary
    5, // c5: binary
    5, // c6: binary
    0, // c7: not in the subset
    0, // c8: not in the subset
    0, // c9: not in the subset
    3, // ca: float
    0, // cb: not in the subset
    1, // cc: unsigned
    1, // cd: unsigned
    1, // ce: unsigned
    0, // cf: not in the subset
    2, // d0: signed
    2, // d1: signed
    2, // d2: signed
    0, // d3: not in the subset
    0, // d4: not in the subset
    0, // d5: not in the subset
    0, // d6: not in the subset
    0, // d7: not in the subset
    0, // d8: not in the subset
    4, // d9: string
    4, // da: string
    4, // db: string
    6, // dc: array
    6, // dd: array
    7, // de: map
    7, // df: map
    // e0 to ff: signed
    2, 2, 2, 2, 2, 2, 2, 2, 2, 2, 2, 2, 2, 2, 2, 2, 2, 2, 2, 2, 2, 2, 2, 2, 2, 2, 2, 2, 2, 2, 2, 2,
];

// The size of the head that each lead byte begins: the lead byte and the bytes of its number.
static HEAD_SIZES: [u8; 256] = [
    // 00 to 7f
    1, 1, 1, 1, 1, 1, 1, 1, 1, 1, 1, 1, 1, 1, 1, 1, 1, 1, 1, 1, 1, 1, 1, 1, 1, 1, 1, 1, 1, 1, 1, 1,
    1, 1, 1, 1, 1, 1, 1, 1, 1, 1, 1, 1, 1, 1, 1, 1, 1, 1, 1, 1, 1, 1, 1, 1, 1, 1, 1, 1, 1, 1, 1, 1,
    1, 1, 1, 1, 1, 1, 1, 1, 1, 1, 1, 1, 1, 1, 1, 1, 1, 1, 1, 1, 1, 1, 1, 1, 1, 1, 1, 1, 1, 1, 1, 1,
    1, 1, 1, 1, 1, 1, 1, 1, 1, 1, 1, 1, 1, 1, 1, 1, 1, 1, 1, 1, 1, 1, 1, 1, 1, 1, 1, 1, 1, 1, 1, 1,
    // 80 to 8f
    1, 1, 1, 1, 1, 1, 1, 1, 1, 1, 1, 1, 1, 1, 1, 1,
    // 90 to 9f
    1, 1, 1, 1, 1, 1, 1, 1, 1, 1, 1, 1, 1, 1, 1, 1,
    // a0 to bf
    1, 1, 1, 1, 1, 1, 1, 1, 1, 1, 1, 1, 1, 1, 1, 1, 1, 1, 1, 1, 1, 1, 1, 1, 1, 1, 1, 1, 1, 1, 1, 1,
    // c0 to df, one by one
    1, // c0
    1, // c1
    1, // c2
    1, // c3
    2, // c4
    3, // c5
    5, // c6
    1, // c7
    1, // c8
    1, // c9
    5, // ca
    1, // cb
    2, // cc
    3, // cd
    5, // ce
    1, // cf
    2, // d0
    3, // d1
    5, // d2
    1, // d3
    1, // d4
    1, // d5
    1, // d6
    1, // d7
    1, // d8
    2, // d9
    3, // da
    5, // db
    3, // dc
    5, // dd
    3, // de
    5, // df
    // e0 to ff
    1, 1, 1, 1, 1, 1, 1, 1, 1, 1, 1, 1, 1, 1, 1, 1, 1, 1, 1, 1, 1, 1, 1, 1, 1, 1, 1, 1, 1, 1, 1, 1,
];
