// The named fields of a file: one pass over the entries of its outer map that notes where each field's value stands and whether it has its
// type, with the set of those that are present; and the refusals 12, 13 and 24. The types stand in one table of bytes, made once for a pass
// and lent. Values, arrays and maps are gone through by functions that call each other, the levels left falling. Each function takes any bytes
// and any place, and promises a meaning for a file that has been walked (`Walked.antt` of values).
//
// Where a value ends is a number, 0 where it has not its type. Tried as an enum, and slower: that goes through memory, and is what made the
// verdict on small files 1.25 times that of the Rust and more (docs/PERFORMANCE.md).
#![tactic(auto)]

ghost use Rattle.std.specs.Prelude.{◌≡◌, true, false, List, ℕ, ◌+◌, ◌*◌, ◌^◌, ◌≤◌, ◌<◌, length, get_or, take, drop, set};
ghost use Rattle.refusal.specs.Outcome.{number_of};
ghost use Rattle.numbers.specs.BigEndian.{unsigned_at};
ghost use Rattle.text.specs.Equal.{equal};
ghost use Rattle.values.specs.Walked.{Walked, WalkedEntries, WalkedBy};
ghost use Rattle.fields.specs.Types.{FieldType, plain, array_of};
ghost use Rattle.fields.specs.Table.{field_count};
ghost use Rattle.fields.specs.Tests.{typed};
ghost use Rattle.fields.specs.Fields.{field_type_of, is_version_one, fields_number, find_row};
ghost use Rattle.fields.specs.Noted.{Noted, Spanned};
ghost use Rattle.fields.specs.Numbers.{type_table, type_depth, first_field, name_of, rows_from, type_of, row_test, build, covered, marked, lacking, distinct_names, table_byte, all_rows, hint_of, hinted};
ghost use Rattle.fields.specs.Steps.{head_kind, has_body, plain_end, ValueSays, ItemsSay, RunSays, EntriesSay, RowSays, no_places};

use heads::Kind;
use refusal::Refusal;

// How many fields are named.
pub const FIELD_COUNT: usize = ENTITY_LIST + 1;

// How many of them are required: those that come first.
pub const REQUIRED_FIELDS: usize = CHAINS_PER_MODEL + 1;

// The named fields by their numbers, in the order of paper 01.
pub const MMTF_VERSION: usize = 0;

pub const MMTF_PRODUCER: usize = MMTF_VERSION + 1;

pub const NUM_BONDS: usize = MMTF_PRODUCER + 1;

pub const NUM_ATOMS: usize = NUM_BONDS + 1;

pub const NUM_GROUPS: usize = NUM_ATOMS + 1;

pub const NUM_CHAINS: usize = NUM_GROUPS + 1;

pub const NUM_MODELS: usize = NUM_CHAINS + 1;

pub const GROUP_LIST: usize = NUM_MODELS + 1;

pub const X_COORD_LIST: usize = GROUP_LIST + 1;

pub const Y_COORD_LIST: usize = X_COORD_LIST + 1;

pub const Z_COORD_LIST: usize = Y_COORD_LIST + 1;

pub const GROUP_ID_LIST: usize = Z_COORD_LIST + 1;

pub const GROUP_TYPE_LIST: usize = GROUP_ID_LIST + 1;

pub const CHAIN_ID_LIST: usize = GROUP_TYPE_LIST + 1;

pub const GROUPS_PER_CHAIN: usize = CHAIN_ID_LIST + 1;

pub const CHAINS_PER_MODEL: usize = GROUPS_PER_CHAIN + 1;

pub const BOND_ATOM_LIST: usize = CHAINS_PER_MODEL + 1;

pub const BOND_ORDER_LIST: usize = BOND_ATOM_LIST + 1;

pub const B_FACTOR_LIST: usize = BOND_ORDER_LIST + 1;

pub const ATOM_ID_LIST: usize = B_FACTOR_LIST + 1;

pub const ALT_LOC_LIST: usize = ATOM_ID_LIST + 1;

pub const OCCUPANCY_LIST: usize = ALT_LOC_LIST + 1;

pub const SEC_STRUCT_LIST: usize = OCCUPANCY_LIST + 1;

pub const INS_CODE_LIST: usize = SEC_STRUCT_LIST + 1;

pub const SEQUENCE_ID_LIST: usize = INS_CODE_LIST + 1;

pub const CHAIN_NAME_LIST: usize = SEQUENCE_ID_LIST + 1;

pub const TITLE: usize = CHAIN_NAME_LIST + 1;

pub const STRUCTURE_ID: usize = TITLE + 1;

pub const SPACE_GROUP: usize = STRUCTURE_ID + 1;

pub const DEPOSITION_DATE: usize = SPACE_GROUP + 1;

pub const RELEASE_DATE: usize = DEPOSITION_DATE + 1;

pub const RESOLUTION: usize = RELEASE_DATE + 1;

pub const R_FREE: usize = RESOLUTION + 1;

pub const R_WORK: usize = R_FREE + 1;

pub const UNIT_CELL: usize = R_WORK + 1;

pub const EXPERIMENTAL_METHODS: usize = UNIT_CELL + 1;

pub const NCS_OPERATOR_LIST: usize = EXPERIMENTAL_METHODS + 1;

pub const BIO_ASSEMBLY_LIST: usize = NCS_OPERATOR_LIST + 1;

pub const ENTITY_LIST: usize = BIO_ASSEMBLY_LIST + 1;

// What a pass over a file's entries notes of the named fields: where each one's value stands and where it ends, 0 and 0 where it is absent; the
// set of those present, a bit for each; whether each of them has its type, a fact beside the others and no condition on them. The places stay numbers:
// `Noted`, and what stands on it, speaks of 0.
#[derive(Clone, Copy)]
pub struct Fields {
    pub places: [usize; FIELD_COUNT],
    pub ends: [usize; FIELD_COUNT],
    pub presence: u64,
    pub typed: bool,
}

// A place, and how many values are left from there on.
#[derive(Clone, Copy)]
pub struct Run {
    pub at: usize,
    pub left: usize,
}

// Where a field's value ends, and whether it has its type. No `Option`: the end is known in both cases.
#[derive(Clone, Copy)]
pub struct Judged {
    pub end: usize,
    pub typed: bool,
}

// What is noted of the count entries of a file from a place on. A value of the wrong type is stepped over, since 12 comes before 13.
pub fn note(file: &[u8], count: usize, at: usize) -> Fields
    ensures noted { WalkedEntries file.now count at (λ es e. Noted file.now es result) }
    ensures spans { WalkedEntries file.now count at (λ es e. Spanned file.now at es result) }
{
    let types = types();
    let mut places = no_places();
    let mut ends = no_places();
    let mut presence: u64 = 0;
    let mut typed = true;
    let mut p = at;
    for _ in 0..count {
        let key = values::key_at(file, p);
        let value = key.at + key.count;
        let row = row_of(&types, file, key.at, key.count, FIRST_FIELD, FIELD_COUNT);
        let judged = judge(file, &types, value, row);
        put_place(&mut places, row, value);
        put_place(&mut ends, row, judged.end);
        presence = mark(FIELD_COUNT, presence, row);
        typed = typed && judged.typed;
        p = judged.end;
    }
    Fields {
        places,
        ends,
        presence,
        typed,
    }
}

// The refusal of a file by what is noted of its fields: 12, 13 or 24.
pub fn refusal_of(file: &[u8], fields: Fields) -> Result<(), Refusal>
    ensures { WalkedBy (λ es. Noted file.now es fields) (λ es. number_of result ≡ fields_number es) }
{
    let types = types();
    let whole = all_seen(&types, fields.presence, FIRST_FIELD, FIELD_COUNT);
    if !whole {
        return Err(Refusal::FieldMissing);
    }
    if !fields.typed {
        return Err(Refusal::FieldType);
    }
    let version = values::text_at(file, fields.places[MMTF_VERSION]);
    if !is_version_one(&file[version.at..version.at + version.count]) {
        return Err(Refusal::VersionNot1);
    }
    Ok(())
}

// Has the value at a place the type of a named field? Where there is no such field, no value has.
pub fn is_typed(file: &[u8], at: usize, field: usize) -> bool
    ensures { Walked file.now at (λ x e. result ≡ typed (field_type_of field) x) }
{
    if FIELD_COUNT <= field {
        return false;
    }
    let types = types();
    let judged = judge(file, &types, at, field);
    judged.typed
}

// Do the bytes begin with "1." and a digit?
#[tactic(auto, unfolding(crate::specs::Fields::is_version_one))]
fn is_version_one(text: &[u8]) -> bool
    ensures { result ≡ is_version_one text.now }
{
    if text.len() < 3 {
        return false;
    }
    text[0] == b'1' && text[1] == b'.' && b'0' <= text[2] && text[2] <= b'9'
}

// No places.
fn no_places() -> [usize; FIELD_COUNT]
    ensures { result ≡ no_places }
{
    [0usize; FIELD_COUNT]
}

// Puts a place at a field's number, if it is one.
fn put_place(places: &mut [usize; FIELD_COUNT], row: usize, place: usize)
    requires { length places.old ≡ field_count }
    ensures { places.new ≡ set places.old row place }
{
    if row < FIELD_COUNT {
        places[row] = place;
    }
}

// A set of n with i in it, if i is below n.
fn mark(n: usize, seen: u64, i: usize) -> u64
    requires { n < 64 }
    ensures { result ≡ marked n seen i }
{
    if i < n { seen | (1u64 << i) } else { seen }
}

// The value at a place as that of a field, or of no field.
fn judge(file: &[u8], types: &[u8; TABLE_SIZE], at: usize, row: usize) -> Judged
    requires { types.now ≡ type_table }
    ensures { RowSays file.now row at result.end result.typed }
{
    let e = field_typed(file, types, at, row);
    if e == 0 {
        return Judged {
            end: values::skip(file, at),
            typed: false,
        };
    }
    Judged {
        end: e,
        typed: true,
    }
}

// The value at a place as that of a named field, or of none, as `row_typed` has it: one that holds no others is found with no step into the recursion.
fn field_typed(file: &[u8], types: &[u8; TABLE_SIZE], at: usize, row: usize) -> usize
    requires { types.now ≡ type_table }
    ensures { ValueSays file.now (row_test row (rows_from (type_of type_depth) field_count first_field)) at result }
{
    if row < FIELD_COUNT {
        let code = cell(types, (FIRST_FIELD + row) * ROW_SIZE + ROWS_AT + 2);
        if code < PLAIN_TYPES {
            return plain_at(file, at, code + 1);
        }
    }
    row_typed(file, types, at, FIRST_FIELD, FIELD_COUNT, row, TYPE_DEPTH)
}

// The value at a place as that of one of the n rows from first on, or of none: where it ends, 0 if it has not its type.
#[cycle(entries_typed_entry_typed_items_typed_row_typed_typed_at)]
fn row_typed(
    file: &[u8],
    types: &[u8; TABLE_SIZE],
    at: usize,
    first: usize,
    n: usize,
    row: usize,
    depth: usize,
) -> usize
    requires { (types.now ≡ type_table) × ((first < 256) × (n < 64)) }
    ensures { ValueSays file.now (row_test row (rows_from (type_of depth) n first)) at result }
{
    if row < n {
        let code = cell(types, (first + row) * ROW_SIZE + ROWS_AT + 2);
        return typed_at(file, types, at, code, depth);
    }
    values::skip(file, at)
}

// The value at a place by a type of at most so many levels.
#[cycle(entries_typed_entry_typed_items_typed_row_typed_typed_at)]
fn typed_at(file: &[u8], types: &[u8; TABLE_SIZE], at: usize, code: usize, depth: usize) -> usize
    requires { types.now ≡ type_table }
    ensures { ValueSays file.now (typed (type_of depth code)) at result }
{
    if depth == 0 {
        return 0;
    }
    if CODE_COUNT <= code {
        return 0;
    }
    let tag = cell(types, code * 3);
    let many = cell(types, code * 3 + 1) % 64;
    let inside = cell(types, code * 3 + 2);
    if tag < 3 {
        return simple_at(file, at, tag, many, inside);
    }
    let Some(head) = heads::head_at(file, at) else {
        return 0;
    };
    let kind = head_kind(heads::kind_at(file, at));
    if tag == 3 {
        if kind != ARRAY {
            return 0;
        }
        return items_typed(file, types, head.number, head.end, inside, depth - 1);
    }
    if kind != MAP {
        return 0;
    }
    entries_typed(file, types, head.number, head.end, inside, many, depth - 1)
}

// The count values of an array from a place on, each by a type.
#[cycle(entries_typed_entry_typed_items_typed_row_typed_typed_at)]
fn items_typed(
    file: &[u8],
    types: &[u8; TABLE_SIZE],
    count: usize,
    at: usize,
    code: usize,
    depth: usize,
) -> usize
    requires { types.now ≡ type_table }
    ensures { ItemsSay file.now (typed (type_of depth code)) count at result }
{
    let mut p = at;
    for _ in 0..count {
        let e = typed_at(file, types, p, code, depth);
        if e == 0 {
            return 0;
        }
        p = e;
    }
    p
}

// The count entries of a map from a place on by the n rows from first on.
#[cycle(entries_typed_entry_typed_items_typed_row_typed_typed_at)]
fn entries_typed(
    file: &[u8],
    types: &[u8; TABLE_SIZE],
    count: usize,
    at: usize,
    first: usize,
    n: usize,
    depth: usize,
) -> usize
    requires { (types.now ≡ type_table) × ((first < 256) × ((n < 64) × ((distinct_names (rows_from (type_of depth) n first) ≡ true) × (hinted n first ≡ true)))) }
    ensures { EntriesSay file.now (rows_from (type_of depth) n first) 0 count at result }
{
    let mut seen: u64 = 0;
    let mut p = at;
    for _ in 0..count {
        let key = values::key_at(file, p);
        let row = row_of(types, file, key.at, key.count, first, n);
        let value = key.at + key.count;
        let e = entry_typed(file, types, value, first, n, row, depth);
        if e == 0 {
            return 0;
        }
        seen = mark(n, seen, row);
        p = e;
    }
    if all_seen(types, seen, first, n) {
        p
    } else {
        0
    }
}

// The value at a place as `row_typed` has it: the commonest, short strings and lists, are found with no step into the recursion.
#[cycle(entries_typed_entry_typed_items_typed_row_typed_typed_at)]
fn entry_typed(
    file: &[u8],
    types: &[u8; TABLE_SIZE],
    at: usize,
    first: usize,
    n: usize,
    row: usize,
    depth: usize,
) -> usize
    requires { (types.now ≡ type_table) × ((first < 256) × (n < 64)) }
    ensures { ValueSays file.now (row_test row (rows_from (type_of depth) n first)) at result }
{
    let end = quick_row(file, types, at, first, n, row, depth);
    if 0 < end {
        return end;
    }
    row_typed(file, types, at, first, n, row, depth)
}

// Where a short string or a short array of integers at a place ends, if that is the type of a row; else 0.
fn quick_row(
    file: &[u8],
    types: &[u8; TABLE_SIZE],
    at: usize,
    first: usize,
    n: usize,
    row: usize,
    depth: usize,
) -> usize
    requires { (types.now ≡ type_table) × ((first < 256) × (n < 64)) }
    ensures { 0 < result → ValueSays file.now (row_test row (rows_from (type_of depth) n first)) at result }
{
    if depth == 0 {
        return 0;
    }
    if n <= row {
        return 0;
    }
    let code = cell(types, (first + row) * ROW_SIZE + ROWS_AT + 2);
    if code == A_STRING {
        return quick_end(file, at, STRING);
    }
    if code == INTEGERS {
        return quick_integers(file, at);
    }
    0
}

// Where an array of integers in their lead bytes ends, if its own lead byte has its count; of another value 0.
fn quick_integers(file: &[u8], at: usize) -> usize
    ensures { 0 < result → ValueSays file.now (typed (array_of (plain 1))) at result }
{
    if file.len() <= at {
        return 0;
    }
    let b = usize::from(file[at]);
    if b < 0x90 {
        return 0;
    }
    if 0xa0 <= b {
        return 0;
    }
    let n = b - 0x90;
    if values::all_low(file, at + 1, n) {
        return at + 1 + n;
    }
    0
}

// The value at a place by a type with no types inside: a value of a kind, or an array of those, or of exactly so many.
fn simple_at(file: &[u8], at: usize, tag: usize, many: usize, wanted: usize) -> usize
    requires { (tag < 3) × (wanted ≤ 4) }
    ensures { (f : ℕ → FieldType) → ValueSays file.now (typed (build f tag many wanted)) at result }
{
    if tag == 0 {
        return plain_at(file, at, wanted);
    }
    let Some(head) = heads::head_at(file, at) else {
        return 0;
    };
    let kind = head_kind(heads::kind_at(file, at));
    if kind != ARRAY {
        return 0;
    }
    if tag == 1 {
        return plain_items(file, head.number, head.end, wanted);
    }
    if head.number != many {
        return 0;
    }
    plain_items(file, head.number, head.end, wanted)
}

// The count values of an array from a place on, each of a kind: integers in their lead bytes all at once.
fn plain_items(file: &[u8], count: usize, at: usize, wanted: usize) -> usize
    requires { wanted ≤ 4 }
    ensures { ItemsSay file.now (typed (plain wanted)) count at result }
{
    if wanted == INTEGER && values::all_low(file, at, count) {
        return at + count;
    }
    plain_each(file, count, at, wanted)
}

// The count values of an array from a place on, each of a kind, one after another.
fn plain_each(file: &[u8], count: usize, at: usize, wanted: usize) -> usize
    requires { wanted ≤ 4 }
    ensures { ItemsSay file.now (typed (plain wanted)) count at result }
{
    let first = quick_items(file, count, at, wanted);
    let mut p = first.at;
    for _ in 0..first.left {
        let e = plain_at(file, p, wanted);
        if e == 0 {
            return 0;
        }
        p = e;
    }
    p
}

// Past the first of count values from a place on that are quickly found to be of a kind: a loop for each kind.
fn quick_items(file: &[u8], count: usize, at: usize, wanted: usize) -> Run
    ensures { RunSays file.now (typed (plain wanted)) count at result.left result.at }
{
    if wanted == STRING {
        return quick_run(file, count, at, STRING);
    }
    if wanted == FLOAT {
        return quick_run(file, count, at, FLOAT);
    }
    Run { at, left: count }
}

// Past the first of count values from a place on that are quickly found to be of a kind.
fn quick_run(file: &[u8], count: usize, at: usize, wanted: usize) -> Run
    ensures { RunSays file.now (typed (plain wanted)) count at result.left result.at }
{
    let mut p = at;
    for i in 0..count {
        let e = quick_end(file, p, wanted);
        if e == 0 {
            return Run {
                at: p,
                left: count - i,
            };
        }
        p = e;
    }
    Run { at: p, left: 0 }
}

// The value at a place, if it is of a kind.
fn plain_at(file: &[u8], at: usize, wanted: usize) -> usize
    requires { wanted ≤ 4 }
    ensures { ValueSays file.now (typed (plain wanted)) at result }
{
    let end = quick_end(file, at, wanted);
    if 0 < end {
        return end;
    }
    headed_at(file, at, wanted)
}

// Where the commonest values end, an integer in its lead byte, a float and a short string, if they are wanted; else 0.
fn quick_end(file: &[u8], at: usize, wanted: usize) -> usize
    ensures { 0 < result → ValueSays file.now (typed (plain wanted)) at result }
{
    if file.len() <= at {
        return 0;
    }
    let b = usize::from(file[at]);
    if wanted == INTEGER {
        if b < 0x80 {
            return at + 1;
        }
        return 0;
    }
    if wanted == FLOAT {
        return float_end(file, at);
    }
    if wanted != STRING {
        return 0;
    }
    if b < 0xa0 {
        return 0;
    }
    if 0xc0 <= b {
        return 0;
    }
    let n = b - 0xa0;
    if file.len() - at <= n {
        return 0;
    }
    at + 1 + n
}

// Where the float at a place ends; of another value 0.
fn float_end(file: &[u8], at: usize) -> usize
    requires { at < length file.now }
    ensures { 0 < result → ValueSays file.now (typed (plain 2)) at result }
{
    if file[at] != 0xca {
        return 0;
    }
    if file.len() - at < 5 {
        return 0;
    }
    at + 5
}

// The value at a place, if it is of a kind, by its head.
fn headed_at(file: &[u8], at: usize, wanted: usize) -> usize
    requires { wanted ≤ 4 }
    ensures { ValueSays file.now (typed (plain wanted)) at result }
{
    let Some(head) = heads::head_at(file, at) else {
        return 0;
    };
    let kind = head_kind(heads::kind_at(file, at));
    plain_end(file, kind, wanted, head.number, head.end)
}

// Where a value of a kind that holds no others ends, if that kind is wanted: its head holds n and ends at p.
fn plain_end(file: &[u8], kind: usize, wanted: usize, n: usize, p: usize) -> usize
    ensures { result ≡ plain_end (length file.now) kind wanted n p }
{
    if kind != wanted {
        return 0;
    }
    if !has_body(kind) {
        return p;
    }
    if file.len() < p {
        return 0;
    }
    if file.len() - p < n {
        return 0;
    }
    p + n
}

// Has a value of a kind a body after its head: is it a string or a binary?
fn has_body(kind: usize) -> bool
    ensures { result ≡ has_body kind }
{
    kind == STRING || kind == BINARY
}

// The kind of the document that a head of a kind begins, by its number; 0 of no kind.
fn head_kind(kind: Kind) -> usize
    ensures { result ≡ head_kind kind }
{
    match kind {
        Kind::Unsigned | Kind::Signed => INTEGER,
        Kind::Float => FLOAT,
        Kind::Str => STRING,
        Kind::Bin => BINARY,
        Kind::Array => ARRAY,
        Kind::Map => MAP,
        Kind::Outside | Kind::Missing => 0,
    }
}

// The first of the n rows from first on whose name the m bytes from a on are; n if there is none. Only the row of their hint can be it.
fn row_of(
    types: &[u8; TABLE_SIZE],
    file: &[u8],
    a: usize,
    m: usize,
    first: usize,
    n: usize,
) -> usize
    requires { (types.now ≡ type_table) × ((a + m ≤ length file.now) × ((first < 256) × ((n < 64) × (hinted n first ≡ true)))) }
    ensures { (f : ℕ → FieldType) → result ≡ find_row (take m (drop a file.now)) (rows_from f n first) }
{
    let i = hint(types, file, a, m, first);
    if n <= i {
        return n;
    }
    if !is_name(types, file, a, m, first + i) {
        return n;
    }
    i
}

// The hint of the m bytes from a on, by the first row of a map: a byte of the table, at a place that two of them and their length give.
fn hint(types: &[u8; TABLE_SIZE], file: &[u8], a: usize, m: usize, first: usize) -> usize
    requires { (types.now ≡ type_table) × ((a + m ≤ length file.now) × (first < 256)) }
    ensures { result ≡ hint_of first (take m (drop a file.now)) }
{
    let early = byte_of(file, a, m, 0);
    let late = byte_of(file, a, m, 3);
    cell(
        types,
        HINTS_AT + (early * 24 + late * 10 + m % 128 + first * 31) % 128,
    )
}

// Byte i of the m bytes from a on; 0 past their end.
fn byte_of(file: &[u8], a: usize, m: usize, i: usize) -> usize
    requires { a + m ≤ length file.now }
    ensures is { result ≡ get_or (take m (drop a file.now)) i 0 }
    ensures byte { result < 256 }
{
    if i < m {
        return usize::from(file[a + i]);
    }
    0
}

// Are the m bytes from a on the name of a row?
fn is_name(types: &[u8; TABLE_SIZE], file: &[u8], a: usize, m: usize, row: usize) -> bool
    requires { (types.now ≡ type_table) × ((a + m ≤ length file.now) × (row < all_rows)) }
    ensures { result ≡ equal (take m (drop a file.now)) (name_of row) }
{
    let start = row * ROW_SIZE + ROWS_AT;
    if m != cell(types, start) {
        return false;
    }
    let name = start + 3;
    let table = &types[..];
    same_words(&file[a..a + m], &table[name..name + m])
}

// Are two strings of four bytes or more and of one length the same? Four bytes are compared at a time, and the last four may overlap others.
// Byte by byte, as `==` does, was tried, and is slower (docs/PERFORMANCE.md, the verdict on small files). A `for` is no plainer: the step is four.
fn same_words(x: &[u8], y: &[u8]) -> bool
    requires { (length x.now ≡ length y.now) × (4 ≤ length x.now) }
    ensures { result ≡ equal x.now y.now }
{
    let last = x.len() - 4;
    let mut i: usize = 0;
    while i < last {
        if word(x, i) != word(y, i) {
            return false;
        }
        i += 4;
    }
    word(x, last) == word(y, last)
}

// The number in the four bytes from a place on.
fn word(bytes: &[u8], at: usize) -> u32
    requires { at + 4 ≤ length bytes.now }
    ensures { result ≡ unsigned_at 4 bytes.now at }
{
    numbers::read_u32(&bytes[at..at + 4], 0)
}

// Are the required ones of the n rows from first on all in a set? They are if all n are.
fn all_seen(types: &[u8; TABLE_SIZE], seen: u64, first: usize, n: usize) -> bool
    requires { (types.now ≡ type_table) × ((first < 256) × (n < 64)) }
    ensures { (f : ℕ → FieldType) → result ≡ covered (rows_from f n first) seen }
{
    if seen == full(n) {
        return true;
    }
    each_seen(types, seen, first, n)
}

// The set of all that are below n.
fn full(n: usize) -> u64
    requires { n < 64 }
    ensures { result + 1 ≡ 2 ^ n }
{
    (1u64 << n) - 1
}

// Are the required ones of the n rows from first on all in a set, one after another?
fn each_seen(types: &[u8; TABLE_SIZE], seen: u64, first: usize, n: usize) -> bool
    requires { (types.now ≡ type_table) × ((first < 256) × (n < 64)) }
    ensures { (f : ℕ → FieldType) → result ≡ covered (rows_from f n first) seen }
{
    let mut rest = seen;
    for i in 0..n {
        if lacks(cell(types, (first + i) * ROW_SIZE + ROWS_AT + 1), rest) {
            return false;
        }
        rest = rest / 2;
    }
    true
}

// Is a row required, and its bit, the lowest of a set, not there?
fn lacks(need: usize, seen: u64) -> bool
    ensures { result ≡ lacking need seen }
{
    need == 1 && seen % 2 != 1
}

// A byte of the table; 0 past its end.
fn cell(types: &[u8; TABLE_SIZE], i: usize) -> usize
    requires { types.now ≡ type_table }
    ensures is { result ≡ table_byte i }
    ensures byte { result < 256 }
{
    if i < TABLE_SIZE {
        usize::from(types[i])
    } else {
        0
    }
}

// The table of types.
fn types() -> [u8; TABLE_SIZE]
    ensures { result ≡ type_table }
{
    TYPES
}

// The kinds of documents by their numbers.
const INTEGER: usize = 1;

const FLOAT: usize = 2;

const STRING: usize = 3;

const BINARY: usize = 4;

const ARRAY: usize = 5;

const MAP: usize = 6;

// The types of a value that holds no others come first, in the order of the kinds.
const PLAIN_TYPES: usize = BINARY;

// The numbers of the types of a string and of an array of integers.
const A_STRING: usize = 2;

const INTEGERS: usize = 4;

// The row of the first named field, how many types have a number, and the levels of the deepest.
const FIRST_FIELD: usize = 16;

const CODE_COUNT: usize = 17;

const TYPE_DEPTH: usize = 5;

// Where the first row starts in the table, and the bytes of a row.
const ROWS_AT: usize = CODE_COUNT * 3;

const ROW_SIZE: usize = 22;

// Where the hints start.
const HINTS_AT: usize = ROWS_AT + (FIRST_FIELD + FIELD_COUNT) * ROW_SIZE;

// The bytes of the table.
const TABLE_SIZE: usize = HINTS_AT + 128;

// Three bytes for each type: 0 a value of a kind, 1 an array of values of a kind, 2 an array of exactly so many, 3 an array of values of a type,
// 4 a map; then how many values or rows; then the kind, the type or the first row. After these 22 bytes for each row: the length of its name,
// 1 if it is required, its type, and its name. The named fields are the last rows. Then 128 hints: the row of the name that has its hint there,
// counted from the first of its map; 255 of none.
const TYPES: [u8; TABLE_SIZE] = *b"\x00\x00\x01\x00\x00\x02\x00\x00\x03\x00\x00\x04\
    \x01\x00\x01\x01\x00\x03\x02\x06\x02\x02\x10\x02\x03\x00\x07\
    \x04\x08\x00\x03\x00\x09\x04\x02\x08\x03\x00\x0b\
    \x04\x02\x0a\x03\x00\x0d\x04\x04\x0c\x03\x00\x0f\
    \x09\x01\x02groupName..........\
    \x10\x01\x02singleLetterCode...\
    \x0c\x01\x02chemCompType.......\
    \x10\x01\x04formalChargeList...\
    \x0c\x01\x05atomNameList.......\
    \x0b\x01\x05elementList........\
    \x0c\x00\x04bondAtomList.......\
    \x0d\x00\x04bondOrderList......\
    \x0e\x01\x04chainIndexList.....\
    \x06\x01\x07matrix.............\
    \x04\x01\x02name...............\
    \x0d\x01\x0ctransformList......\
    \x0e\x01\x04chainIndexList.....\
    \x0b\x01\x02description........\
    \x04\x01\x02type...............\
    \x08\x01\x02sequence...........\
    \x0b\x01\x02mmtfVersion........\
    \x0c\x01\x02mmtfProducer.......\
    \x08\x01\x00numBonds...........\
    \x08\x01\x00numAtoms...........\
    \x09\x01\x00numGroups..........\
    \x09\x01\x00numChains..........\
    \x09\x01\x00numModels..........\
    \x09\x01\x0agroupList..........\
    \x0a\x01\x03xCoordList.........\
    \x0a\x01\x03yCoordList.........\
    \x0a\x01\x03zCoordList.........\
    \x0b\x01\x03groupIdList........\
    \x0d\x01\x03groupTypeList......\
    \x0b\x01\x03chainIdList........\
    \x0e\x01\x04groupsPerChain.....\
    \x0e\x01\x04chainsPerModel.....\
    \x0c\x00\x03bondAtomList.......\
    \x0d\x00\x03bondOrderList......\
    \x0b\x00\x03bFactorList........\
    \x0a\x00\x03atomIdList.........\
    \x0a\x00\x03altLocList.........\
    \x0d\x00\x03occupancyList......\
    \x0d\x00\x03secStructList......\
    \x0b\x00\x03insCodeList........\
    \x0e\x00\x03sequenceIdList.....\
    \x0d\x00\x03chainNameList......\
    \x05\x00\x02title..............\
    \x0b\x00\x02structureId........\
    \x0a\x00\x02spaceGroup.........\
    \x0e\x00\x02depositionDate.....\
    \x0b\x00\x02releaseDate........\
    \x0a\x00\x01resolution.........\
    \x05\x00\x01rFree..............\
    \x05\x00\x01rWork..............\
    \x08\x00\x06unitCell...........\
    \x13\x00\x05experimentalMethods\
    \x0f\x00\x08ncsOperatorList....\
    \x0f\x00\x0ebioAssemblyList....\
    \x0a\x00\x10entityList.........\
    \x1f\xff\xff\x16\xff\xff\xff\xff\xff\x12\x14\xff\x26\x1a\xff\x04\
    \x08\xff\xff\xff\x10\x11\x02\x20\xff\x21\xff\xff\xff\x1e\xff\xff\
    \x1c\xff\xff\xff\x06\x07\xff\xff\x09\xff\x01\xff\xff\xff\xff\x00\
    \x01\xff\xff\x07\x1d\x0b\xff\x0c\x0e\x25\xff\xff\xff\x01\xff\xff\
    \x0a\xff\xff\x00\xff\x05\xff\xff\xff\xff\x02\x06\xff\xff\xff\xff\
    \xff\xff\x03\xff\x13\x1b\x03\xff\x18\xff\xff\xff\x02\x0d\x01\x19\
    \x0f\xff\x03\xff\x00\x24\x04\x05\x00\xff\xff\xff\xff\x23\xff\x01\
    \xff\x17\xff\xff\xff\xff\xff\x15\x22\xff\xff\xff\x00\xff\xff\xff";
