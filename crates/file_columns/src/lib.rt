// The columns of a file at their places: the refusal of the first that has one, their lengths, and what their cells add up to. The table of
// columns is gone through by numbers, which stand for the rows of specs/Columns.antt. Each function takes any bytes and any places, and promises
// a meaning for a file that has been walked (`Walked.antt` of values).
#![tactic(auto)]

pub mod whole;

ghost use Rattle.std.specs.Prelude.{◌≡◌, ◌<◌, slice_index};
ghost use Rattle.refusal.specs.Outcome.{number_of};
ghost use Rattle.values.specs.Walked.{WalkedPlace};
ghost use Rattle.numbers.specs.BigEndian.{unsigned_at};
ghost use Rattle.numbers.specs.Ranges.{all_between};
ghost use Rattle.values.specs.Integers.{list_in};
ghost use Rattle.fields.specs.Table.{field_count};
ghost use Rattle.file_columns.specs.Columns.{columns_number, column_number, cells_in, column_length, lengths_of, has_entries, fits_level, lengths_fit};
ghost use Rattle.file_columns.specs.Steps.{WalkedFields, WalkedColumns, WalkedColumn, TotalsIn, column_count};
ghost use Rattle.file_columns.specs.Steps.{field_numbers, wanted_numbers, level_numbers, wanted_from, level_from};

use crate::whole::Sums;
use columns::{Kind, Wanted};
use refusal::Refusal;

// How many columns are named.
const COLUMN_COUNT: usize = 16;

// The fields of the columns, in field order.
const FIELDS: [usize; COLUMN_COUNT] = [
    fields::X_COORD_LIST,
    fields::Y_COORD_LIST,
    fields::Z_COORD_LIST,
    fields::GROUP_ID_LIST,
    fields::GROUP_TYPE_LIST,
    fields::CHAIN_ID_LIST,
    fields::BOND_ATOM_LIST,
    fields::BOND_ORDER_LIST,
    fields::B_FACTOR_LIST,
    fields::ATOM_ID_LIST,
    fields::ALT_LOC_LIST,
    fields::OCCUPANCY_LIST,
    fields::SEC_STRUCT_LIST,
    fields::INS_CODE_LIST,
    fields::SEQUENCE_ID_LIST,
    fields::CHAIN_NAME_LIST,
];

// The kinds of the columns: 0 real, 2 int8, 4 int32, 5 strings, 6 chars.
const KINDS: [u8; COLUMN_COUNT] = [0, 0, 0, 4, 4, 5, 4, 2, 0, 4, 6, 0, 2, 6, 4, 5];

// What each column has one entry for: 0 an atom, 1 a group, 2 a chain, 3 a bond.
const LEVELS: [u8; COLUMN_COUNT] = [0, 0, 0, 1, 1, 2, 3, 3, 0, 0, 0, 0, 1, 1, 1, 2];

// The refusal of the first column of a file that has one, 14 to 19.
pub fn columns_refusal(file: &[u8], places: &[usize; fields::FIELD_COUNT]) -> Result<(), Refusal>
    ensures { WalkedFields file.now places.now (λ es. number_of result ≡ columns_number es) }
{
    for i in 0..COLUMN_COUNT {
        refusal_at(file, places[field_of(i)], kind_of(i))?;
    }
    Ok(())
}

// Whether each column of a file has one entry for each atom, group or chain.
pub fn lengths_fit(
    file: &[u8],
    places: &[usize; fields::FIELD_COUNT],
    atoms: usize,
    groups: usize,
    chains: usize,
) -> bool
    ensures { WalkedColumns file.now places.now (λ es. result ≡ lengths_fit (lengths_of es) atoms groups chains) }
{
    for i in 0..COLUMN_COUNT {
        let list = length_at(file, places[field_of(i)], kind_of(i));
        if !fits_level(list, level_of(i), atoms, groups, chains) {
            return false;
        }
    }
    true
}

// Whether a column has as many entries as there are atoms, groups or chains, by its level; of bonds it may have any number.
fn fits_level(list: Option<usize>, level: usize, atoms: usize, groups: usize, chains: usize) -> bool
    ensures { result ≡ fits_level (level_from level) atoms groups chains list }
{
    match level {
        0 => has_entries(list, atoms),
        1 => has_entries(list, groups),
        2 => has_entries(list, chains),
        _ => true,
    }
}

// Whether a column, if it is there, has so many entries.
fn has_entries(list: Option<usize>, count: usize) -> bool
    ensures { result ≡ has_entries count list }
{
    match list {
        Some(n) => n == count,
        None => true,
    }
}

// The length of the column at a place that decodes; a place 0 has none.
pub fn length_at(file: &[u8], at: usize, wanted: Wanted) -> Option<usize>
    ensures { WalkedColumn file.now at wanted (λ o. result ≡ column_length wanted o) }
{
    if at == 0 {
        return None;
    }
    let part = values::text_at(file, at);
    Some(stated_length(&file[part.at..part.at + part.count]))
}

// The length that a column's header states.
fn stated_length(column: &[u8]) -> usize
    ensures { result ≡ unsigned_at 4 column.now 4 }
{
    numbers::read_u32(column, 4) as usize
}

// The refusal of the column at a place, 14 to 19, where it has one; a place 0 has none.
fn refusal_at(file: &[u8], at: usize, wanted: Wanted) -> Result<(), Refusal>
    ensures { WalkedPlace file.now at (λ o. number_of result ≡ column_number wanted o) }
{
    if at == 0 {
        return Ok(());
    }
    let part = values::text_at(file, at);
    crate::whole::check(&file[part.at..part.at + part.count], wanted)?;
    Ok(())
}

// Whether the cells of the column at a place, which decodes, lie between two numbers; a place 0 has none.
pub fn all_between(file: &[u8], at: usize, wanted: Wanted, low: i32, high: i32) -> bool
    ensures { WalkedColumn file.now at wanted (λ o. result ≡ all_between low high (list_in (cells_in wanted o))) }
{
    if at == 0 {
        return true;
    }
    let part = values::text_at(file, at);
    crate::whole::all_between(&file[part.at..part.at + part.count], wanted, low, high)
}

// The sums of two tables over the cells of the int32 column at a place, where all are indices of the first `types` entries; else none.
pub fn totals(file: &[u8], at: usize, types: usize, atoms: &[u32], bonds: &[u32]) -> Option<Sums>
    ensures { WalkedPlace file.now at (λ o. TotalsIn at types atoms.now bonds.now o result) }
{
    let part = values::text_at(file, at);
    crate::whole::totals(&file[part.at..part.at + part.count], types, atoms, bonds)
}

// The field of column i.
fn field_of(i: usize) -> usize
    requires { i < column_count }
    ensures { (result ≡ slice_index field_numbers i) × (result < field_count) }
{
    FIELDS[i]
}

// The kind of column i.
fn kind_of(i: usize) -> Wanted
    requires { i < column_count }
    ensures { result ≡ wanted_from (slice_index wanted_numbers i) }
{
    match KINDS[i] {
        0 => Wanted::Real,
        2 => Wanted::Only(Kind::Int8),
        4 => Wanted::Only(Kind::Int32),
        5 => Wanted::Only(Kind::Strings),
        _ => Wanted::Only(Kind::Chars),
    }
}

// What column i has one entry for.
fn level_of(i: usize) -> usize
    requires { i < column_count }
    ensures { result ≡ slice_index level_numbers i }
{
    usize::from(LEVELS[i])
}
