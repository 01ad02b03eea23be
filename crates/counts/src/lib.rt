// The eleven rules of paper 01, "Counts that must agree", in their order; specs/Counts.antt has each as a definition. Rule 4 is judged by
// `file_columns`, rule 5 for one group type by the module `groups`, and rule 11 for one list by the module `indices`. Each function takes any
// bytes and any places, and promises a meaning for a file that has been walked.
#![tactic(auto)]

mod groups;
mod indices;

ghost use Rattle.std.specs.Prelude.{◌≡◌, suc, ◌+◌, ◌≤◌, eqb, leb, length};
ghost use Rattle.refusal.specs.Outcome.{number_of};
ghost use Rattle.values.specs.Parts.{integer_of};
ghost use Rattle.values.specs.Walked.{Walked};
ghost use Rattle.file_columns.specs.Cells.{type_limit};
ghost use Rattle.file_columns.specs.Passing.{Hold};
ghost use Rattle.messagepack.specs.Document.{count};
ghost use Rattle.counts.specs.Group.{atoms_of, bonds_of, groups_number};
ghost use Rattle.counts.specs.Counts.{count_limit, counts_number, outer_inside, outer_right, values_right, indices_inside};
ghost use Rattle.counts.specs.Steps.{WalkedCounted, WalkedCounts, WalkedTypes, as_count, CountsIn, Small, counts_fit, chains_fit, chains_part};
ghost use Rattle.counts.specs.Steps.{FewTypes, table_of, totals_number, groups_part, values_part};

use columns::{Kind, Wanted};
use file_columns::whole::Sums;
use refusal::Refusal;

// The most models, chains, groups, atoms or bonds.
pub const COUNT_LIMIT: usize = 16_777_216;

// So many group types, which most files have at most, have smaller tables: to clear the large ones would cost more than all else of a small file.
const FEW_TYPES: usize = 128;

// The five num fields; one that is out of range is one above the limit.
#[derive(Clone, Copy)]
pub struct Counts {
    pub bonds: usize,
    pub atoms: usize,
    pub groups: usize,
    pub chains: usize,
    pub models: usize,
}

// The refusal by the rules of counts in their order, 20 to 23, or none. Rule 1 (at most 4,096 group types) and rule 4 (column lengths) are judged here.
pub fn refusal_of(file: &[u8], places: &[usize; fields::FIELD_COUNT]) -> Result<(), Refusal>
    ensures { WalkedCounted file.now places.now (λ f. number_of result ≡ counts_number f) }
{
    let types = values::lists::length_at(file, places[fields::GROUP_LIST]).unwrap_or(0);
    refusal::unless(types_fit(types), Refusal::TooManyGroupTypes)?;
    let counts = counts_at(file, places);
    chains_refusal(file, places, counts)?;
    let fit = file_columns::lengths_fit(file, places, counts.atoms, counts.groups, counts.chains);
    refusal::unless(fit, Refusal::CountsDisagree)?;
    groups_refusal(file, places, counts)?;
    values_refusal(file, places, counts)
}

// Rule 1: whether there are no more group types than there may be.
fn types_fit(types: usize) -> bool
    ensures { result ≡ leb types type_limit }
{
    types <= file_columns::whole::TYPE_LIMIT
}

// Rules 2 and 3: the num fields, and the entries of chainsPerModel and groupsPerChain with their sums.
fn chains_refusal(
    file: &[u8],
    places: &[usize; fields::FIELD_COUNT],
    counts: Counts,
) -> Result<(), Refusal>
    ensures { WalkedCounted file.now places.now (λ f. CountsIn f counts → number_of result ≡ chains_part f) }
{
    refusal::unless(counts_fit(counts), Refusal::ValueOutside)?;
    let per_chain = places[fields::GROUPS_PER_CHAIN];
    let per_model = places[fields::CHAINS_PER_MODEL];
    let groups = values::lists::sum_at(file, per_chain).ok_or(Refusal::ValueOutside)?;
    let chains = values::lists::sum_at(file, per_model).ok_or(Refusal::ValueOutside)?;
    let models = values::lists::length_at(file, per_model).unwrap_or(0);
    let ends = values::lists::length_at(file, per_chain).unwrap_or(0);
    refusal::unless(
        chains_agree(counts, models, chains, ends, groups),
        Refusal::CountsDisagree,
    )
}

// Rule 2: the five num fields at their places, as counts.
pub fn counts_at(file: &[u8], places: &[usize; fields::FIELD_COUNT]) -> Counts
    ensures small { Small result }
    ensures fields { WalkedCounted file.now places.now (λ f. CountsIn f result) }
{
    Counts {
        bonds: count_at(file, places[fields::NUM_BONDS]),
        atoms: count_at(file, places[fields::NUM_ATOMS]),
        groups: count_at(file, places[fields::NUM_GROUPS]),
        chains: count_at(file, places[fields::NUM_CHAINS]),
        models: count_at(file, places[fields::NUM_MODELS]),
    }
}

// Rule 2: the integer at a place as a count; one above the limit where it is out of range.
fn count_at(file: &[u8], at: usize) -> usize
    ensures small { result ≤ suc count_limit }
    ensures integer { Walked file.now at (λ x e. result ≡ as_count (integer_of x)) }
{
    as_count(values::integer_at(file, at))
}

// Rule 2: an integer as a count; one above the limit where it is out of range.
fn as_count(number: i32) -> usize
    ensures { result ≡ as_count number }
{
    if number < 0 {
        return COUNT_LIMIT + 1;
    }
    (number as usize).min(COUNT_LIMIT + 1)
}

// Rule 2: whether the five num fields are in range.
fn counts_fit(counts: Counts) -> bool
    ensures { result ≡ counts_fit counts }
{
    counts.bonds <= COUNT_LIMIT
        && counts.atoms <= COUNT_LIMIT
        && counts.groups <= COUNT_LIMIT
        && counts.chains <= COUNT_LIMIT
        && counts.models <= COUNT_LIMIT
}

// Rule 3: whether models, chains and groups are as many as chainsPerModel and groupsPerChain say: their entries, and the sums of these.
fn chains_agree(counts: Counts, models: usize, chains: u64, ends: usize, groups: u64) -> bool
    ensures { result ≡ chains_fit counts models chains ends groups }
{
    models == counts.models
        && chains == counts.chains as u64
        && ends == counts.chains
        && groups == counts.groups as u64
}

// Rules 5 to 8: each group type, the groups that are of them, and the atoms and bonds that these add up to. A table for few types is smaller.
fn groups_refusal(
    file: &[u8],
    places: &[usize; fields::FIELD_COUNT],
    counts: Counts,
) -> Result<(), Refusal>
    ensures { WalkedCounts file.now places.now counts (λ f. FewTypes f → number_of result ≡ groups_part f) }
{
    let types = values::lists::length_at(file, places[fields::GROUP_LIST]).unwrap_or(0);
    if types <= FEW_TYPES {
        let mut atoms = [0; FEW_TYPES];
        let mut bonds = [0; FEW_TYPES];
        return types_refusal(file, places, counts, &mut atoms, &mut bonds);
    }
    let mut atoms = [0; file_columns::whole::TYPE_LIMIT];
    let mut bonds = [0; file_columns::whole::TYPE_LIMIT];
    types_refusal(file, places, counts, &mut atoms, &mut bonds)
}

// Rules 5 to 8 by tables that have an entry for each type.
fn types_refusal(
    file: &[u8],
    places: &[usize; fields::FIELD_COUNT],
    counts: Counts,
    atoms: &mut [u32],
    bonds: &mut [u32],
) -> Result<(), Refusal>
    ensures { WalkedCounts file.now places.now counts (λ f. Hold (count f.groupList) atoms.old bonds.old → number_of result ≡ groups_part f) }
{
    let list = values::items_at(file, places[fields::GROUP_LIST]);
    let n = list.count;
    if atoms.len() < n || bonds.len() < n {
        return Err(Refusal::TooManyGroupTypes);
    }
    fill_tables(file, n, list.at, atoms, bonds)?;
    let int32 = Wanted::Only(Kind::Int32);
    let sums = file_columns::totals(file, places[fields::GROUP_TYPE_LIST], n, atoms, bonds);
    let outer = file_columns::length_at(file, places[fields::BOND_ATOM_LIST], int32);
    let orders = file_columns::length_at(
        file,
        places[fields::BOND_ORDER_LIST],
        Wanted::Only(Kind::Int8),
    );
    totals_refusal(sums, outer, orders, counts)
}

// Rule 5 for n group types from a place on: the refusal of the first that has one, or none, with the atoms and bonds of each type in the tables.
fn fill_tables(
    file: &[u8],
    n: usize,
    at: usize,
    atoms: &mut [u32],
    bonds: &mut [u32],
) -> Result<(), Refusal>
    requires { Hold n atoms.old bonds.old }
    ensures number { WalkedTypes file.now n at (λ ts. number_of result ≡ groups_number ts) }
    ensures atoms { WalkedTypes file.now n at (λ ts. atoms.new ≡ table_of atoms_of ts atoms.old) }
    ensures bonds { WalkedTypes file.now n at (λ ts. bonds.new ≡ table_of bonds_of ts bonds.old) }
{
    let mut p = at;
    // By an index, since two tables are filled side by side, each up to n.
    for i in 0..n {
        let group = crate::groups::group_at(file, p)?;
        atoms[i] = group.atoms;
        bonds[i] = group.bonds;
        p = group.end;
    }
    Ok(())
}

// Rule 6 (groups are of types that there are), rule 7 (their atoms are numAtoms) and rule 8 (their bonds and the pairs outside are numBonds, and
// the orders outside agree) by the sums over all groups.
fn totals_refusal(
    sums: Option<Sums>,
    outer: Option<usize>,
    orders: Option<usize>,
    counts: Counts,
) -> Result<(), Refusal>
    ensures { number_of result ≡ totals_number sums outer orders counts }
{
    let sums = sums.ok_or(Refusal::IndexOutside)?;
    refusal::unless(sums.atoms == counts.atoms as u64, Refusal::CountsDisagree)?;
    let pairs = (outer.unwrap_or(0) / 2) as u64;
    refusal::unless(
        adds_up(sums.bonds, pairs, counts.bonds as u64)
            && crate::groups::bonds_agree(outer, orders),
        Refusal::CountsDisagree,
    )
}

// Rule 8: whether two numbers add up to a third.
fn adds_up(a: u64, b: u64, sum: u64) -> bool
    ensures { result ≡ eqb (a + b) sum }
{
    a <= sum && sum - a == b
}

// Rules 9 to 11: the bonds outside, the listed values, and the chains that entities and transforms list.
fn values_refusal(
    file: &[u8],
    places: &[usize; fields::FIELD_COUNT],
    counts: Counts,
) -> Result<(), Refusal>
    ensures { WalkedCounts file.now places.now counts (λ f. number_of result ≡ values_part f) }
{
    refusal::unless(outer_inside(file, places, counts), Refusal::IndexOutside)?;
    refusal::unless(outer_right(file, places), Refusal::ValueOutside)?;
    refusal::unless(values_right(file, places), Refusal::ValueOutside)?;
    refusal::unless(indices_inside(file, places, counts), Refusal::IndexOutside)
}

// Rule 9: whether the bonds outside are between atoms that there are.
fn outer_inside(file: &[u8], places: &[usize; fields::FIELD_COUNT], counts: Counts) -> bool
    ensures { WalkedCounts file.now places.now counts (λ f. result ≡ outer_inside f) }
{
    let int32 = Wanted::Only(Kind::Int32);
    let last = numbers::last_index(counts.atoms);
    file_columns::all_between(file, places[fields::BOND_ATOM_LIST], int32, 0, last)
}

// Rule 9: whether the orders of the bonds outside are 1 to 4.
fn outer_right(file: &[u8], places: &[usize; fields::FIELD_COUNT]) -> bool
    ensures { WalkedCounted file.now places.now (λ f. result ≡ outer_right f) }
{
    let int8 = Wanted::Only(Kind::Int8);
    file_columns::all_between(file, places[fields::BOND_ORDER_LIST], int8, 1, 4)
}

// Rule 10: whether secStructList is -1 to 7, and sequenceIdList at least -1.
fn values_right(file: &[u8], places: &[usize; fields::FIELD_COUNT]) -> bool
    ensures { WalkedCounted file.now places.now (λ f. result ≡ values_right f) }
{
    let int8 = Wanted::Only(Kind::Int8);
    let int32 = Wanted::Only(Kind::Int32);
    file_columns::all_between(file, places[fields::SEC_STRUCT_LIST], int8, -1, 7)
        && file_columns::all_between(file, places[fields::SEQUENCE_ID_LIST], int32, -1, i32::MAX)
}

// Rule 11: whether entities, then the transforms of assemblies, list chains that there are.
fn indices_inside(file: &[u8], places: &[usize; fields::FIELD_COUNT], counts: Counts) -> bool
    ensures { WalkedCounts file.now places.now counts (λ f. result ≡ indices_inside f) }
{
    crate::indices::all_inside(file, places[fields::ENTITY_LIST], counts.chains)
        && crate::indices::assemblies_inside(file, places[fields::BIO_ASSEMBLY_LIST], counts.chains)
}
