// A group type at a place of a file: its atoms and bonds, and rule 5 of paper 01, "Counts that must agree". One pass over its entries notes
// where its lists stand. Each function takes any bytes and any place, and promises a meaning for a file that has been walked.
ghost use Rattle.std.specs.Prelude.{◌≡◌, cond, ◌&&◌, eqb, ◌+◌, ◌-◌, ◌*◌, ◌/◌, ◌%◌, ◌<◌};
ghost use Rattle.refusal.specs.Outcome.{number_of};
ghost use Rattle.values.specs.Parts.{entries_of};
ghost use Rattle.values.specs.Walked.{Short, Walked, WalkedEntries, WalkedPlace, WalkedOver};
ghost use Rattle.values.specs.Integers.{integers_in};
ghost use Rattle.counts.specs.Group.{orders_right, group_number};
ghost use Rattle.counts.specs.GroupPlaces.{noted, agrees, WalkedLists, Lengths, GroupSays, FoundIn, no_lists};

use heads::Kind;
use refusal::Refusal;

// Where the lists of a group type stand; 0 for one that is not there.
#[derive(Clone, Copy)]
pub struct Places {
    pub charges: usize,
    pub names: usize,
    pub elements: usize,
    pub bonds: usize,
    pub orders: usize,
}

// No lists.
const NO_PLACES: Places = Places {
    charges: 0,
    names: 0,
    elements: 0,
    bonds: 0,
    orders: 0,
};

// Where the lists of a group type stand, and where it ends.
#[derive(Clone, Copy)]
pub struct Found {
    pub places: Places,
    pub end: usize,
}

// The atoms and bonds of a group type that keeps rule 5, and where it ends.
#[derive(Clone, Copy)]
pub struct Group {
    pub atoms: u32,
    pub bonds: u32,
    pub end: usize,
}

// The group type at a place, or its refusal by rule 5. A file is short, by the clause, so that `%` changes no number: it is there for longer ones.
pub fn group_at(file: &[u8], at: usize) -> Result<Group, Refusal>
    ensures { Short file.now → Walked file.now at (λ x e. GroupSays x e result) }
{
    let found = places_at(file, at);
    let places = found.places;
    let atoms = values::lists::length_at(file, places.names).unwrap_or(0);
    let charges = values::lists::length_at(file, places.charges).unwrap_or(0);
    let elements = values::lists::length_at(file, places.elements).unwrap_or(0);
    let bonds = values::lists::length_at(file, places.bonds);
    let orders = values::lists::length_at(file, places.orders);
    judge(file, places, atoms, charges, elements, bonds, orders)?;
    Ok(Group {
        atoms: (atoms % 4294967296) as u32,
        bonds: (bonds.unwrap_or(0) / 2 % 4294967296) as u32,
        end: found.end,
    })
}

// The refusal of a group type by rule 5, when its lists have been found.
fn judge(
    file: &[u8],
    places: Places,
    atoms: usize,
    charges: usize,
    elements: usize,
    bonds: Option<usize>,
    orders: Option<usize>,
) -> Result<(), Refusal>
    ensures { WalkedLists file.now places (λ x. Lengths x atoms charges elements bonds orders → number_of result ≡ group_number x) }
{
    refusal::unless(
        lists_agree(atoms, charges, elements, bonds, orders),
        Refusal::CountsDisagree,
    )?;
    refusal::unless(
        values::lists::inside(file, places.bonds, atoms),
        Refusal::IndexOutside,
    )?;
    refusal::unless(orders_right(file, places.orders), Refusal::ValueOutside)
}

// Whether there is a charge and an element for each atom, and the bonds agree with the orders.
fn lists_agree(
    atoms: usize,
    charges: usize,
    elements: usize,
    bonds: Option<usize>,
    orders: Option<usize>,
) -> bool
    ensures { result ≡ (eqb charges atoms && (eqb elements atoms && agrees bonds orders)) }
{
    charges == atoms && elements == atoms && bonds_agree(bonds, orders)
}

// Whether bond indices come in pairs, and orders are one for each pair and never without indices; by their lengths, where they are there.
pub fn bonds_agree(bonds: Option<usize>, orders: Option<usize>) -> bool
    ensures { result ≡ agrees bonds orders }
{
    match (bonds, orders) {
        (None, None) => true,
        (None, Some(_)) => false,
        (Some(bonds), None) => bonds % 2 == 0,
        (Some(bonds), Some(orders)) => bonds % 2 == 0 && orders == bonds / 2,
    }
}

// Whether the integers of the array at a place are 1 to 4; a place 0 has none.
fn orders_right(file: &[u8], at: usize) -> bool
    ensures { WalkedPlace file.now at (λ o. result ≡ orders_right (integers_in o)) }
{
    at == 0 || values::lists::all_between(file, at, 1, 4)
}

// Where the lists of the group type at a place stand, and where it ends; a value that is no map has none.
fn places_at(file: &[u8], at: usize) -> Found
    ensures { Walked file.now at (λ x e. FoundIn file.now (entries_of x) e result) }
{
    let Some(head) = heads::head_at(file, at) else {
        return no_lists(file, at);
    };
    match heads::kind_at(file, at) {
        Kind::Map => places_from(file, head.number, head.end),
        _ => no_lists(file, at),
    }
}

// No lists, and where the value at a place, which is no map, ends.
fn no_lists(file: &[u8], at: usize) -> Found
    ensures { (result.places ≡ no_lists) × WalkedOver file.now at (λ e. result.end ≡ e) }
{
    Found {
        places: NO_PLACES,
        end: values::skip(file, at),
    }
}

// Where the lists of a group type with n entries from a place on stand, and where these end.
fn places_from(file: &[u8], n: usize, at: usize) -> Found
    ensures { WalkedEntries file.now n at (λ es e. FoundIn file.now es e result) }
{
    let mut places = NO_PLACES;
    let mut p = at;
    for _ in 0..n {
        let key = values::text_at(file, p);
        let value = key.at + key.count;
        places = note(&file[key.at..value], value, places);
        p = values::skip(file, value);
    }
    Found { places, end: p }
}

// The places with a value under a key more.
fn note(key: &[u8], value: usize, places: Places) -> Places
    ensures { result ≡ noted key.now value places }
{
    Places {
        charges: pick(
            text::same_bytes(key, b"formalChargeList"),
            value,
            places.charges,
        ),
        names: pick(text::same_bytes(key, b"atomNameList"), value, places.names),
        elements: pick(
            text::same_bytes(key, b"elementList"),
            value,
            places.elements,
        ),
        bonds: pick(text::same_bytes(key, b"bondAtomList"), value, places.bonds),
        orders: pick(
            text::same_bytes(key, b"bondOrderList"),
            value,
            places.orders,
        ),
    }
}

// The first of two values where a test holds, else the second.
pub fn pick(test: bool, a: usize, b: usize) -> usize
    ensures { result ≡ cond test a b }
{
    if test { a } else { b }
}
