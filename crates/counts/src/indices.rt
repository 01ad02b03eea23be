// Rule 11 of paper 01, "Counts that must agree": whether the chains that entities and transforms list are inside the chains. Each function takes
// any bytes and any place, and promises a meaning for a file that has been walked; a place 0 has no document.
ghost use Rattle.std.specs.Prelude.{◌≡◌};
ghost use Rattle.text.specs.Ascii.{ascii};
ghost use Rattle.text.specs.Equal.{equal};
ghost use Rattle.values.specs.Walked.{Walked, WalkedAll, WalkedEntries, WalkedOver, WalkedPlace};
ghost use Rattle.values.specs.Parts.{entries_of, items_in};
ghost use Rattle.fields.specs.Tests.{all};
ghost use Rattle.counts.specs.Indices.{chains_inside, transforms_inside};
ghost use Rattle.counts.specs.IndexPlaces.{ListIn};

use heads::Kind;

// Where the list of chains of a map stands, 0 where there is none, and where the map ends.
#[derive(Clone, Copy)]
pub struct List {
    pub at: usize,
    pub end: usize,
}

// Whether each map of the array at a place, an entity or a transform, lists indices of chains only.
pub fn all_inside(file: &[u8], at: usize, chains: usize) -> bool
    ensures { WalkedPlace file.now at (λ o. result ≡ all (chains_inside chains) (items_in o)) }
{
    if at == 0 {
        return true;
    }
    let part = values::items_at(file, at);
    inside_from(file, part.count, part.at, chains)
}

// Whether each of n maps from a place on lists indices of chains only.
fn inside_from(file: &[u8], n: usize, at: usize, chains: usize) -> bool
    ensures { WalkedAll file.now n at (λ ds e. result ≡ all (chains_inside chains) ds) }
{
    let mut p = at;
    for _ in 0..n {
        let list = list_at(file, p);
        if !values::lists::inside(file, list.at, chains) {
            return false;
        }
        p = list.end;
    }
    true
}

// The list of chains of the map at a place, and where the map ends; a value that is no map has none.
fn list_at(file: &[u8], at: usize) -> List
    ensures { Walked file.now at (λ x e. ListIn file.now (entries_of x) e result) }
{
    let Some(head) = heads::head_at(file, at) else {
        return no_list(file, at);
    };
    match heads::kind_at(file, at) {
        Kind::Map => list_from(file, head.number, head.end),
        _ => no_list(file, at),
    }
}

// No list, and where the value at a place, which is no map, ends.
fn no_list(file: &[u8], at: usize) -> List
    ensures { (result.at ≡ 0) × WalkedOver file.now at (λ e. result.end ≡ e) }
{
    List {
        at: 0,
        end: values::skip(file, at),
    }
}

// The list of chains among n entries from a place on, and where these end.
fn list_from(file: &[u8], n: usize, at: usize) -> List
    ensures { WalkedEntries file.now n at (λ es e. ListIn file.now es e result) }
{
    let mut found: usize = 0;
    let mut p = at;
    for _ in 0..n {
        let key = values::key_at(file, p);
        let value = key.at + key.count;
        if is_list(&file[key.at..value]) {
            found = value;
        }
        p = past_value(file, value);
    }
    List { at: found, end: p }
}

// Whether a key is that of a list of chains.
fn is_list(key: &[u8]) -> bool
    ensures { result ≡ equal key.now (ascii "chainIndexList") }
{
    text::same_bytes(key, b"chainIndexList")
}

// Where the value at a place ends: the commonest, short strings and short lists of integers, are found first.
fn past_value(file: &[u8], at: usize) -> usize
    ensures { WalkedOver file.now at (λ e. result ≡ e) }
{
    if at < file.len() {
        match file[at] {
            b @ 0x90..=0x9f => {
                let count = usize::from(b - 0x90);
                if values::all_low(file, at + 1, count) {
                    return at + 1 + count;
                }
            }
            b @ 0xa0..=0xbf => {
                let n = usize::from(b - 0xa0);
                if n < file.len() - at {
                    return at + 1 + n;
                }
            }
            _ => {}
        }
    }
    values::skip(file, at)
}

// Whether the transforms of each assembly of the array at a place list indices of chains only.
pub fn assemblies_inside(file: &[u8], at: usize, chains: usize) -> bool
    ensures { WalkedPlace file.now at (λ o. result ≡ all (transforms_inside chains) (items_in o)) }
{
    if at == 0 {
        return true;
    }
    let part = values::items_at(file, at);
    assemblies_from(file, part.count, part.at, chains)
}

// Whether the transforms of each of n assemblies from a place on list indices of chains only.
fn assemblies_from(file: &[u8], n: usize, at: usize, chains: usize) -> bool
    ensures { WalkedAll file.now n at (λ ds e. result ≡ all (transforms_inside chains) ds) }
{
    let mut p = at;
    for _ in 0..n {
        if !transforms_inside(file, p, chains) {
            return false;
        }
        p = values::skip(file, p);
    }
    true
}

// Whether the transforms of the assembly at a place list indices of chains only.
fn transforms_inside(file: &[u8], at: usize, chains: usize) -> bool
    ensures { Walked file.now at (λ x e. result ≡ transforms_inside chains x) }
{
    let transforms = values::keys::find(file, at, b"transformList");
    all_inside(file, transforms, chains)
}
