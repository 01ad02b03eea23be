// Views: the part of a file that shows an outer key's value, for any name and any key of a file that passes as a container; a file is walked
// once, and the places of its outer keys come from that walk. Modules have what stands at a place, and the shape of a value.
#![tactic(auto)]

pub mod plain;
pub mod shapes;

ghost use Rattle.std.specs.Prelude.{◌≡◌, ◌↔◌, ℕ, ◌-◌, length};
ghost use Rattle.refusal.specs.Outcome.{number_of, numbered};
ghost use Rattle.heads.specs.Head.{head_at};
ghost use Rattle.messagepack.specs.Limits.{entry_limit};
ghost use Rattle.values.specs.Standing.{Standing};
ghost use Rattle.values.specs.Places.{PlaceSays};
ghost use Rattle.views.specs.View.{Viewable, view_number, value_under, binary_under};
ghost use Rattle.views.specs.Place.{some_part, is_text, body_place, place_of, part_of};
ghost use Rattle.views.specs.Shown.{ShowsAt, Keyed};

use heads::Kind;
use refusal::Refusal;
use values::Part;

// The part of the file that shows the outer key's value; empty on refusal.
pub fn view<'a>(file: &'a [u8], name: &[u8]) -> &'a [u8]
    ensures { result.now ≡ part_of file.now name.now }
{
    match find(file, name) {
        Ok(part) => &file[part.at..part.at + part.count],
        Err(_) => &file[0..0],
    }
}

// The refusal of a view, 1 to 11 or 26, where the file shows no part under the name.
pub fn view_refusal(file: &[u8], name: &[u8]) -> Result<(), Refusal>
    ensures number { number_of result ≡ view_number file.now name.now }
    ensures exactly { (number_of result ≡ 0) ↔ Viewable file.now name.now }
{
    find(file, name)?;
    Ok(())
}

// Whether the outer key's value is a binary, as that of a column is. It is not in a file that is no container or has no such key.
pub fn is_binary(file: &[u8], name: &[u8]) -> bool
    ensures { result ≡ binary_under file.now name.now }
{
    let at = value_under(file, name);
    at != 0 && matches!(heads::kind_at(file, at), Kind::Bin)
}

// The place of the outer key's value; 0 where the file is no container or has no such key, as `values::keys::find` has it.
fn value_under(file: &[u8], name: &[u8]) -> usize
    ensures { PlaceSays file.now result (value_under file.now name.now) }
{
    if messagepack::container(file).is_err() {
        return 0;
    }
    values::keys::find(file, 0, name)
}

// The place of the part in the file, or the refusal.
pub fn find(file: &[u8], name: &[u8]) -> Result<Part, Refusal>
    ensures { numbered result ≡ place_of file.now name.now }
{
    let mut places = no_places();
    let n = messagepack::keys(file, &mut places)?;
    entry(file, name, &places[..n])
}

// The outer key with the name, by the places of all of them: the place of the part that shows its value.
fn entry(file: &[u8], name: &[u8], places: &[u32]) -> Result<Part, Refusal>
    requires { Keyed file.now places.now }
    ensures { numbered result ≡ place_of file.now name.now }
{
    for &place in places {
        let p = place as usize;
        let Some(head) = heads::head_at(file, p) else {
            return Err(Refusal::NoSuchField);
        };
        let value = head.end + head.number;
        if text::same_bytes(&file[head.end..value], name) {
            return part(file, value);
        }
    }
    Err(Refusal::NoSuchField)
}

// Room for the places of the outer keys.
fn no_places() -> [u32; messagepack::ENTRY_LIMIT]
    ensures { length result ≡ entry_limit }
{
    [0u32; messagepack::ENTRY_LIMIT]
}

// The part that shows the value at a place.
fn part(file: &[u8], at: usize) -> Result<Part, Refusal>
    ensures { ShowsAt file.now at (numbered result) }
{
    if is_text(heads::kind_at(file, at)) {
        body(file, at)
    } else {
        whole(file, at)
    }
}

fn is_text(kind: Kind) -> bool
    ensures { result ≡ is_text kind }
{
    matches!(kind, Kind::Str | Kind::Bin)
}

fn body(file: &[u8], at: usize) -> Result<Part, Refusal>
    ensures { numbered result ≡ body_place (head_at file.now at) }
{
    let head = heads::head_at(file, at).ok_or(Refusal::NoSuchField)?;
    Ok(Part {
        at: head.end,
        count: head.number,
    })
}

fn whole(file: &[u8], at: usize) -> Result<Part, Refusal>
    ensures { (e : ℕ) → Standing file.now 1 at e → numbered result ≡ some_part at (e - at) }
{
    let end = values::skip(file, at);
    if end < at {
        return Err(Refusal::NoSuchField);
    }
    Ok(Part {
        at: at,
        count: end - at,
    })
}
