// A file opened: its verdict and, of an accepted file, the set of its named fields and the part of each, by one walk of the container and one pass
// over the outer map. The parts are those of the fields' views, so that a program decodes every column with no further walk.
#![tactic(auto)]

ghost use Rattle.std.specs.Prelude.{◌≡◌, Ok, ◌≤◌, ◌-◌, length};
ghost use Rattle.refusal.specs.Outcome.{numbered};
ghost use Rattle.heads.specs.Head.{head_at};
ghost use Rattle.views.specs.Place.{body_place};
ghost use Rattle.fields.specs.Table.{field_count};
ghost use Rattle.opening.specs.Opening.{starts_of, lengths_of, opening_of, opened_buffer};
ghost use Rattle.opening.specs.Steps.{span_place, as_part, SpansSay, Ready};

use fields::Fields;
use heads::Kind;
use refusal::Refusal;
use values::Part;

// Opens a file, and answers the set of its named fields, a bit for each, or the refusal. The buffers get the start and the length of each
// named field's part, in the order of the fields; 0 and 0 where a field is absent.
pub fn fields_of(file: &[u8], starts: &mut [u64], lengths: &mut [u64]) -> Result<u64, Refusal>
    ensures answer { numbered result ≡ opening_of file.now (length starts.old) (length lengths.old) }
    ensures starts { starts.new ≡ opened_buffer (numbered result) (starts_of file.now) starts.old }
    ensures lengths { lengths.new ≡ opened_buffer (numbered result) (lengths_of file.now) lengths.old }
{
    messagepack::container(file)?;
    let entries = values::entries_at(file, 0);
    let noted = fields::note(file, entries.count, entries.at);
    opened(file, noted, starts, lengths)
}

// Opens a container by what is noted of its fields.
fn opened(
    file: &[u8],
    noted: Fields,
    starts: &mut [u64],
    lengths: &mut [u64],
) -> Result<u64, Refusal>
    requires { Ready file.now noted }
    ensures answer { numbered result ≡ opening_of file.now (length starts.old) (length lengths.old) }
    ensures starts { starts.new ≡ opened_buffer (numbered result) (starts_of file.now) starts.old }
    ensures lengths { lengths.new ≡ opened_buffer (numbered result) (lengths_of file.now) lengths.old }
{
    structure::document_refusal(file, noted)?;
    if starts.len() < fields::FIELD_COUNT || lengths.len() < fields::FIELD_COUNT {
        return Err(Refusal::BufferTooSmall);
    }
    put_parts(file, &noted.places, &noted.ends, starts, lengths);
    Ok(noted.presence)
}

// Puts the start and the length of each field's part, whose value stands from a place up to an end, into buffers with room for them.
fn put_parts(
    file: &[u8],
    places: &[usize; fields::FIELD_COUNT],
    ends: &[usize; fields::FIELD_COUNT],
    starts: &mut [u64],
    lengths: &mut [u64],
)
    requires { (SpansSay file.now places.now ends.now × ((field_count ≤ length starts.old) × (field_count ≤ length lengths.old))) }
    ensures starts { starts.new ≡ opened_buffer (Ok 0) (starts_of file.now) starts.old }
    ensures lengths { lengths.new ≡ opened_buffer (Ok 0) (lengths_of file.now) lengths.old }
{
    for i in 0..fields::FIELD_COUNT {
        let part = part_at(file, places[i], ends[i]);
        starts[i] = part.at as u64;
        lengths[i] = part.count as u64;
    }
}

// The part that shows the value which stands from a place up to an end: the body of a string or a binary, else the whole; none at place 0.
fn part_at(file: &[u8], at: usize, end: usize) -> Part
    ensures { result ≡ as_part (span_place file.now at end) }
{
    if at == 0 {
        return Part { at: 0, count: 0 };
    }
    match heads::kind_at(file, at) {
        Kind::Str | Kind::Bin => body_at(file, at),
        _ => whole(at, end),
    }
}

// The body after the head at a place.
fn body_at(file: &[u8], at: usize) -> Part
    ensures { result ≡ as_part (body_place (head_at file.now at)) }
{
    match heads::head_at(file, at) {
        None => Part { at: 0, count: 0 },
        Some(head) => Part {
            at: head.end,
            count: head.number,
        },
    }
}

// The bytes from a place up to an end.
fn whole(at: usize, end: usize) -> Part
    ensures is { result.at ≡ at }
    ensures long { result.count ≡ end - at }
{
    Part {
        at,
        count: end.saturating_sub(at),
    }
}
