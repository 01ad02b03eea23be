// The fields of a file, a line each, on standard output.
ghost use Rattle.std.specs.Prelude.{◌≡◌, length};
ghost use Rattle.text.specs.Put.{Put};
ghost use Rattle.messagepack.specs.Limits.{entry_limit};
ghost use Rattle.commands.specs.Listing.{field_line};

use crate::output;
use commands::status;
use commands::status::Status;
use std::io::Result;

// Writes the fields of a file that is accepted, in the file's order.
pub(crate) fn write_fields(rt: HostRuntime, file: &[u8]) -> Status {
    let mut places = no_places();
    match messagepack::keys(file, &mut places) {
        Ok(n) => output::status_of(rt, write_lines(rt, file, &places[..n])),
        Err(_) => status::of_written(false),
    }
}

// Writes the fields whose keys stand at places.
fn write_lines(rt: HostRuntime, file: &[u8], places: &[u32]) -> Result<()> {
    let mut buffer = output::room();
    let mut at: usize = 0;
    for key in places {
        if output::is_full(at) {
            output::write_first(rt, &buffer, at)?;
            at = 0;
        }
        at = put_field(&mut buffer, at, file, *key as usize);
    }
    output::write_first(rt, &buffer, at)
}

// Puts the line of the field whose key stands at a place.
fn put_field(buffer: &mut [u8], at: usize, file: &[u8], key: usize) -> usize
    ensures { Put buffer.old at (field_line file.now key) buffer.new result }
{
    let what = commands::listing::what_at(file, views::plain::text_end(file, key));
    let name = views::plain::text_at(file, key);
    lines::single::put_field(buffer, at, name, what.sort, what.codec, what.length)
}

// Room for the places of the outer keys.
fn no_places() -> [u32; messagepack::ENTRY_LIMIT]
    ensures { length result ≡ entry_limit }
{
    [0u32; messagepack::ENTRY_LIMIT]
}
