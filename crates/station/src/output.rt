// Data on standard output, in large pieces.
ghost use Rattle.std.specs.Prelude.{◌≡◌, length};

use crate::system::Stream;
use crate::{say, system};
use commands::status;
use commands::status::Status;
use lines::Notation;
use std::io::Result;

// Room for lines, and how much of it the longest line takes: a file's bytes as four each, and the words after them.
pub(crate) const ROOM: usize = 327_680;

const LINE: usize = 262_400;

// A buffer for lines.
pub(crate) fn room() -> [u8; ROOM]
    ensures { length result ≡ 327680 }
{
    [0u8; ROOM]
}

// Whether a buffer that is filled up to a place has no room for the longest line.
pub(crate) fn is_full(at: usize) -> bool {
    ROOM - LINE < at
}

// The status of data that were to be written; says why where they were not written whole.
pub(crate) fn status_of(rt: HostRuntime, written: Result<()>) -> Status {
    let whole = written.is_ok();
    if let Err(error) = written {
        say::say_unwritten(rt, error);
    }
    status::of_written(whole)
}

// Writes the first n bytes of a buffer to standard output, or all of it if it has fewer.
pub(crate) fn write_first(rt: HostRuntime, buffer: &[u8], n: usize) -> Result<()> {
    write(rt, &buffer[..n.min(buffer.len())])
}

// Writes bytes to standard output.
pub(crate) fn write(rt: HostRuntime, bytes: &[u8]) -> Result<()> {
    system::write_all(rt, Stream::Output, bytes)
}

// Writes numbers over a divisor, a line each. One function for this and the next two would be no plainer: a turn's end is promised by the call that
// gathers the lines, and would have to be stated of a closure.
pub(crate) fn write_numbers(rt: HostRuntime, values: &[i32], divisor: u32) -> Result<()> {
    let mut buffer = io::large_buffer();
    let mut from: usize = 0;
    while from < values.len() {
        let part = lines::number_lines(&values[from..], divisor, &mut buffer);
        write(rt, &buffer[..part.bytes])?;
        from += part.values;
    }
    Ok(())
}

// Writes floats in a notation, a line each.
pub(crate) fn write_floats(rt: HostRuntime, values: &[u32], notation: Notation) -> Result<()> {
    let mut buffer = io::large_buffer();
    let mut from: usize = 0;
    while from < values.len() {
        let part = lines::float_lines(&values[from..], notation, &mut buffer);
        write(rt, &buffer[..part.bytes])?;
        from += part.values;
    }
    Ok(())
}

// Writes names of a size, a line each.
pub(crate) fn write_names(rt: HostRuntime, names: &[u8], size: usize) -> Result<()> {
    let mut buffer = io::large_buffer();
    let mut from: usize = 0;
    while from < names.len() {
        let part = lines::name_lines(&names[from..], size, &mut buffer);
        let step = part.values * size;
        if step == 0 {
            return Ok(());
        }
        write(rt, &buffer[..part.bytes])?;
        from += step;
    }
    Ok(())
}
