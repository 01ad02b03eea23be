// Reading a file by its name. The name - stands for standard input.
ghost use Rattle.std.specs.Prelude.{◌≡◌, length};
ghost use Rattle.station.specs.Reading.{Within};

use crate::system;
use crate::system::Source;
use sentences::OfFile;
use std::io::{Error, Read};

// Reads the whole of a file into a buffer, and gives how many bytes it has, or what is said where that cannot be done.
pub(crate) fn read(rt: HostRuntime, path: &[u8], buffer: &mut [u8]) -> Result<usize, OfFile>
    ensures { Within result (length buffer.new) }
{
    let mut source = open(rt, path)?;
    read_all(&mut source, buffer)
}

// Opens a file for reading.
pub(crate) fn open(rt: HostRuntime, path: &[u8]) -> Result<Source, OfFile> {
    if text::same_bytes(path, b"-") {
        return Ok(Source::Input(rt.stdin()));
    }
    match system::open(rt, path) {
        Ok(file) => Ok(Source::File(file)),
        Err(error) => Err(unreadable(error)),
    }
}

// What is said of a file that an error keeps from being read.
pub(crate) fn unreadable(error: Error) -> OfFile {
    OfFile::Unreadable(system::number_of(error))
}

// Reads until the input ends, a read fails, or the buffer is full.
fn read_all(source: &mut Source, buffer: &mut [u8]) -> Result<usize, OfFile>
    ensures { Within result (length buffer.new) }
{
    let done = system::read_full(source, buffer);
    end_at(source, done, done == buffer.len())
}

// How many bytes an input has that ends here, after so many; where it does not, and the buffer is not full, a read had failed.
fn end_at(source: &mut Source, done: usize, full: bool) -> Result<usize, OfFile>
    ensures { Within result done }
{
    let mut byte = [0u8; 1];
    match source.read(&mut byte) {
        Ok(0) => Ok(done),
        Ok(_) if full => Err(OfFile::TooLong),
        Ok(_) => Err(OfFile::Unreadable(system::INPUT_OUTPUT.cast_unsigned())),
        Err(error) => Err(unreadable(error)),
    }
}
