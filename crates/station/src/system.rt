// The system as the program meets it: the words that it was started with, what it reads from and writes to, and the numbers of errors.
ghost use Rattle.std.specs.Prelude.{◌≡◌, ◌≤◌, length, take, OnOk};
ghost use Rattle.std.specs.Io.KnownBytes.{Appends, Consumes};
ghost use Rattle.std.specs.IoError.{raw_os_error};
ghost use Rattle.station.specs.System.{number_in};

use std::env::{Env, FillError};
use std::fs::File;
use std::io::{Error, ErrorKind, Read, Stdin, Write};
use std::{io, str};

// The system's numbers of two errors: of a read or a write that failed for no reason that it gave, and of a name that is not text.
pub(crate) const INPUT_OUTPUT: i32 = 5;

const NOT_TEXT: i32 = 84;

// Where sentences and data go: standard output, or standard error.
#[derive(Clone, Copy)]
pub enum Stream {
    Output,
    Error,
}

// What is read: standard input, or a file that is open.
#[derive(Drop)]
pub enum Source {
    Input(Stdin),
    File(File),
}

impl Read for Source {
    fn read(&mut self, buffer: &mut [u8]) -> io::Result<usize> {
        match self {
            Source::Input(input) => input.read(buffer),
            Source::File(file) => file.read(buffer),
        }
    }
}

// How many words the program was started with, its own name among them.
pub(crate) fn word_count(rt: HostRuntime) -> usize {
    for place in 0..usize::MAX {
        if is_missing(rt, place) {
            return place;
        }
    }
    usize::MAX
}

// Whether there is no word at a place.
fn is_missing(rt: HostRuntime, place: usize) -> bool {
    matches!(rt.arg(place, &mut []), Err(FillError::NotPresent))
}

// Puts the word at a place at the start of a buffer, and gives its length: 0 where it is missing or longer than the buffer.
pub(crate) fn word(rt: HostRuntime, place: usize, buffer: &mut [u8]) -> usize
    ensures { result ≤ length buffer.new }
{
    rt.arg(place, buffer).unwrap_or(0)
}

// Opens the file of a name for reading. A name that is not text in UTF-8 opens no file.
pub(crate) fn open(rt: HostRuntime, path: &[u8]) -> io::Result<File> {
    match str::from_utf8(path) {
        Ok(name) => File::open(&rt, name),
        Err(_) => Err(Error::from_raw_os_error(NOT_TEXT)),
    }
}

// Reads until the buffer is full, the input ends or a read fails, and gives how many bytes it put at the buffer's start. A `for` is no plainer: a read
// decides how far a turn goes.
pub(crate) fn read_full<R: Read>(reader: &mut R, buffer: &mut [u8]) -> usize
    ensures inside { result ≤ length buffer.new }
    ensures bytes { Consumes (R.remaining reader.old) (R.remaining reader.new) (take result buffer.new) }
{
    let mut done: usize = 0;
    while done < buffer.len() {
        let Ok(n) = reader.read(&mut buffer[done..]) else {
            return done;
        };
        if n == 0 {
            return done;
        }
        done += n;
    }
    done
}

// Writes bytes to a stream: all of them, or up to the first write that fails.
pub(crate) fn write_all(rt: HostRuntime, stream: Stream, bytes: &[u8]) -> io::Result<()> {
    match stream {
        Stream::Output => write_whole(&mut rt.stdout(), bytes),
        Stream::Error => write_whole(&mut rt.stderr(), bytes),
    }
}

// Writes bytes to a writer: all of them, or up to the first write that fails.
fn write_whole<W: Write>(writer: &mut W, bytes: &[u8]) -> io::Result<()>
    ensures { OnOk result (Appends (W.contents writer.old) (W.contents writer.new) bytes.now) }
{
    let mut rest = bytes;
    while !rest.is_empty() {
        let n = writer.write(rest)?;
        if n == 0 {
            return Err(Error::from(ErrorKind::WriteZero));
        }
        rest = &rest[n..];
    }
    Ok(())
}

// The system's number of an error, as 32 bits; of one that has none, that of a failed read or write.
pub(crate) fn number_of(error: Error) -> u32
    ensures { result ≡ number_in (raw_os_error error) }
{
    error.raw_os_error().unwrap_or(INPUT_OUTPUT).cast_unsigned()
}
