// Sentences for a person, on standard error; of verdicts also on standard output.
use crate::system;
use crate::system::Stream;
use sentences::Sentence;
use std::io::{Error, Result};

// Writes a sentence about a subject, a file or a word, and the name of a part of it.
fn write_to(
    rt: HostRuntime,
    stream: Stream,
    subject: &[u8],
    name: &[u8],
    sentence: Sentence,
) -> Result<()> {
    let mut buffer = io::large_buffer();
    let n = sentences::put_sentence(&mut buffer, subject, name, sentence);
    system::write_all(rt, stream, &buffer[..n])
}

// Writes the verdict on a file.
pub(crate) fn write_verdict(
    rt: HostRuntime,
    stream: Stream,
    path: &[u8],
    file: &[u8],
    number: u8,
) -> Result<()> {
    write_to(
        rt,
        stream,
        path,
        b"",
        Sentence::Verdict(number, sentences::advice_of(file, number)),
    )
}

// Says the verdict on a file.
pub(crate) fn say_verdict(rt: HostRuntime, path: &[u8], file: &[u8], number: u8) {
    let _ = write_verdict(rt, Stream::Error, path, file, number);
}

// Says a sentence.
pub(crate) fn say(rt: HostRuntime, subject: &[u8], name: &[u8], sentence: Sentence) {
    let _ = write_to(rt, Stream::Error, subject, name, sentence);
}

// Says that the output was not written, and why.
pub(crate) fn say_unwritten(rt: HostRuntime, error: Error) {
    say(rt, b"", b"", Sentence::Unwritten(system::number_of(error)));
}

// Says that a word is too long.
pub(crate) fn say_long_word(rt: HostRuntime) {
    say_bytes(
        rt,
        b"A word has more than 4,096 bytes, the most that this program reads.\n",
    );
}

// Says bytes as they are.
pub(crate) fn say_bytes(rt: HostRuntime, bytes: &[u8]) {
    let _ = system::write_all(rt, Stream::Error, bytes);
}
