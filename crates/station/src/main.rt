// The service desk's command: whether structure files are accepted, a file's receipt, its fields, their values and its columns, and the bill of
// receipts. Verdicts and data go to standard output, other sentences to standard error. The first word is the number of a descriptor, and the last
// act is to write the status there, one digit.
#![tactic(auto)]

mod about;
mod bills;
mod files;
mod listing;
mod output;
mod receipts;
mod say;
mod shown;
mod system;
mod texts;

ghost use Rattle.std.specs.Prelude.{◌≡◌};
ghost use Rattle.refusal.specs.Table.{refusal_number};
ghost use Rattle.commands.specs.Status.{verdict_status};

use commands::status::Status;
use commands::texts::Way;
use commands::words::Command;
use commands::{status, words};
use lines::Notation;
use refusal::Refusal;
use sentences::{OfPart, OfWord, Sentence};
use std::env::Env;
use system::Stream;

// What is done with a file.
#[derive(Clone, Copy)]
pub enum Task {
    Check,
    Receipt { station: u32, job: u32 },
    Fields,
    View { raw: bool },
    Column { raw: bool },
}

fn main(rt: HostRuntime) {
    let mut word = io::buffer();
    let n = system::word(rt, 1, &mut word);
    match status::descriptor_of(&word[..n]) {
        Some(descriptor) => write_status(descriptor, start(rt)),
        None => about::say_bare(rt),
    }
}

// Writes the digit of a status to a descriptor.
fn write_status(descriptor: i32, ended: Status) {
    io::write_all(descriptor, &[status::digit_of(ended)]);
}

// Obeys the command that the second word names.
fn start(rt: HostRuntime) -> Status {
    if system::word_count(rt) < 3 {
        output::status_of(rt, about::write_usage(rt, Stream::Error));
        return Status::Nothing;
    }
    let mut word = io::buffer();
    let n = system::word(rt, 2, &mut word);
    obey(rt, with_flag(rt, words::command_of(&word[..n])), &word[..n])
}

// A command with the word after it.
fn with_flag(rt: HostRuntime, command: Command) -> Command {
    let mut word = io::buffer();
    let n = system::word(rt, 3, &mut word);
    words::with_flag(command, &word[..n])
}

// Obeys a command, if it has as many words as it takes.
fn obey(rt: HostRuntime, command: Command, word: &[u8]) -> Status {
    if !words::fits(command, system::word_count(rt)) {
        about::say_usage_of(rt, command);
        return Status::Nothing;
    }
    let place = words::file_place(command);
    match command {
        Command::Check => check_all(rt, system::word_count(rt)),
        Command::Receipt => receipt_of(rt),
        Command::Bill => bills::bill(rt, system::word_count(rt)),
        Command::Fields => with_file(rt, Task::Fields, place),
        Command::View { raw } => with_file(rt, Task::View { raw }, place),
        Command::Column { raw } => with_file(rt, Task::Column { raw }, place),
        Command::Help => output::status_of(rt, about::write_usage(rt, Stream::Output)),
        Command::Version => output::status_of(rt, about::write_version(rt)),
        Command::Unknown => {
            say::say(rt, word, b"", Sentence::Word(OfWord::NoCommand));
            Status::Nothing
        }
    }
}

// Says the verdict on each file that is named, and answers the worst status.
fn check_all(rt: HostRuntime, count: usize) -> Status {
    let mut worst = Status::Done;
    for place in words::file_place(Command::Check)..count {
        worst = status::worst_of(worst, with_file(rt, Task::Check, place));
    }
    worst
}

// Writes the receipt of a file, if station and job are in range.
fn receipt_of(rt: HostRuntime) -> Status {
    let Some(station) = number_at(rt, 3, receipt::STATION_LIMIT, OfWord::NoStation) else {
        return Status::Nothing;
    };
    let Some(job) = number_at(rt, 4, receipt::JOB_LIMIT, OfWord::NoJob) else {
        return Status::Nothing;
    };
    with_file(
        rt,
        Task::Receipt { station, job },
        words::file_place(Command::Receipt),
    )
}

// The number that a word says, if it is 1 to a limit; else says what it must be.
fn number_at(rt: HostRuntime, place: usize, limit: u32, other: OfWord) -> Option<u32> {
    let mut word = io::buffer();
    let Ok(n) = rt.arg(place, &mut word) else {
        say::say_long_word(rt);
        return None;
    };
    let number = words::number_in(&word[..n], limit);
    if number.is_none() {
        say::say(rt, &word[..n], b"", Sentence::Word(other));
    }
    number
}

// Reads the file that a word names, and does a task with it.
fn with_file(rt: HostRuntime, task: Task, place: usize) -> Status {
    let mut path = io::buffer();
    let Ok(n) = rt.arg(place, &mut path) else {
        say::say_long_word(rt);
        return Status::Nothing;
    };
    let mut file = io::large_buffer();
    match files::read(rt, &path[..n], &mut file) {
        Ok(m) => answer(rt, task, &path[..n], &file[..m]),
        Err(said) => {
            say::say(rt, &path[..n], b"", Sentence::File(said));
            Status::Nothing
        }
    }
}

// Does a task with a file.
fn answer(rt: HostRuntime, task: Task, path: &[u8], file: &[u8]) -> Status {
    match task {
        Task::Check => check(rt, path, file),
        Task::Receipt { station, job } => write_receipt(rt, path, file, station, job),
        Task::Fields => fields(rt, path, file),
        Task::View { raw } => view(rt, path, file, raw),
        Task::Column { raw } => column(rt, path, file, raw),
    }
}

// Writes the verdict on a file to standard output.
fn check(rt: HostRuntime, path: &[u8], file: &[u8]) -> Status {
    let verdict = refusal::number(structure::verdict(file));
    if let Err(error) = say::write_verdict(rt, Stream::Output, path, file, verdict) {
        say::say_unwritten(rt, error);
        return Status::Nothing;
    }
    status::of_verdict(verdict)
}

// Writes the receipt of a file, and then says the verdict that it has.
fn write_receipt(rt: HostRuntime, path: &[u8], file: &[u8], station: u32, job: u32) -> Status {
    let mut buffer = io::buffer();
    let made = match receipts::make(station, job, file, &mut buffer) {
        Ok(made) => made,
        Err(refusal) => {
            say::say_verdict(rt, path, file, refusal.number());
            return Status::Nothing;
        }
    };
    if let Err(error) = output::write(rt, &buffer[..made.bytes]) {
        say::say_unwritten(rt, error);
        return Status::Nothing;
    }
    say::say_verdict(rt, path, file, made.verdict);
    status::of_verdict(made.verdict)
}

// Writes the fields of an accepted file.
fn fields(rt: HostRuntime, path: &[u8], file: &[u8]) -> Status {
    match structure::verdict(file) {
        Ok(()) => listing::write_fields(rt, file),
        Err(refusal) => refused(rt, path, file, refusal),
    }
}

// Says that a file is refused.
fn refused(rt: HostRuntime, path: &[u8], file: &[u8], refusal: Refusal) -> Status
    ensures { result ≡ verdict_status (refusal_number refusal) }
{
    say::say_verdict(rt, path, file, refusal.number());
    status::of_verdict(refusal.number())
}

// Writes the value of the field under a name, as text or as it is. It is not made part of `answer`, so that other commands need no room for its
// buffers.
#[inline(never)]
fn view(rt: HostRuntime, path: &[u8], file: &[u8], raw: bool) -> Status {
    let mut name = io::buffer();
    let Ok(n) = rt.arg(words::name_place(Command::View { raw }), &mut name) else {
        say::say_long_word(rt);
        return Status::Nothing;
    };
    if let Err(refusal) = views::view_refusal(file, &name[..n]) {
        return no_view(rt, path, file, &name[..n], refusal);
    }
    if raw {
        return output::status_of(rt, output::write(rt, views::view(file, &name[..n])));
    }
    show(rt, path, file, &name[..n])
}

// Writes the value of a field as text, or says why it is not shown.
fn show(rt: HostRuntime, path: &[u8], file: &[u8], name: &[u8]) -> Status {
    let value = views::view(file, name);
    match commands::texts::way_of(views::shapes::shape_of(file, name)) {
        Way::One => output::status_of(rt, texts::write_item(rt, value)),
        Way::Text => output::status_of(rt, texts::write_string(rt, value)),
        Way::Each => output::status_of(rt, texts::write_items(rt, value)),
        Way::Not(said) => no_part(rt, path, name, said),
    }
}

// Writes the values of the column under a name of a file; raw floats in the hexadecimal notation of C. It stands apart as `view` does.
#[inline(never)]
fn column(rt: HostRuntime, path: &[u8], file: &[u8], raw: bool) -> Status {
    let mut name = io::buffer();
    let Ok(n) = rt.arg(words::name_place(Command::Column { raw }), &mut name) else {
        say::say_long_word(rt);
        return Status::Nothing;
    };
    if let Err(refusal) = views::view_refusal(file, &name[..n]) {
        return no_view(rt, path, file, &name[..n], refusal);
    }
    if !views::is_binary(file, &name[..n]) {
        return no_part(rt, path, &name[..n], OfPart::NoColumn);
    }
    let notation = if raw {
        Notation::Hexadecimal
    } else {
        Notation::Decimal
    };
    match shown::write_column(rt, views::view(file, &name[..n]), notation) {
        Ok(ended) => ended,
        Err(refusal) => no_part(rt, path, &name[..n], words::part_of(refusal.number())),
    }
}

// Says why there is no view: the file is refused, or has no such field.
fn no_view(rt: HostRuntime, path: &[u8], file: &[u8], name: &[u8], refusal: Refusal) -> Status {
    match refusal {
        Refusal::NoSuchField => no_part(rt, path, name, OfPart::NoField),
        _ => refused(rt, path, file, refusal),
    }
}

// Says why a part of a file was not written.
fn no_part(rt: HostRuntime, path: &[u8], name: &[u8], said: OfPart) -> Status {
    say::say(rt, path, name, Sentence::Part(said));
    status::of_part(said)
}
