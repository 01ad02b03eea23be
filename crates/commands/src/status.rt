// How a run of the program ends, as a digit: it is written to a descriptor of its own, since a program of Rattle has no exit status.
ghost use Rattle.std.specs.Prelude.{◌≡◌};
ghost use Rattle.commands.specs.Status.{descriptor_in, verdict_status, written_status, part_status, worst_of, digit_of};

use sentences::OfPart;

// The file is accepted or the data were written; the file or the column is refused; or nothing was produced.
#[derive(Clone, Copy)]
pub enum Status {
    Done,
    Refused,
    Nothing,
}

// The descriptor that a word names, to which the status is written.
pub fn descriptor_of(word: &[u8]) -> Option<i32>
    ensures { result ≡ descriptor_in word.now }
{
    let number = text::number_of(word)?;
    i32::try_from(number).ok()
}

// The status of a verdict that was written or said. It is a number and no `Refusal`, since it may come from a receipt's text.
pub fn of_verdict(verdict: u8) -> Status
    ensures { result ≡ verdict_status verdict }
{
    if verdict == refusal::ACCEPTED {
        Status::Done
    } else {
        Status::Refused
    }
}

// The status of data that were written whole, or not.
pub fn of_written(written: bool) -> Status
    ensures { result ≡ written_status written }
{
    if written {
        Status::Done
    } else {
        Status::Nothing
    }
}

// The status of a part of a file that was not written.
pub fn of_part(said: OfPart) -> Status
    ensures { result ≡ part_status said }
{
    match said {
        OfPart::Refused(_) => Status::Refused,
        _ => Status::Nothing,
    }
}

// The worse of two statuses.
pub fn worst_of(a: Status, b: Status) -> Status
    ensures { result ≡ worst_of a b }
{
    match (a, b) {
        (Status::Nothing, _) | (_, Status::Nothing) => Status::Nothing,
        (Status::Refused, _) | (_, Status::Refused) => Status::Refused,
        (Status::Done, Status::Done) => Status::Done,
    }
}

// The digit of a status.
pub fn digit_of(status: Status) -> u8
    ensures { result ≡ digit_of status }
{
    match status {
        Status::Done => b'0',
        Status::Refused => b'1',
        Status::Nothing => b'2',
    }
}
