// How far the files of a bill are read, and which receipt of which file is at fault. The files are one run of receipts: a receipt may begin in one of
// them and end in another.
ghost use Rattle.std.specs.Prelude.{◌≡◌};
ghost use Rattle.commands.specs.Bills.{unread, opened_run, read_run, held_by, decided_by, entered_run, number_in, raised, refusal_of};

use refusal::Refusal;

// A run of receipts, as far as it is read: how many bytes it may still have until it is over the limit; how many bytes are held, of receipts that are
// not entered yet; the file in which the first of these receipts begins, its number among those that begin there, and its refusal, or 0.
#[derive(Clone, Copy)]
pub struct Run {
    pub left: usize,
    pub held: usize,
    pub file: usize,
    pub number: u32,
    pub refusal: u8,
}

// A run of which nothing is read yet.
pub fn no_bytes() -> Run
    ensures { result ≡ unread }
{
    Run {
        left: messagepack::FILE_LIMIT + 1,
        held: 0,
        file: 0,
        number: 1,
        refusal: refusal::ACCEPTED,
    }
}

// A run when one of its files is opened: where nothing is held, the next receipt is the first of this file.
pub fn opened(run: Run, file: usize) -> Run
    ensures { result ≡ opened_run run file }
{
    if run.refusal != refusal::ACCEPTED || run.held != 0 {
        return run;
    }
    Run {
        file,
        number: 1,
        ..run
    }
}

// A run when more bytes of it are read, and how many of all are then held. Of a run that is refused none are.
pub fn read(run: Run, bytes: usize, held: usize) -> Run
    ensures { result ≡ read_run run bytes held }
{
    Run {
        left: run.left.saturating_sub(bytes),
        held: held_by(run.refusal, held),
        ..run
    }
}

// A run when receipts of it are entered while a file is read, with the refusal of the next one and how many bytes are then held. Of the receipts that
// are entered only the first may begin in an earlier file.
pub fn entered(run: Run, file: usize, refusal: u8, held: usize, receipts: usize) -> Run
    ensures { result ≡ entered_run run file refusal held receipts }
{
    let rest = Run {
        held: held_by(refusal, held),
        refusal,
        ..run
    };
    if receipts == 0 {
        return rest;
    }
    Run {
        file,
        number: raise(number_in(run, file), receipts),
        ..rest
    }
}

// What is decided of a receipt where a file ends: one that is malformed may go on in the next file.
pub fn decided(refusal: u8, ends: bool) -> u8
    ensures { result ≡ decided_by refusal ends }
{
    if ends && refusal == Refusal::ReceiptMalformed.number() {
        refusal::ACCEPTED
    } else {
        refusal
    }
}

// The refusal of a run when no more of it is read, or 0: a receipt that is held then does not go on.
pub fn refusal_of(run: Run) -> u8
    ensures { result ≡ refusal_of run }
{
    if run.left == 0 {
        return Refusal::FileOverLimit.number();
    }
    if 0 < run.held {
        return Refusal::ReceiptMalformed.number();
    }
    run.refusal
}

// How many bytes are held: none where the run is refused.
fn held_by(refusal: u8, held: usize) -> usize
    ensures { result ≡ held_by refusal held }
{
    if refusal == refusal::ACCEPTED {
        held
    } else {
        0
    }
}

// The number of the next receipt in a file, or 0 where it begins in another.
fn number_in(run: Run, file: usize) -> u32
    ensures { result ≡ number_in run file }
{
    if run.file == file { run.number } else { 0 }
}

// A number after more receipts, as far as 32 bits hold it.
fn raise(number: u32, receipts: usize) -> u32
    ensures { result ≡ raised number receipts }
{
    number.saturating_add(u32::try_from(receipts).unwrap_or(u32::MAX))
}
