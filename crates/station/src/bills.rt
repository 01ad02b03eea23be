// The bill of the receipts in files. The files are read one after another, in pieces, and at most a buffer of their bytes is held at a time.
ghost use Rattle.std.specs.Prelude.{◌≡◌, ◌≤◌, false, ◌==◌, nat_eq, length};
ghost use Rattle.refusal.specs.Table.{accepted};
ghost use Rattle.bill.specs.Answer.{bill_limit};
ghost use Rattle.commands.specs.Bills.{refusal_of};
ghost use Rattle.commands.specs.Status.{verdict_status};
ghost use Rattle.station.specs.Bills.{Holds, RunHolds, FilesHold, files_of};

use crate::system::Source;
use crate::{files, output, say, system};
use bill::Ledger;
use commands::bills::Run;
use commands::status::Status;
use commands::words::Command;
use commands::{bills, status, words};
use sentences::{OfFile, Sentence};
use std::env::Env;
use std::io::Read;

// Writes the bill of the receipts in the files that are named, or says why there is none.
pub(crate) fn bill(rt: HostRuntime, count: usize) -> Status {
    let mut buffer = io::large_buffer();
    let mut ledger = Ledger::new();
    match read_files(rt, count, &mut buffer, &mut ledger) {
        Some(run) => finish(rt, run, &ledger),
        None => Status::Nothing,
    }
}

// Writes the bill of a run that is read, or says which of its receipts is at fault.
fn finish(rt: HostRuntime, run: Run, ledger: &Ledger) -> Status
    ensures { (refusal_of run == accepted) ≡ false → result ≡ verdict_status (refusal_of run) }
{
    let number = bills::refusal_of(run);
    if number == refusal::ACCEPTED {
        return write_bill(rt, ledger);
    }
    say_refused(rt, run.file, number, run.number);
    status::of_verdict(number)
}

// Writes the bill of a ledger.
fn write_bill(rt: HostRuntime, ledger: &Ledger) -> Status {
    let mut page = no_bill();
    match ledger.write(&mut page) {
        Ok(n) => output::status_of(rt, output::write_first(rt, &page, n)),
        Err(_) => status::of_written(false),
    }
}

// Says why receipts are refused; a receipt at fault begins in the file that a word names.
fn say_refused(rt: HostRuntime, file: usize, number: u8, receipt: u32) {
    let mut path = io::buffer();
    let n = system::word(rt, file, &mut path);
    say::say(rt, &path[..n], b"", Sentence::Bill(number, receipt));
}

// Reads the files that are named, and enters their receipts into a ledger; where that cannot be done, says why.
fn read_files(
    rt: HostRuntime,
    count: usize,
    buffer: &mut [u8],
    ledger: &mut Ledger,
) -> Option<Run> {
    let mut run = bills::no_bytes();
    for file in words::file_place(Command::Bill)..count {
        run = read_file(rt, run, file, buffer, ledger)?;
    }
    Some(run)
}

// Reads the file that a word names, unless the run is over the limit already; where that cannot be done, says why.
fn read_file(
    rt: HostRuntime,
    run: Run,
    file: usize,
    buffer: &mut [u8],
    ledger: &mut Ledger,
) -> Option<Run>
    requires { run.held ≤ length buffer.old }
    ensures { FilesHold result (length buffer.new) }
{
    if run.left == 0 {
        return Some(run);
    }
    let mut path = io::buffer();
    let Ok(n) = rt.arg(file, &mut path) else {
        say::say_long_word(rt);
        return None;
    };
    let begun = bills::opened(run, file);
    let read = read_named(rt, &path[..n], begun, file, buffer, ledger);
    told(rt, &path[..n], read)
}

// Says why a file was not read to its end, if it was not.
fn told(rt: HostRuntime, path: &[u8], read: Result<Run, OfFile>) -> Option<Run>
    ensures { result ≡ files_of read }
{
    match read {
        Ok(run) => Some(run),
        Err(said) => {
            say::say(rt, path, b"", Sentence::File(said));
            None
        }
    }
}

// Opens the file of a name, and reads it.
fn read_named(
    rt: HostRuntime,
    path: &[u8],
    begun: Run,
    file: usize,
    buffer: &mut [u8],
    ledger: &mut Ledger,
) -> Result<Run, OfFile>
    requires { begun.held ≤ length buffer.old }
    ensures { RunHolds result (length buffer.new) }
{
    let mut source = files::open(rt, path)?;
    read_pieces(begun, &mut source, file, buffer, ledger)
}

// Reads pieces of a file, until it ends or the run is over the limit: each behind the bytes that are held, and enters the receipts of both. A `for` is
// no plainer: a read decides how far a turn goes.
fn read_pieces(
    begun: Run,
    source: &mut Source,
    file: usize,
    buffer: &mut [u8],
    ledger: &mut Ledger,
) -> Result<Run, OfFile>
    requires { begun.held ≤ length buffer.old }
    ensures { RunHolds result (length buffer.new) }
{
    let mut run = begun;
    while 0 < run.left {
        let n = match source.read(&mut buffer[run.held..]) {
            Ok(n) => n,
            Err(error) => return Err(files::unreadable(error)),
        };
        if n == 0 {
            return Ok(enter(run, file, true, buffer, ledger));
        }
        let read = bills::read(run, n, run.held + n);
        run = enter(read, file, false, buffer, ledger);
    }
    Ok(run)
}

// Enters the receipts in the bytes that are held, which end here where the file ends, and moves the bytes that are not entered to the front.
fn enter(run: Run, file: usize, ends: bool, buffer: &mut [u8], ledger: &mut Ledger) -> Run
    requires { run.held ≤ length buffer.old }
    ensures { Holds run (length buffer.new) result }
{
    if run.refusal != refusal::ACCEPTED {
        return run;
    }
    let part = ledger.enter(&buffer[..run.held], ends);
    buffer.copy_within(part.bytes..run.held, 0);
    bills::entered(
        run,
        file,
        bills::decided(refusal::number(part.outcome), ends),
        run.held - part.bytes,
        part.receipts,
    )
}

// Room for a bill.
fn no_bill() -> [u8; bill::ROOM]
    ensures { length result ≡ bill_limit }
{
    [0u8; bill::ROOM]
}
