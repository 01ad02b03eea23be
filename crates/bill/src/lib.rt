// The month's bill, added up exactly from the receipts: for each station its accepted and its refused jobs, and the total of the accepted ones. Bytes
// are billed exactly when they are receipts, one after another, whose jobs rise within each station. Receipts are entered into a ledger of three
// columns, each indexed by the station; a program that holds a piece of the receipts at a time enters one piece after another by the same step.
#![tactic(auto)]

ghost use Rattle.std.specs.Prelude.{◌≡◌, Ok, ℕ, suc, ◌%◌, ◌&&◌, length, take, replicate, if◌then◌else◌, ◌==◌, nat_eq, slice_index, slice_set};
ghost use Rattle.refusal.specs.Outcome.{numbered, answered};
ghost use Rattle.refusal.specs.Answer.{leaves};
ghost use Rattle.receipt.specs.Receipt.{station_limit};
ghost use Rattle.text.specs.Put.{Put};
ghost use Rattle.bill.specs.Run.{stations};
ghost use Rattle.bill.specs.Bill.{entry_text, entries_text, bill_text};
ghost use Rattle.bill.specs.Answer.{bill_answer, bill_buffer, Billed};
ghost use Rattle.bill.specs.Ledger.{raised, blank, least, Enters, ledger_entries, ledger_total, ledger_bill};
ghost use Rattle.bill.specs.Steps.{ledger, ledger_entry};

use receipt::Found;
use refusal::Refusal;

// Room in a column for every station; the first entry stands for none.
pub const STATIONS: usize = receipt::STATION_LIMIT as usize + 1;

// The most bytes of a bill: three lines for each station and the total, with numbers of at most six digits.
pub const ROOM: usize = (STATIONS - 1) * 46 + 13;

// The ledger that receipts are entered into: three columns, each indexed by the station: its last job, its accepted and its refused jobs.
#[derive(Drop)]
pub struct Ledger {
    pub jobs: [u32; STATIONS],
    pub accepted: [u32; STATIONS],
    pub refused: [u32; STATIONS],
}

impl Ledger {
    // A ledger with nothing in it.
    pub fn new() -> Ledger
        ensures { result ≡ blank }
    {
        Ledger {
            jobs: column(),
            accepted: column(),
            refused: column(),
        }
    }

    // Enters the receipts at the front of the bytes, as `enter` does.
    pub fn enter(&mut self, receipts: &[u8], ends: bool) -> Entered
        ensures { Enters receipts.now ends self.old self.new result }
    {
        enter(
            receipts,
            ends,
            &mut self.jobs,
            &mut self.accepted,
            &mut self.refused,
        )
    }

    // Writes the bill of the ledger into the buffer, as `write` does.
    pub fn write(&self, buffer: &mut [u8]) -> Result<usize, Refusal>
        ensures answer { numbered result ≡ answered (length (bill_text (ledger_bill self.now.accepted self.now.refused))) (length buffer.old) }
        ensures buffer { buffer.new ≡ leaves (bill_text (ledger_bill self.now.accepted self.now.refused)) buffer.old }
    {
        write(&self.accepted, &self.refused, buffer)
    }
}

// What was entered: how many bytes and receipts, and whether entering ended there or the next receipt was refused.
#[derive(Clone, Copy)]
pub struct Entered {
    pub outcome: Result<(), Refusal>,
    pub bytes: usize,
    pub receipts: usize,
}

// Writes the bill of a run of receipts into the buffer: 1 for a run over the limit, then 29 or 30 of the first receipt at fault, then 25.
pub fn bill(receipts: &[u8], buffer: &mut [u8]) -> Result<usize, Refusal>
    ensures answer { numbered result ≡ bill_answer receipts.now (length buffer.old) }
    ensures buffer { buffer.new ≡ bill_buffer receipts.now buffer.old }
    ensures bill { (n : ℕ) → result ≡ Ok n → Billed receipts.now (take n buffer.new) }
{
    if messagepack::FILE_LIMIT < receipts.len() {
        return Err(Refusal::FileOverLimit);
    }
    let mut ledger = Ledger::new();
    let entered = ledger.enter(receipts, true);
    entered.outcome?;
    ledger.write(buffer)
}

// Enters the receipts at the front of the bytes into the ledger, one after another, up to the first that is at fault. Where the bytes are a piece of
// a longer run (`ends` is false), it stops where less is left than the longest receipt has: the next piece begins there. A `for` is no
// plainer: each receipt begins where the one before it ends. The columns may have any length, as callers of `enter` may lend them.
pub fn enter(
    receipts: &[u8],
    ends: bool,
    jobs: &mut [u32],
    accepted: &mut [u32],
    refused: &mut [u32],
) -> Entered
    ensures { Enters receipts.now ends (ledger jobs.old accepted.old refused.old) (ledger jobs.new accepted.new refused.new) result }
{
    let least = least_left(ends);
    let mut at: usize = 0;
    let mut count: usize = 0;
    while least <= receipts.len() - at {
        let Some(found) = receipt::find(receipts, at) else {
            return Entered {
                outcome: Err(Refusal::ReceiptMalformed),
                bytes: at,
                receipts: count,
            };
        };
        let Found { receipt, end } = found;
        let station = receipt.station as usize;
        if receipt.job <= at_station(jobs, station) {
            return Entered {
                outcome: Err(Refusal::JobNotRising),
                bytes: at,
                receipts: count,
            };
        }
        store(jobs, station, receipt.job);
        tally(receipt.verdict, station, accepted, refused);
        at = end;
        count += 1;
    }
    Entered {
        outcome: Ok(()),
        bytes: at,
        receipts: count,
    }
}

// Counts a receipt by its verdict: as accepted or as refused.
fn tally(verdict: u32, station: usize, accepted: &mut [u32], refused: &mut [u32])
    ensures accepted { accepted.new ≡ (if nat_eq verdict 0 then raised accepted.old station else accepted.old) }
    ensures refused { refused.new ≡ (if nat_eq verdict 0 then refused.old else raised refused.old station) }
{
    if verdict == 0 {
        raise(accepted, station);
    } else {
        raise(refused, station);
    }
}

// How many bytes must be left for a receipt to be looked for.
fn least_left(ends: bool) -> usize
    ensures { result ≡ least ends }
{
    if ends { 1 } else { receipt::RECEIPT_LIMIT }
}

// Writes the bill of a ledger into the buffer: 25 where there is too little room. The line of the total has 7 bytes beside its digits.
pub fn write(accepted: &[u32], refused: &[u32], buffer: &mut [u8]) -> Result<usize, Refusal>
    ensures answer { numbered result ≡ answered (length (bill_text (ledger_bill accepted.now refused.now))) (length buffer.old) }
    ensures buffer { buffer.new ≡ leaves (bill_text (ledger_bill accepted.now refused.now)) buffer.old }
{
    let total = total_of(accepted);
    let size = entries_size(accepted, refused) + 7 + text::digit_count(total);
    if buffer.len() < size {
        return Err(Refusal::BufferTooSmall);
    }
    let end = put_entries(buffer, accepted, refused);
    receipt::put_line(buffer, end, b"total", total);
    Ok(size)
}

// The accepted jobs of all stations, modulo 2 ^ 32.
fn total_of(accepted: &[u32]) -> u32
    ensures { result ≡ ledger_total stations accepted.now % 4294967296 }
{
    let mut total: u32 = 0;
    for station in 1..STATIONS {
        total = total.wrapping_add(at_station(accepted, station));
    }
    total
}

// How many bytes the entries of a ledger's bill have.
fn entries_size(accepted: &[u32], refused: &[u32]) -> usize
    ensures { result ≡ length (entries_text (ledger_entries stations accepted.now refused.now)) }
{
    let mut size: usize = 0;
    for station in 1..STATIONS {
        size += entry_size(
            station as u32,
            at_station(accepted, station),
            at_station(refused, station),
        );
    }
    size
}

// How many bytes the entry of a station has: 28 of names, signs and line feeds, and the digits; none where it has no jobs.
fn entry_size(station: u32, accepted: u32, refused: u32) -> usize
    ensures { result ≡ length (ledger_entry station accepted refused) }
{
    if has_none(accepted, refused) {
        return 0;
    }
    28 + text::digit_count(station) + text::digit_count(accepted) + text::digit_count(refused)
}

// Puts the entries of a ledger's bill at the start of a buffer, and gives the place after them.
fn put_entries(buffer: &mut [u8], accepted: &[u32], refused: &[u32]) -> usize
    ensures { Put buffer.old 0 (entries_text (ledger_entries stations accepted.now refused.now)) buffer.new result }
{
    let mut next: usize = 0;
    for station in 1..STATIONS {
        next = put_entry(
            buffer,
            next,
            station as u32,
            at_station(accepted, station),
            at_station(refused, station),
        );
    }
    next
}

// Puts the entry of a station at a place, and gives the place after it; nothing where it has no jobs.
fn put_entry(buffer: &mut [u8], at: usize, station: u32, accepted: u32, refused: u32) -> usize
    ensures { Put buffer.old at (ledger_entry station accepted refused) buffer.new result }
{
    if has_none(accepted, refused) {
        return at;
    }
    let second = receipt::put_line(buffer, at, b"station", station);
    let third = receipt::put_line(buffer, second, b"accepted", accepted);
    receipt::put_line(buffer, third, b"refused", refused)
}

// Whether a station has no jobs.
fn has_none(accepted: u32, refused: u32) -> bool
    ensures { result ≡ (accepted == 0) && (refused == 0) }
{
    accepted == 0 && refused == 0
}

// A column with 0 for every station.
fn column() -> [u32; STATIONS]
    ensures { result ≡ replicate (suc station_limit) 0 }
{
    [0u32; STATIONS]
}

// The number at a station; 0 past the column's end.
fn at_station(column: &[u32], station: usize) -> u32
    ensures { result ≡ slice_index column.now station }
{
    if station < column.len() {
        return column[station];
    }
    0
}

// Stores a number at a station; nothing past the column's end.
fn store(column: &mut [u32], station: usize, number: u32)
    ensures { column.new ≡ slice_set column.old station number }
{
    if station < column.len() {
        column[station] = number;
    }
}

// Counts one more at a station, modulo 2 ^ 32.
fn raise(column: &mut [u32], station: usize)
    ensures { column.new ≡ raised column.old station }
{
    store(column, station, at_station(column, station).wrapping_add(1));
}
