// Receipts: what a lab is billed by. One is written for a file, whatever its bytes, and shows one unit exactly when the file is accepted; and one is
// read back from bytes that are a receipt by the rules of paper 01, or found at a place of bytes that go on.
#![tactic(auto)]

ghost use Rattle.std.specs.Prelude.{◌≡◌, Ok, ℕ, length, take, drop};
ghost use Rattle.refusal.specs.Outcome.{numbered as with_number};
ghost use Rattle.numbers.specs.Ranges.{within};
ghost use Rattle.text.specs.Put.{Put};
ghost use Rattle.receipt.specs.Receipt.{page_room, numbered, accepted_right, refused_right, line, written, rules_kept};
ghost use Rattle.structure.specs.Summary.{summary_of};
ghost use Rattle.receipt.specs.File.{units_of, receipt_by, Receipted, receipt_answer, receipt_buffer};
ghost use Rattle.text.specs.Decimal.{is_digit};
ghost use Rattle.receipt.specs.Reading.{reading_of, found_at};
ghost use Rattle.receipt.specs.Steps.{counts_lines, first_lines, last_lines, line_or_none, takes_digit, digits_at, number_at, line_at};

use refusal::Refusal;

// The last station and job.
pub const STATION_LIMIT: u32 = 99;

pub const JOB_LIMIT: u32 = 999_999;

// The last verdict on a file, the most of each count, and the fewest and the most fields.
const VERDICT_LIMIT: u32 = Refusal::VersionNot1 as u32;

const COUNT_LIMIT: u32 = counts::COUNT_LIMIT as u32;

const FIELDS_LEAST: u32 = fields::REQUIRED_FIELDS as u32;

const FIELDS_MOST: u32 = fields::FIELD_COUNT as u32;

// The bytes of the longest receipt.
pub const RECEIPT_LIMIT: usize = 128;

// Room on a page for ten lines: their names, signs and line feeds, 76 bytes, and ten digits for each number.
const ROOM: usize = 176;

// The ten numbers of a receipt, in the order of its lines.
#[derive(Clone, Copy)]
pub struct Receipt {
    pub station: u32,
    pub job: u32,
    pub verdict: u32,
    pub models: u32,
    pub chains: u32,
    pub groups: u32,
    pub atoms: u32,
    pub bonds: u32,
    pub fields: u32,
    pub units: u32,
}

// A receipt that stands at a place of bytes, and where it ends.
#[derive(Clone, Copy)]
pub struct Found {
    pub receipt: Receipt,
    pub end: usize,
}

// A line of a receipt: its number, and the place after it.
#[derive(Clone, Copy)]
pub struct Line {
    pub number: u32,
    pub end: usize,
}

// Writes the receipt of a file into the buffer: 29 for a station or a job out of range, then 25. A refused file gets its receipt too.
pub fn write(station: u32, job: u32, file: &[u8], buffer: &mut [u8]) -> Result<usize, Refusal>
    ensures answer { with_number result ≡ receipt_answer station job file.now (length buffer.old) }
    ensures buffer { buffer.new ≡ receipt_buffer station job file.now buffer.old }
    ensures receipt { (n : ℕ) → result ≡ Ok n → Receipted station job file.now (take n buffer.new) }
{
    if !is_numbered(station, job) {
        return Err(Refusal::ReceiptMalformed);
    }
    let mut page = blank();
    let end = put_receipt(&mut page, receipt_of(station, job, file));
    if buffer.len() < end {
        return Err(Refusal::BufferTooSmall);
    }
    text::put(buffer, 0, &page[..end]);
    Ok(end)
}

// The numbers of the receipt of a file.
fn receipt_of(station: u32, job: u32, file: &[u8]) -> Receipt
    ensures { result ≡ receipt_by station job (summary_of file.now) }
{
    let summary = structure::summary_of(file);
    Receipt {
        station,
        job,
        verdict: u32::from(summary.verdict),
        models: summary.models,
        chains: summary.chains,
        groups: summary.groups,
        atoms: summary.atoms,
        bonds: summary.bonds,
        fields: u64::count_ones(summary.presence),
        units: units_of(summary.verdict),
    }
}

// One unit for an accepted file, none for a refused one.
fn units_of(verdict: u8) -> u32
    ensures { result ≡ units_of verdict }
{
    if verdict == refusal::ACCEPTED { 1 } else { 0 }
}

// Reads a receipt: its numbers exactly when the bytes are a receipt, else 29.
pub fn read(bytes: &[u8]) -> Result<Receipt, Refusal>
    ensures { with_number result ≡ reading_of bytes.now }
{
    match find(bytes, 0) {
        Some(found) if found.end == bytes.len() => Ok(found.receipt),
        _ => Err(Refusal::ReceiptMalformed),
    }
}

// The receipt that stands at a place, whatever follows it, and where it ends; none where no receipt stands there.
pub fn find(bytes: &[u8], at: usize) -> Option<Found>
    ensures { result ≡ found_at bytes.now at }
{
    let station = line_at(bytes, at, b"station=")?;
    let job = line_at(bytes, station.end, b"job=")?;
    let verdict = line_at(bytes, job.end, b"verdict=")?;
    let models = line_at(bytes, verdict.end, b"models=")?;
    let chains = line_at(bytes, models.end, b"chains=")?;
    let groups = line_at(bytes, chains.end, b"groups=")?;
    let atoms = line_at(bytes, groups.end, b"atoms=")?;
    let bonds = line_at(bytes, atoms.end, b"bonds=")?;
    let fields = line_at(bytes, bonds.end, b"fields=")?;
    let units = line_at(bytes, fields.end, b"units=")?;
    let receipt = Receipt {
        station: station.number,
        job: job.number,
        verdict: verdict.number,
        models: models.number,
        chains: chains.number,
        groups: groups.number,
        atoms: atoms.number,
        bonds: bonds.number,
        fields: fields.number,
        units: units.number,
    };
    if !is_allowed(receipt) {
        return None;
    }
    Some(Found {
        receipt,
        end: units.end,
    })
}

// The line at a place that begins with a word: its number, and the place after it.
fn line_at(bytes: &[u8], at: usize, word: &[u8]) -> Option<Line>
    ensures { line_or_none result ≡ line_at word.now bytes.now at }
{
    if !text::stands_at(bytes, at, word) {
        return None;
    }
    number_at(bytes, at + word.len())
}

// The number in decimal at a place with a line feed after it, and the place after that.
fn number_at(bytes: &[u8], at: usize) -> Option<Line>
    ensures { line_or_none result ≡ number_at (drop at bytes.now) at }
{
    if bytes.len() <= at {
        return None;
    }
    let byte = bytes[at];
    if !is_digit(byte) {
        return None;
    }
    digits_at(bytes, at + 1, u32::from(byte - b'0'))
}

// The number that goes on at a place after digits that say `number`: further digits up to a line feed. There is none after a leading zero, and none
// of more than nine digits.
fn digits_at(bytes: &[u8], at: usize, number: u32) -> Option<Line>
    ensures { line_or_none result ≡ digits_at (drop at bytes.now) number at }
{
    let mut said = number;
    for i in at..bytes.len() {
        let byte = bytes[i];
        if byte == b'\n' {
            return Some(Line {
                number: said,
                end: i + 1,
            });
        }
        if !takes_digit(said, byte) {
            return None;
        }
        said = said * 10 + u32::from(byte - b'0');
    }
    None
}

// Whether a byte is a digit that can follow those of a number.
fn takes_digit(number: u32, byte: u8) -> bool
    ensures { result ≡ takes_digit number byte }
{
    is_digit(byte) && is_within(1, 99_999_999, number)
}

// Whether a byte is a decimal digit.
fn is_digit(byte: u8) -> bool
    ensures { result ≡ is_digit byte }
{
    byte.is_ascii_digit()
}

// Whether the numbers are those of a receipt.
fn is_allowed(receipt: Receipt) -> bool
    ensures { result ≡ rules_kept receipt }
{
    if !is_numbered(receipt.station, receipt.job) {
        return false;
    }
    if VERDICT_LIMIT < receipt.verdict {
        return false;
    }
    if receipt.verdict == 0 {
        return is_accepted(receipt);
    }
    is_refused(receipt)
}

// Whether a station's and a job's number are in range.
fn is_numbered(station: u32, job: u32) -> bool
    ensures { result ≡ numbered station job }
{
    is_within(1, STATION_LIMIT, station) && is_within(1, JOB_LIMIT, job)
}

// Whether the seven lines after a verdict 0 are right: counts, fields and one unit.
fn is_accepted(receipt: Receipt) -> bool
    ensures { result ≡ accepted_right receipt }
{
    receipt.models <= COUNT_LIMIT
        && receipt.chains <= COUNT_LIMIT
        && receipt.groups <= COUNT_LIMIT
        && receipt.atoms <= COUNT_LIMIT
        && receipt.bonds <= COUNT_LIMIT
        && is_within(FIELDS_LEAST, FIELDS_MOST, receipt.fields)
        && receipt.units == 1
}

// Whether the seven lines after another verdict are right: all 0.
fn is_refused(receipt: Receipt) -> bool
    ensures { result ≡ refused_right receipt }
{
    receipt.models == 0
        && receipt.chains == 0
        && receipt.groups == 0
        && receipt.atoms == 0
        && receipt.bonds == 0
        && receipt.fields == 0
        && receipt.units == 0
}

// Whether a number is between two others, these included.
fn is_within(low: u32, high: u32, number: u32) -> bool
    ensures { result ≡ within low high number }
{
    low <= number && number <= high
}

// A page with nothing on it.
fn blank() -> [u8; ROOM]
    ensures { length result ≡ page_room }
{
    [0u8; ROOM]
}

// Puts a receipt's lines on a page, and answers where they end.
fn put_receipt(page: &mut [u8; ROOM], receipt: Receipt) -> usize
    ensures { Put page.old 0 (written receipt) page.new result }
{
    let counts = put_first(page, receipt);
    let last = put_counts(page, counts, receipt);
    put_last(page, last, receipt)
}

// Puts the lines of station, job and verdict.
fn put_first(page: &mut [u8], receipt: Receipt) -> usize
    ensures { Put page.old 0 (first_lines receipt) page.new result }
{
    let job = put_line(page, 0, b"station", receipt.station);
    let verdict = put_line(page, job, b"job", receipt.job);
    put_line(page, verdict, b"verdict", receipt.verdict)
}

// Puts the lines of the five counts.
fn put_counts(page: &mut [u8], at: usize, receipt: Receipt) -> usize
    ensures { Put page.old at (counts_lines receipt) page.new result }
{
    let chains = put_line(page, at, b"models", receipt.models);
    let groups = put_line(page, chains, b"chains", receipt.chains);
    let atoms = put_line(page, groups, b"groups", receipt.groups);
    let bonds = put_line(page, atoms, b"atoms", receipt.atoms);
    put_line(page, bonds, b"bonds", receipt.bonds)
}

// Puts the lines of fields and units.
fn put_last(page: &mut [u8], at: usize, receipt: Receipt) -> usize
    ensures { Put page.old at (last_lines receipt) page.new result }
{
    let units = put_line(page, at, b"fields", receipt.fields);
    put_line(page, units, b"units", receipt.units)
}

// Puts a line: a name, an equals sign, a number in decimal and a line feed.
pub fn put_line(page: &mut [u8], at: usize, name: &[u8], number: u32) -> usize
    ensures { Put page.old at (line name.now number) page.new result }
{
    let sign = text::put(page, at, name);
    let digits = text::put_byte(page, sign, b'=');
    let end = text::put_decimal(page, digits, number);
    text::put_byte(page, end, b'\n')
}
