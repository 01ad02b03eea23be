// The meanings of the refusal numbers in words: written for a caller who has a number, and put into the sentences of the program. The table is
// read by `words_in`, which reads any table of numbered words.
#![tactic(auto)]

ghost use Rattle.std.specs.Prelude.{◌≡◌, length};
ghost use Rattle.refusal.specs.Outcome.{numbered};
ghost use Rattle.text.specs.Put.{Put};
ghost use Rattle.meanings.specs.Meanings.{meaning_of, meaning_answer, meaning_buffer};
ghost use Rattle.meanings.specs.Steps.{words_in, line_end};

use refusal::Refusal;

// Room for the longest meaning.
const ROOM: usize = 64;

// Writes the meaning of a number into the buffer: 28 for a number that the table does not have, then 25.
pub fn write(number: u8, buffer: &mut [u8]) -> Result<usize, Refusal>
    ensures answer { numbered result ≡ meaning_answer number (length buffer.old) }
    ensures buffer { buffer.new ≡ meaning_buffer number buffer.old }
{
    let mut page = [0u8; ROOM];
    let end = put_meaning(&mut page, 0, number);
    if end == 0 {
        return Err(Refusal::NoSuchEntry);
    }
    if buffer.len() < end {
        return Err(Refusal::BufferTooSmall);
    }
    text::put(buffer, 0, &page[..end]);
    Ok(end)
}

// Puts the meaning of a number at a place, and gives the place after it; nothing for a number that the table does not have. The table has for each
// number a byte with the number, its meaning, and a line feed.
pub fn put_meaning(buffer: &mut [u8], at: usize, number: u8) -> usize
    ensures { Put buffer.old at (meaning_of number) buffer.new result }
{
    let words = words_in(
        b"\x00accepted\n\
        \x01the file is over the limit of 67,108,864 bytes\n\
        \x02the file is cut short\n\
        \x03a lead byte is not in the subset\n\
        \x04an unsigned integer is above 2,147,483,647\n\
        \x05a string is not UTF-8\n\
        \x06arrays and maps are nested too deep\n\
        \x07a map has too many entries\n\
        \x08a key is not a string\n\
        \x09a key is repeated\n\
        \x0athe outer value is not a map\n\
        \x0bthere are bytes after the outer map\n\
        \x0ca required field is missing\n\
        \x0da field is of the wrong type\n\
        \x0ea column is under 12 bytes\n\
        \x0fa column's codec is unknown, or not of this kind\n\
        \x10a column's length or parameter is out of range\n\
        \x11a column's payload has the wrong size\n\
        \x12a number in a column is not allowed\n\
        \x13a column's results are not as many as its header says\n\
        \x14counts disagree\n\
        \x15an index is outside its table\n\
        \x16a value is outside its list\n\
        \x17there are too many group types\n\
        \x18the major version is not 1\n\
        \x19the buffer is too small\n\
        \x1athere is no such field\n\
        \x1ba number is not exact in single precision\n\
        \x1cthere is no such entry\n\
        \x1dthe receipt is malformed\n\
        \x1ethe job number does not rise within its station\n",
        number as u32,
    );
    text::put(buffer, at, words)
}

// The words after a number in a table, whose rows are a byte with the number, the words, and a line feed; none where no row has the number.
pub fn words_in<'a>(table: &'a [u8], number: u32) -> &'a [u8]
    ensures { result.now ≡ words_in table.now number }
{
    let mut row: usize = 0;
    while row < table.len() {
        let end = line_end(table, row + 1);
        if wide(table[row]) == number {
            return &table[row + 1..end];
        }
        row = end + 1;
    }
    &table[0..0]
}

// A byte as a number of 32 bits.
fn wide(byte: u8) -> u32
    ensures { result ≡ byte }
{
    byte as u32
}

// Where the line of a place ends: at its line feed, or where the bytes end.
fn line_end(bytes: &[u8], at: usize) -> usize
    ensures { result ≡ line_end bytes.now at }
{
    let mut i = at;
    while i < bytes.len() {
        if bytes[i] == b'\n' {
            return i;
        }
        i += 1;
    }
    i
}
