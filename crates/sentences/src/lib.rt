// The sentences that the program says, one line each: of a file, of a part of it, of a word, of receipts, and of the output. Every call is total. A sentence is
// a form of a table in which marks stand for what differs.
#![tactic(auto)]

ghost use Rattle.std.specs.Prelude.{◌≡◌};
ghost use Rattle.text.specs.Put.{Put};
ghost use Rattle.text.specs.Ascii.{ascii};
ghost use Rattle.sentences.specs.Shown.{replaced, printing, shown_byte, shown, file_name};
ghost use Rattle.sentences.specs.Reasons.{error_text, reason_text};
ghost use Rattle.sentences.specs.Sentences.{is_gzip, advice_of, refusal_of, reason_of, receipt_of, form_of, mark_of, sentence_text};
ghost use Rattle.sentences.specs.Steps.{verdict_row, bill_row, row_of};

use refusal::Refusal;

// What a person can do about a refused file.
#[derive(Clone, Copy)]
pub enum Advice {
    Floats,
    Gzip,
}

// What is said of a file that was not judged. A reason is the number of the system's error.
#[derive(Clone, Copy)]
pub enum OfFile {
    TooLong,
    Unreadable(u32),
}

// What is said of a part of a file. A refusal has its number.
#[derive(Clone, Copy)]
pub enum OfPart {
    NoField,
    NoColumn,
    NotShown,
    Nested,
    IsBinary,
    Refused(u8),
}

// What is said of a word.
#[derive(Clone, Copy)]
pub enum OfWord {
    NoCommand,
    NoStation,
    NoJob,
}

// A sentence: the verdict on a file; what else is said of a file, of a part of it or of a word; the refusal of receipts, with the number in its file
// of the one at fault; or why the output was not written.
#[derive(Clone, Copy)]
pub enum Sentence {
    Verdict(u8, Option<Advice>),
    File(OfFile),
    Part(OfPart),
    Word(OfWord),
    Bill(u8, u32),
    Unwritten(u32),
}

// What to do about a file with a refusal number.
pub fn advice_of(file: &[u8], number: u8) -> Option<Advice>
    ensures { result ≡ advice_of file.now number }
{
    if is_gzip(file) {
        Some(Advice::Gzip)
    } else if number == Refusal::LeadByteUnknown.number() {
        Some(Advice::Floats)
    } else {
        None
    }
}

// Whether a file begins as gzip writes it.
fn is_gzip(file: &[u8]) -> bool
    ensures { result ≡ is_gzip file.now }
{
    file.starts_with(b"\x1f\x8b")
}

// Puts a sentence about a subject, a file or a word, at the start of a buffer, and gives its end. A part of a file has a name.
pub fn put_sentence(buffer: &mut [u8], subject: &[u8], name: &[u8], sentence: Sentence) -> usize
    ensures { Put buffer.old 0 (sentence_text subject.now name.now sentence) buffer.new result }
{
    let end = put_form(buffer, subject, name, sentence);
    text::put_byte(buffer, end, b'\n')
}

// The row of a sentence's form in the table of forms.
fn row_of(sentence: Sentence) -> u32
    ensures { result ≡ row_of sentence }
{
    match sentence {
        Sentence::Verdict(number, advice) => verdict_row(number, advice),
        Sentence::File(OfFile::TooLong) => 5,
        Sentence::File(OfFile::Unreadable(_)) => 6,
        Sentence::Part(OfPart::NoField) => 7,
        Sentence::Part(OfPart::NoColumn) => 8,
        Sentence::Part(OfPart::NotShown) => 9,
        Sentence::Part(OfPart::Nested) => 10,
        Sentence::Part(OfPart::IsBinary) => 11,
        Sentence::Part(OfPart::Refused(_)) => 12,
        Sentence::Word(OfWord::NoCommand) => 13,
        Sentence::Word(OfWord::NoStation) => 14,
        Sentence::Word(OfWord::NoJob) => 15,
        Sentence::Bill(number, _) => bill_row(number),
        Sentence::Unwritten(_) => 19,
    }
}

// The row of the verdict on a file.
fn verdict_row(number: u8, advice: Option<Advice>) -> u32
    ensures { result ≡ verdict_row number advice }
{
    if number == refusal::ACCEPTED {
        return 1;
    }
    match advice {
        None => 2,
        Some(Advice::Floats) => 3,
        Some(Advice::Gzip) => 4,
    }
}

// The row of receipts that are refused.
fn bill_row(number: u8) -> u32
    ensures { result ≡ bill_row number }
{
    if number == Refusal::FileOverLimit.number() {
        16
    } else if number == Refusal::JobNotRising.number() {
        17
    } else {
        18
    }
}

// The number of the refusal that a sentence says, or 0.
fn refusal_of(sentence: Sentence) -> u8
    ensures { result ≡ refusal_of sentence }
{
    match sentence {
        Sentence::Verdict(number, _)
        | Sentence::Part(OfPart::Refused(number))
        | Sentence::Bill(number, _) => number,
        _ => refusal::ACCEPTED,
    }
}

// The number of the system's error that a sentence says, or 0.
fn reason_of(sentence: Sentence) -> u32
    ensures { result ≡ reason_of sentence }
{
    match sentence {
        Sentence::File(OfFile::Unreadable(reason)) | Sentence::Unwritten(reason) => reason,
        _ => 0,
    }
}

// The number of the receipt that a sentence says, or 0.
fn receipt_of(sentence: Sentence) -> u32
    ensures { result ≡ receipt_of sentence }
{
    match sentence {
        Sentence::Bill(_, receipt) => receipt,
        _ => 0,
    }
}

// Puts the form of a sentence at the start of a buffer, each mark replaced. The table has for each form a byte with its row, the form, and a line feed.
fn put_form(buffer: &mut [u8], subject: &[u8], name: &[u8], sentence: Sentence) -> usize
    ensures { Put buffer.old 0 (replaced (mark_of subject.now name.now sentence) (form_of sentence)) buffer.new result }
{
    let form = meanings::words_in(
        b"\x01@ is accepted.\n\
        \x02@ is refused with #: *.\n\
        \x03@ is refused with #: *. If it has 64-bit floats (lead byte cb), write them as 32-bit floats.\n\
        \x04@ is refused with #: *. It begins as a gzip file does: unpack it first, with gunzip.\n\
        \x05@ is not judged: it has more than 65,536 bytes, the most that this program reads. The library takes files of up to 67,108,864 bytes.\n\
        \x06@ cannot be read: !.\n\
        \x07@ has no field \"$\".\n\
        \x08Field \"$\" of & is not a column: its value is not a binary.\n\
        \x09Column \"$\" of & is not shown: it has more than 65,536 values.\n\
        \x0aField \"$\" of & is not shown as text: it is a map, or an array with elements other than numbers and strings. With --raw its bytes are written.\n\
        \x0bField \"$\" of & is a column or another binary: \"station column\" shows the values of a column, and \"station view --raw\" the bytes of any binary.\n\
        \x0cColumn \"$\" of & is refused with #: *.\n\
        \x0d\"%\" is not a command. The command \"station help\" lists them.\n\
        \x0eThe station must be a number from 1 to 99, and \"%\" is not.\n\
        \x0fThe job must be a number from 1 to 999,999, and \"%\" is not.\n\
        \x10The files together are refused with #: *. Bill them in parts.\n\
        \x11Receipt ~ of & is refused with #: *. Put the receipts of each station in the order of their jobs.\n\
        \x12Receipt ~ of & is refused with #: *. Receipts stand one directly after another, each as \"station receipt\" writes it.\n\
        \x13The output was not written whole: !.\n",
        row_of(sentence),
    );
    put_replaced(buffer, form, subject, name, sentence)
}

// Puts a form at the start of a buffer, each mark replaced.
fn put_replaced(
    buffer: &mut [u8],
    form: &[u8],
    subject: &[u8],
    name: &[u8],
    sentence: Sentence,
) -> usize
    ensures { Put buffer.old 0 (replaced (mark_of subject.now name.now sentence) form.now) buffer.new result }
{
    let mut next: usize = 0;
    for mark in form {
        next = put_mark(buffer, next, *mark, subject, name, sentence);
    }
    next
}

// Puts what stands for a byte of a form.
fn put_mark(
    buffer: &mut [u8],
    at: usize,
    mark: u8,
    subject: &[u8],
    name: &[u8],
    sentence: Sentence,
) -> usize
    ensures { Put buffer.old at (mark_of subject.now name.now sentence mark) buffer.new result }
{
    match mark {
        b'@' => put_name(buffer, at, subject, b"Standard input"),
        b'&' => put_name(buffer, at, subject, b"standard input"),
        b'$' => put_shown(buffer, at, name),
        b'%' => put_shown(buffer, at, subject),
        b'#' => text::put_decimal(buffer, at, u32::from(refusal_of(sentence))),
        b'*' => meanings::put_meaning(buffer, at, refusal_of(sentence)),
        b'!' => put_reason(buffer, at, reason_of(sentence)),
        b'~' => text::put_decimal(buffer, at, receipt_of(sentence)),
        _ => text::put_byte(buffer, at, mark),
    }
}

// Puts the reason of a system's error in words, or its number. The table has for each error a byte with its number, the words, and a line feed.
fn put_reason(buffer: &mut [u8], at: usize, reason: u32) -> usize
    ensures { Put buffer.old at (reason_text reason) buffer.new result }
{
    let words = meanings::words_in(
        b"\x02No such file or directory\n\
        \x04Interrupted system call\n\
        \x05Input/output error\n\
        \x06No such device or address\n\
        \x09Bad file descriptor\n\
        \x0cCannot allocate memory\n\
        \x0dPermission denied\n\
        \x14Not a directory\n\
        \x15Is a directory\n\
        \x17Too many open files in system\n\
        \x18Too many open files\n\
        \x1aText file busy\n\
        \x1bFile too large\n\
        \x1cNo space left on device\n\
        \x1eRead-only file system\n\
        \x20Broken pipe\n\
        \x24File name too long\n\
        \x28Too many levels of symbolic links\n\
        \x4bValue too large for defined data type\n\
        \x7aDisk quota exceeded\n",
        reason,
    );
    if words.is_empty() {
        return put_error(buffer, at, reason);
    }
    text::put(buffer, at, words)
}

// Puts the number of an error.
fn put_error(buffer: &mut [u8], at: usize, reason: u32) -> usize
    ensures { Put buffer.old at (error_text reason) buffer.new result }
{
    let digits = text::put(buffer, at, b"error ");
    text::put_decimal(buffer, digits, reason)
}

// Puts the name of a file; `input` is that of standard input, which the command names "-".
fn put_name(buffer: &mut [u8], at: usize, file: &[u8], input: &[u8]) -> usize
    ensures { Put buffer.old at (file_name input.now file.now) buffer.new result }
{
    if text::same_bytes(file, b"-") {
        return text::put(buffer, at, input);
    }
    if file.is_empty() {
        return text::put(buffer, at, b"\"\"");
    }
    put_shown(buffer, at, file)
}

// Puts a word so that it stays on one line.
fn put_shown(buffer: &mut [u8], at: usize, word: &[u8]) -> usize
    ensures { Put buffer.old at (shown word.now) buffer.new result }
{
    let mut next = at;
    for byte in word {
        next = put_shown_byte(buffer, next, *byte);
    }
    next
}

// Puts a byte of a word: one that does not print by its digits in base 16.
fn put_shown_byte(buffer: &mut [u8], at: usize, byte: u8) -> usize
    ensures { Put buffer.old at (shown_byte byte) buffer.new result }
{
    if prints(byte) {
        return text::put_byte(buffer, at, byte);
    }
    let high = text::digit(u32::from(byte / 16));
    let low = text::digit(u32::from(byte % 16));
    text::put(buffer, at, &[b'\\', b'x', high, low])
}

// Whether a byte prints: it is neither below 32 nor 127.
fn prints(byte: u8) -> bool
    ensures { result ≡ printing byte }
{
    32 <= byte && byte != 127
}
