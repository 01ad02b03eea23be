// The words of a command.
ghost use Rattle.std.specs.Prelude.{◌≡◌};
ghost use Rattle.commands.specs.Words.{command_of, about_of, raw_of, flagged, words_fit, file_place, name_place, asked_of, part_of};

use refusal::Refusal;
use sentences::OfPart;

// What a word asks the program to do. Where `raw` is set, the word --raw stands after it.
#[derive(Clone, Copy)]
pub enum Command {
    Check,
    Receipt,
    Bill,
    Fields,
    View { raw: bool },
    Column { raw: bool },
    Help,
    Version,
    Unknown,
}

// The command that a word names. No `match` on the word: it is proved byte by byte, and its proof did not close.
pub fn command_of(word: &[u8]) -> Command
    ensures { result ≡ command_of word.now }
{
    if text::same_bytes(word, b"check") {
        Command::Check
    } else if text::same_bytes(word, b"receipt") {
        Command::Receipt
    } else if text::same_bytes(word, b"bill") {
        Command::Bill
    } else if text::same_bytes(word, b"fields") {
        Command::Fields
    } else if text::same_bytes(word, b"view") {
        Command::View { raw: false }
    } else if text::same_bytes(word, b"column") {
        Command::Column { raw: false }
    } else {
        about_of(word)
    }
}

// The command about the program itself that a word names.
fn about_of(word: &[u8]) -> Command
    ensures { result ≡ about_of word.now }
{
    if text::same_bytes(word, b"help")
        || text::same_bytes(word, b"--help")
        || text::same_bytes(word, b"-h")
    {
        Command::Help
    } else if text::same_bytes(word, b"--version") {
        Command::Version
    } else {
        Command::Unknown
    }
}

// A command with the word directly after it: --raw asks view for bytes, and column for floats in hexadecimal. A file of that name is ./--raw.
pub fn with_flag(command: Command, word: &[u8]) -> Command
    ensures { result ≡ flagged command word.now }
{
    if text::same_bytes(word, b"--raw") {
        return raw(command);
    }
    command
}

// The command with --raw; one that does not take it stays.
fn raw(command: Command) -> Command
    ensures { result ≡ raw_of command }
{
    match command {
        Command::View { .. } => Command::View { raw: true },
        Command::Column { .. } => Command::Column { raw: true },
        _ => command,
    }
}

// Whether a command has as many words as it takes: count is that of all words, the program's name, the descriptor and the command among them.
pub fn fits(command: Command, count: usize) -> bool
    ensures { result ≡ words_fit command count }
{
    match command {
        Command::Check | Command::Bill => 4 <= count,
        Command::Receipt => count == 6,
        Command::Fields => count == 4,
        Command::View { raw: false } | Command::Column { raw: false } => count == 5,
        Command::View { raw: true } | Command::Column { raw: true } => count == 6,
        Command::Help | Command::Version => count == 3,
        Command::Unknown => true,
    }
}

// Which of the words is the file's name, or the first of them.
pub fn file_place(command: Command) -> usize
    ensures { result ≡ file_place command }
{
    match command {
        Command::Receipt => 5,
        Command::View { raw: true } | Command::Column { raw: true } => 4,
        _ => 3,
    }
}

// Which of the words is the name of a field, if the command takes one.
pub fn name_place(command: Command) -> usize
    ensures { result ≡ name_place command }
{
    file_place(command) + 1
}

// The number that a word says, if it is 1 to a limit.
pub fn number_in(word: &[u8], limit: u32) -> Option<u32>
    ensures { result ≡ asked_of word.now limit }
{
    let number = text::number_of(word)?;
    if number < 1 || limit < number {
        return None;
    }
    Some(number)
}

// What is said of a column that is refused with a number.
pub fn part_of(number: u8) -> OfPart
    ensures { result ≡ part_of number }
{
    if number == Refusal::BufferTooSmall.number() {
        OfPart::NotShown
    } else {
        OfPart::Refused(number)
    }
}
