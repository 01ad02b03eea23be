// What the program says of itself.
use crate::system::Stream;
use crate::{output, say, system};
use commands::words::Command;
use std::io::Result;

// Writes how the program is used.
pub(crate) fn write_usage(rt: HostRuntime, stream: Stream) -> Result<()> {
    system::write_all(
        rt,
        stream,
        b"station check FILE...              says of each file whether it is accepted, or why it is refused\n\
        station receipt STATION JOB FILE   writes the receipt of the file\n\
        station bill FILE...               writes the bill of the receipts in the files, by station\n\
        station fields FILE                lists the fields of an accepted file: name, kind, codec, length\n\
        station view FILE NAME             writes the value of a field as text, an array one value to a line\n\
        station view --raw FILE NAME       writes its bytes: those of a string or a binary, else MessagePack\n\
        station column FILE NAME           writes the values of a column, one to a line\n\
        station column --raw FILE NAME     writes 32-bit floats in the hexadecimal notation of C\n\
        station help                       writes this text (also -h, --help)\n\
        station --version                  writes the version\n\
        \n\
        STATION is 1 to 99, JOB 1 to 999,999. FILE is a structure file of at most 65,536 bytes, and for\n\
        bill a file of receipts, all together at most 67,108,864 bytes; - is standard input. NAME is an\n\
        outer key of the file, as structureId or xCoordList.\n\
        Verdicts and data go to standard output, other sentences to standard error.\n\
        Status 0: the file is accepted, or the data were written. 1: the file is refused (receipt still\n\
        writes its receipt), or the column or a receipt of the bill is. 2: nothing was produced. 3: the\n\
        program could not be built.\n",
    )
}

// Writes the version of the program.
pub(crate) fn write_version(rt: HostRuntime) -> Result<()> {
    output::write(rt, b"station 0.10.0\n")
}

// Says which words a command takes; nothing of a word that is no command.
pub(crate) fn say_usage_of(rt: HostRuntime, command: Command) {
    say::say_bytes(rt, usage_of(command));
}

// The sentence that says which words a command takes.
fn usage_of(command: Command) -> &'static [u8] {
    match command {
        Command::Check => b"Usage: station check FILE...\n",
        Command::Receipt => b"Usage: station receipt STATION JOB FILE\n",
        Command::Bill => b"Usage: station bill FILE...\n",
        Command::Fields => b"Usage: station fields FILE\n",
        Command::View { .. } => b"Usage: station view [--raw] FILE NAME\n",
        Command::Column { .. } => b"Usage: station column [--raw] FILE NAME\n",
        Command::Help => b"Usage: station help\n",
        Command::Version => b"Usage: station --version\n",
        Command::Unknown => b"",
    }
}

// Says that the program is started by the command.
pub(crate) fn say_bare(rt: HostRuntime) {
    say::say_bytes(
        rt,
        b"This program is started by the command station: its first word is the descriptor to which it writes its status.\n",
    );
}
