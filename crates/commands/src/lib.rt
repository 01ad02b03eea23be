// What the program decides: the command that its words name, how a run ends, what it shows of a field, and which receipt of a bill is at fault.
// Nothing here reads or writes a file.
#![tactic(auto)]

pub mod bills;
pub mod listing;
pub mod status;
pub mod texts;
pub mod words;
