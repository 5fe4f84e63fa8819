//! The words of the program's command line, and the command that they ask for.
#![tactic(auto)]

mod command;
mod kill;
mod law;
mod limits;
mod number;
mod numbers;
mod option;
mod parse;
mod read;
mod run;
#[cfg(test)]
mod tests_accepted;
#[cfg(test)]
mod tests_refused;
mod values;
mod verb;
mod word;

pub use command::{Command, Origin};
pub use kill::{Kill, KillKind};
pub use law::words_ask_for_one;
pub use limits::MAX_RECORDS;
pub use numbers::Numbers;
pub use read::{CommandStop, read_command};
pub use word::Word;
