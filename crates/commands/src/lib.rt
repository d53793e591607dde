//! One line of input as a command: its words are read, and what is wrong with them is said in plain words.
//! Each command's word stands once, in `COMMAND_WORDS`: reading, showing and the messages take it from there.
#![tactic(auto)]

pub mod command;
pub mod mistake;
pub mod name;
mod operand;
pub mod parse;

pub use command::{Command, SheetCommand};
pub use mistake::{Expected, ParseError};
pub use name::{COMMAND_WORDS, Name};
pub use parse::MOST_WORDS;
