//! A client's table of least lengths, a limit whose entries are read in the memory that their file was loaded into.
#![tactic(auto)]

pub mod entry;
pub mod table;

pub use entry::Entry;
pub use table::ClientTable;
