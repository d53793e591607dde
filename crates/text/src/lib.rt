//! Text of any origin: the lines of an input, the words of a line, the numbers among them,
//! and how such a text is shown so that it cannot break a line or move the cursor.
#![tactic(auto)]

pub mod lines;
pub mod number;
pub mod shown;
pub mod words;

pub use lines::{LONGEST_LINE, Pending, split_line};
pub use shown::{Shown, ShownChar};
pub use words::words_of;
