//! What the program answers to a line, why it has no answer, how each is shown, and how the line fares.
#![tactic(auto)]

pub mod failure;
pub mod line_answer;
pub mod refused;
pub mod set_out;
pub mod shown_row;
pub mod verdict;

pub use failure::Failure;
pub use line_answer::LineAnswer;
pub use refused::RefusedLine;
pub use set_out::SetOut;
pub use shown_row::ShownRow;
pub use verdict::Verdict;
