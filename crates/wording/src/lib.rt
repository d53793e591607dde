//! Findings in plain words: what decides each, with its figures, and what its rule requires or advises. One sentence for each rule, in mm for a check and in metres for a report.
#![tactic(auto)]

pub mod explained;
pub mod in_metres;
pub mod neighbours;
pub mod reason;
mod reasons;
pub mod sentence;

pub use explained::Explained;
pub use in_metres::InMetres;
pub use neighbours::Neighbour;
pub use reason::{Clothoid, Disagreement, Reason};
pub use sentence::Sentence;
